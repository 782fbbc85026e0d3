//! The packets by which a hub and a board keep in step: status requests and their replies, and re-send requests.
//! All are big-endian, and none takes memory.
#![tactic(auto)]

pub mod laws;
mod reading;
mod status;
mod writing;

pub use packet_ids::Id;
pub use reading::{is_status_request, read_resend, read_status_reply};
pub use status::{BadStatus, MAX_BUFFERS, MAX_MTU, MIN_MTU, RESEND_BYTES, STATUS_BYTES, Status};
pub use writing::{write_resend, write_status_reply, write_status_request};
