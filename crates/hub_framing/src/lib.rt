//! Frames on the stream of bytes between a client and the hub: request frames are cut from it, in whatever pieces it
//! comes, and reply frames are written.
#![tactic(auto)]

mod cutting;
mod frame;
mod framer;
pub mod laws;
mod reply;

pub use frame::{Frame, MAX_FRAME_LENGTH, MAX_PACKET_BYTES, MIN_FRAME_LENGTH};
pub use framer::{FrameRefusal, Framer};
pub use ipb_base::NoMemory;
pub use reply::{append_reply_head, write_frame};
