//! Captures of one board's traffic, as a hub sends and receives it: their text and their description, both ways, and
//! what a capture proves that the board has executed.
#![tactic(auto)]

mod capture;
mod describing;
pub mod examples;
mod executed;
mod front;
mod hex;
pub mod laws;
mod number;
mod packets;
mod parsing;
mod reading;
mod refusal;
mod room;
mod texts;
mod undescribing;
mod writing;

pub use capture::{Bytes, Capture, Caught, Items, MAX_DATAGRAM};
pub use describing::describe;
pub use executed::proved;
pub use ipb_base::NoMemory;
pub use packet_ids::Id;
pub use reading::read_capture;
pub use refusal::{CaptureRefusal, CaptureWhy, UndescribeRefusal};
pub use undescribing::undescribe;
pub use writing::write_capture;
