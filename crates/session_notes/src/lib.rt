//! What is said of a session: how many packets and words its clients ask of its boards.
#![tactic(auto)]

mod asked_packets;
mod operations;

pub use asked_packets::say_asked;
pub use ipb_base::NoMemory;
pub use operations::{payload_on, words_read};
