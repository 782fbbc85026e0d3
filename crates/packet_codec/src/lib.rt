//! IPbus 2.0 packets: the packet header and the words after it, read and written in both byte orders.
#![tactic(auto)]

mod header;
pub mod laws;
mod packet;
mod reading;
mod writing;

pub use header::{Header, header_word, read_header};
pub use ipb_base::{NoMemory, Words};
pub use packet::{BadPacket, Head, MAX_BODY_WORDS, MAX_PACKET_WORDS, Order, Packet, PacketKind};
pub use reading::{read_head, read_packet};
pub use writing::{append_packet, put_packet, write_packet};
