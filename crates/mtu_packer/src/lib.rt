//! Packing of operations into the bodies of packets.
//!
//! A board takes packets of at most so many words, its payload. Operations that are longer are cut into pieces, and
//! pieces share a body as long as its requests and the longest reply to them fit packets of that size.
#![tactic(auto)]

mod cutting;
pub mod laws;
mod packed;
mod packer;
mod packing;

pub use packed::{Packed, Piece, Places};
pub use packing::{MAX_PAYLOAD, MIN_PAYLOAD, pack, pack_into};
