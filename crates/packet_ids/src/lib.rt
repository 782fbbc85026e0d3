//! Packet identifiers: the 16-bit numbers by which IPbus 2.0 keeps control packets in order.
//!
//! A hub numbers the packets that it sends to a board by places 1, 2, 3, and so on, without end. On the wire
//! a place goes by its identifier alone, and this crate leads from one to the other and back.
#![tactic(auto)]

mod id;
pub mod laws;
mod places;

pub use id::Id;
pub use places::{IDENTIFIERS, id_at, place_of};
