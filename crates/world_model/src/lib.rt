//! What a board answers, what a hub sends and settles, what is in the air between them, and what a move of this world
//! does: all of it as data and functions over data, with the theorem over all that the path can do to datagrams.
//!
//! The definitions are in `specs/`: `Board`, `Hub`, `Air` and `World` are what IPbus 2.0 and a ControlHub do,
//! `Messages` how each side reads bytes, `Links` and `Lanes` what the crates above need of a link that tells its
//! datagrams, `Facts` the facts that carry the theorem, and `History` what it says. Of code there are only the types
//! that these definitions and the crates above share: a board, an engine and a link are those crates, which are proved
//! equal to these functions.
#![tactic(auto)]

mod below;
mod bytes;
mod datagram;
pub mod examples;
mod heard;
pub mod laws;
mod moves;
mod offered;
mod sending;
mod settings;

pub use bytes::Bytes;
pub use datagram::{Datagram, Direction};
pub use heard::{DropCause, Heard, LogEntry};
pub use ipb_base::{NoMemory, Words};
pub use moves::{WorldEnd, WorldMove};
pub use offered::{Fate, Offered, OpenPlace};
pub use packet_codec::Order;
pub use packet_ids::Id;
pub use sending::Sending;
pub use settings::{MAX_WINDOW, Settings};
