//! The hub's side of one board: what may be sent, and what a reply settles.
//!
//! An engine is a machine without time, threads or bytes. Bodies are offered to it; replies, status replies and quiet
//! receives are heard; and it is asked what to send next and what became of the bodies. It is `world_model`'s hub: each
//! call's contract is that hub's event.
#![tactic(auto)]

mod below;
mod engine;
mod fates;
pub mod laws;
mod open_places;
mod slots;

pub use engine::Engine;
pub use ipb_base::{NoMemory, Words};
pub use packet_ids::Id;
pub use status_packet::Status;
pub use world_model::{Fate, MAX_WINDOW, Offered, OpenPlace, Sending, Settings};
