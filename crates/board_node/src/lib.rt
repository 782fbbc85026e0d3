//! A board, which hears datagrams, executes control packets in order and answers.
//!
//! Contracts see a board as the record of data of `world_model`, and what it does with a datagram as the function
//! `hear` there. What the code keeps beside that record, to answer fast, is private.
#![tactic(auto)]

mod board;
pub mod examples;
pub mod laws;
mod replies;

pub use board::Board;
pub use board_bus::{Bus, Range, RangeKind};
pub use board_specs::{BoardSpec, Fates, LinkSpec, Ranges};
pub use ipb_base::{NoMemory, Text};
pub use packet_ids::Id;
pub use world_model::{DropCause, Heard};
