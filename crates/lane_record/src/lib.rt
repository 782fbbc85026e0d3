//! The record of a lane: what clients planned, asked and took on one board, in one list.
//!
//! The definitions are in `specs/`: when a record is legal, in five parts; what it determines once every asked body was
//! taken; how it is spelled in numbers; and what ties it to the hub that sends the bodies. Of code there are the types
//! alone. `laws` says what follows from these definitions.
#![tactic(auto)]

pub mod examples;
mod item;
pub mod laws;
mod outcome;

pub use item::{ASK, Item, PLAN, SEAL, TOOK, What};
pub use outcome::{Outcome, Outcomes};
