//! What a run shows of boards whose configuration is read and written.
//!
//! The definitions are in `specs/`: reads and writes of one word, what a bus gives operations one after another, and the
//! configurations that boards open with and that are applied. This library has no code: it has the laws of these
//! definitions.
#![tactic(auto)]

pub mod applying;
pub mod examples;
pub mod permitted;
pub mod reading_back;
pub mod reads;
pub mod saving;
pub mod sessions;
pub mod turns;
pub mod writes;
