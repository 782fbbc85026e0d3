//! What a command of the program is to the rest of it: a status and a text, and what it owes to its input.
//!
//! Each command has a crate of its own, with its terms: a value of `Terms` of `specs/Terms`, which says which input it
//! takes, which it refuses by which line, and what it makes of any other. A law of that crate shows that they are such
//! terms (`AreTerms`). The program chooses by the command, and promises what its terms say.
#![tactic(auto)]

pub mod answer;
pub mod laws;

pub use answer::{
    Answer, DONE, DOOR_FAULT, NO_MEMORY, NOT_ALL_DONE, RACK_FAULT, READ_FAULT, REFUSED, USAGE,
    WRITE_FAULT, done_status, refused,
};
