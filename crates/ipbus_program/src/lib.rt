//! The program `ipbus`: the words of the command line are a command, and what it owes to its input is done.
//!
//! `terms_of` of `specs/Commands` says what each command owes. `check` is a module of this crate, the other commands have
//! crates of their own.
#![tactic(auto)]

mod answering;
pub mod check;
pub mod check_examples;
pub mod check_laws;
mod no_answer;
mod program;

pub use check::check_document;
pub use client_threads::{Gate, NoGate, Outcome};
pub use command_terms::{
    DONE, DOOR_FAULT, NO_MEMORY, NOT_ALL_DONE, RACK_FAULT, READ_FAULT, REFUSED, USAGE, WRITE_FAULT,
};
pub use command_words::Command;
pub use program::control;
pub use session_input::{MAX_DOCUMENT, Refusal};
