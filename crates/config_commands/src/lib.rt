//! The commands `save` and `apply`: the configuration of a session's boards as a text, and values of such a text that are
//! written to them.
//!
//! What they promise is `IsSavedBy` of `specs/Saved` and `IsAppliedBy` of `specs/Applied`; `save_terms` and `apply_terms`
//! of `specs/Terms` say all that they owe to their input.
#![tactic(auto)]

pub mod commands;
pub mod laws;
mod run;

pub use commands::{apply_document, save_document};
