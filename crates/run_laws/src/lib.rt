//! What lines show of the run of a session's steps: one record for every command that runs some.
//!
//! The definition is `IsSessionRun` of `specs/Runs`. This library has no code: it has the laws that such a run is all of
//! it.
#![tactic(auto)]

pub mod laws;
