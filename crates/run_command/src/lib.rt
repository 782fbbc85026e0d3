//! The command `run`: the scripts of a session document on its boards, and their transcript.
//!
//! What it promises is `IsTranscriptOf` of `specs/Headline`; `run_terms` of `specs/Terms` says all that it owes to its
//! input.
#![tactic(auto)]

pub mod laws;
pub mod run;
pub mod transcript_laws;

pub use run::run_document;
