//! What an audit says of what a run prints. This crate has laws alone.
#![tactic(auto)]

pub mod laws;
pub mod place_laws;
pub mod session_laws;
pub mod transcript_laws;
