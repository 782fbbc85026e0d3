//! The answers that a reply gives to the requests of a body.
//!
//! A packet's reply has one reply for each request up to the first that failed. `join_reply` gives each request its
//! answer, or says at which word the reply stops being one to that body.
#![tactic(auto)]

mod answer;
mod joining;
pub mod laws;
mod outcome;
mod read_words;
mod refusal;

pub use answer::{Answer, Answers};
pub use joining::join_reply;
pub use read_words::ReadWords;
pub use refusal::JoinRefusal;
