//! The command `serve`: connections at the boards of a session document, and a line for each of them and each board.
//!
//! What it promises is `IsServiceOf` of `specs/Serving`; `serve_terms` of `specs/Terms` says all that it owes to its
//! input. `serve_text` makes the lines, as a function of how each connection was served and of the lines of the boards,
//! and `all_closed` says whether every connection ended between two frames; `summary_laws` says what the numbers in those
//! lines mean: how many frames for a board were answered by a code, and what the line of the board tells of it.
#![tactic(auto)]

mod below;
pub mod examples;
pub mod laws;
pub mod serve;
pub mod summary_laws;
mod text;

pub use hub_session::{Served, SessionEnd};
pub use ipb_base::NoMemory;
pub use serve::serve_document;
pub use text::{all_closed, serve_text};
pub use transcript::BoardLine;
