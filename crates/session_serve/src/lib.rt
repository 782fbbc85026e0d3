//! Connections served at the boards of a document: all boards are greeted over the links of a rack, then a door is
//! listened to, and each connection that it lets in is served beside the others, in a thread of its own.
//!
//! What comes of it is `AreServed`. The definitions that contracts cite are in `specs/`.
#![tactic(auto)]

mod below;
mod connection;
mod finish;
mod hub;
pub mod laws;
mod prepared;
mod report;
mod room;
mod seats;
mod serving;
mod session;
mod states;
mod work;

pub use hub_session::{Served, SessionEnd};
pub use report::{ServeFault, ServeReport};
pub use session::serve_session;
pub use transcript::BoardLine;
