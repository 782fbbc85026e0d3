//! From what a hub hands back at its end to the record on which the history of a board rests, and to what may be shown
//! of the board: where its clients run scripts, dispatch by dispatch, and where they are connections.
//!
//! A connection is a client that submits one body after the other. The definitions are in `specs/`. This library has no
//! code: it has laws.
#![tactic(auto)]

pub mod boards;
pub mod clients;
pub mod connections;
pub mod examples;
