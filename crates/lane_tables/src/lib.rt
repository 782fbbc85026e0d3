//! What a lane keeps of its clients' bodies: the entries of its record and what became of each body, with tables by
//! which both are found. Plain values, without a link.
#![tactic(auto)]

mod book;
mod item_log;
pub mod laws;
mod outcome_table;
mod rows;

pub use book::{Book, MAX_BODIES, MAX_WORDS};
pub use ipb_base::{NoMemory, Words};
pub use outcome_table::OutcomeTable;
