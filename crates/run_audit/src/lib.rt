//! Whether a transcript fits a session: what `run` could have printed of it, up to what no text can tell.
//!
//! `audit` reads the text back by `transcript_reader`, and executes the bodies that it shows with a place once more, by
//! place, on the bus of their board. The definitions that contracts cite are in `specs/`: the operations with what their
//! lines show (`AskedLines`), the rules on places (`Places`), the boards as they are shown (`Replay`), the rules on
//! results (`Results`) and on the lines of boards (`Counts`), and the verdict (`Verdicts`).
#![tactic(auto)]

mod agreeing;
mod apart;
mod asking;
mod auditing;
mod counts;
mod fate;
mod in_time;
pub mod laws;
mod places;
mod plans;
mod replaying;
mod results;
mod run_pieces;
mod taken;
mod unreplayed;
mod verdict;

pub use auditing::audit;
pub use fate::Fate;
pub use in_time::result_in_time;
pub use ipb_base::NoMemory;
pub use verdict::{AuditWhy, Verdict};
