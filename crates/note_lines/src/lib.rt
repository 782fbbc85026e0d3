//! Lines that are said beside the answer of a command, on standard error: what to look for, what was done and what was
//! not. They are no part of the answer, and no contract speaks of them.
#![tactic(auto)]

mod escaping;
mod notes;

pub use escaping::{MOST_SHOWN, OneLine};
pub use ipb_base::NoMemory;
pub use notes::Notes;
