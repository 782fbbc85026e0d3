//! Reads the text of a transcript back: what a text shows of a session, or the first line at which it is no transcript
//! of it.
//!
//! `read_transcript` cuts a text into lines and reads each by what may stand there. The definitions that contracts cite
//! are in `specs/`: what an operation can show (`Results`), the lines of a session (`Entries`), what a text shows of it
//! (`Shown`) and where it is at fault (`Faults`).
#![tactic(auto)]

mod boards;
mod deciding;
mod front;
mod greeting;
pub mod laws;
mod lines;
mod number;
mod operation;
mod pieces;
mod reading;
mod showing;
mod shown;
mod writing;

pub use greeting::greeting_of;
pub use ipb_base::NoMemory;
pub use reading::read_transcript;
pub use shown::{BoardLines, Shown, ShownClients, ShownOp, ShownOps, Unshown};
