//! What the scripts of a session ask of its boards, dispatch by dispatch, and the outcomes of these bodies.
//!
//! `plan_on` packs the operations of a client's steps on one board: its answer, `Planned`, has the bodies, where the
//! pieces of each operation stand in them, and how many bodies each dispatch has. `ClientPart` and `BoardRun` are such
//! plans with what became of their bodies, and `Lates` is what came late for them. What is told of that is not said
//! here. The definitions that contracts cite are in `specs/`.
#![tactic(auto)]

mod board_run;
mod greeting;
pub mod laws;
mod op_pieces;
mod planned;
mod planning;

pub use board_run::{BoardRun, ClientPart, ClientParts, Lates};
pub use greeting::Greeting;
pub use ipb_base::{NoMemory, Text, Words};
pub use lane_record::{Outcome, Outcomes};
pub use planned::{PieceAt, Planned};
pub use planning::plan_on;
