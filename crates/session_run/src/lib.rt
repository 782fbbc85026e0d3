//! Sessions run over the links of a rack: all boards are greeted, and then the clients run their scripts, each in a
//! thread of its own, whatever the links lose, repeat, delay or reorder.
//!
//! What each client asks of the lanes of a hub follows from what it has planned on each board (`client_plans`), and its
//! part on each board from what became of that (`client_parts`). What a run shows is `AreRunsOver` of `board_history`.
//! The definitions that contracts cite are in `specs/`.
#![tactic(auto)]

mod asking;
mod board_plans;
mod finish;
mod hub;
mod lanes;
mod late_answers;
pub mod laws;
mod parts;
mod planning;
mod rest;
mod session;

pub use asking::client_plans;
pub use board_plans::BoardPlans;
pub use ipb_base::NoMemory;
pub use parts::client_parts;
pub use session::{RunFault, run_greeted, run_session};
