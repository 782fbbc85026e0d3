//! A hub of many boards for many clients: a turn for each board's lane, or for what serves the board as a lane does, and
//! a pass for each client on each of them.
#![tactic(auto)]

mod answers;
mod at_hub;
mod bell;
mod boxed;
mod boxed_calls;
mod calls;
mod hub;
mod lane;
pub mod laws;
mod master;
mod own;
mod passes;
mod room;
mod seat;
mod turns;
mod visit;
mod waiting;

pub use answers::{AskTry, Performed, StepTry};
pub use at_hub::AtHub;
pub use hub::{BoardHub, BoardsReturned, Hub, Returned};
pub use hub_lane::{Asked, Lane, Link, NoMemory, Outcome, PlanRefusal, Turned, Words};
pub use master::Master;
pub use seat::Seat;
