//! One board's lane: its engine over its link, and the record of what clients asked and got.
#![tactic(auto)]

mod answers;
mod below;
mod chronicle;
mod exchange;
mod greeting;
mod lane;
pub mod laws;
mod outcomes;
mod run_log;
mod step;

pub use answers::{Asked, BoardState, PlanRefusal, Pumped, Taken};
pub use greeting::{Greeted, MOST_OTHERS};
pub use ipb_base::{NoMemory, Words};
pub use lane::Lane;
pub use lane_record::Outcome;
pub use lane_tables::{MAX_BODIES, MAX_WORDS};
pub use links::{Link, LinkFault, Received, Waiter};
pub use step::{Looked, Stepped, Turned};
pub use turn_pass::Entry;
pub use world_model::Settings;
