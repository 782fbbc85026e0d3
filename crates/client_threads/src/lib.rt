//! Clients of a hub that run at once, each on a thread. A client does its dispatches one after another: it asks all
//! bodies of one, and then takes what became of each.
#![tactic(auto)]

mod context;
mod gate;
mod job;
pub mod laws;
mod plan;
mod result;
mod run;
mod threads;

pub use gate::{Gate, NoGate};
pub use hub_multiplexer::{NoMemory, Outcome};
pub use plan::{Asks, ClientPlan, Dispatch, Dispatches};
pub use result::{ClientResult, LaneOutcomes};
pub use threads::run_clients;
