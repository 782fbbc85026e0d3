//! A board in greetings, one after another: of each there is one legal record, over a link of its own.
#![tactic(auto)]

mod answers;
mod at_hub;
mod berth;
mod calls;
mod chronicle;
pub mod examples;
mod for_client;
mod greeting;
pub mod laws;

pub use answers::{Begun, BerthRefusal, NotBegun};
pub use berth::{Berth, MAX_ENTRIES};
pub use greeting::Greeting;
pub use hub_lane::{Asked, Link, Looked, NoMemory, PlanRefusal, Stepped, Waiter, Words};
