//! The bus of a board: a map from addresses to words, in ranges of four kinds, on which IPbus 2.0 transactions are
//! executed.
#![tactic(auto)]

mod addressing;
mod bus;
pub mod examples;
mod execute;
mod fault;
mod kind;
pub mod laws;
mod opening;
mod page;
mod range;
mod reading;
mod room;
mod transaction;

pub use bus::Bus;
pub use fault::BusFault;
pub use ipb_base::{NoMemory, Words};
pub use kind::RangeKind;
pub use range::{BusRefusal, MAX_WORDS, Range, check_ranges};
