//! A value that threads hand to one another, with a record that only grows.
//!
//! A [`Turn`] keeps the value in a slot while nobody holds it. Whoever wants it shows a [`Pass`], and takes it by one
//! exchange of the slot, which never waits; only `take` and `close` try again. The holder alone adds entries to the
//! record of the value, each with the number of its pass, so that all that happens to the value stands in one list.
//! `specs/Rule.antt` has the rule that holds between any two steps of any threads.
#![tactic(auto)]

mod chronicle;
pub mod laws;
mod pass;
mod plays;
mod turn;

pub use chronicle::{Chronicle, Entry};
pub use pass::Pass;
pub use turn::{NotMade, Turn};
