//! What the lines of scripts ask, once they are read: operations on registers, step by step, and what packing and the
//! bus can take of them.
#![tactic(auto)]

pub mod laws;
mod limits;
mod operation;

pub use ipb_base::Text;
pub use limits::{MAX_BLOCK_WORDS, MAX_OPERATIONS};
pub use operation::{Decision, RegOp, Step, Steps, Verb};
