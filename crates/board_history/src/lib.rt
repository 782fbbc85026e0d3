//! The one order in which a board executes the bodies of all clients, and what a run may show of it: over links where
//! nothing is lost, and, from the record of a lane, over links that may lose datagrams and fail.
//!
//! The definitions are in `specs/`: the order of a board by place, the parts of a legal history, the history of clients
//! that run one after another, and what a run shows whose clients do so; what a run shows of boards and their links, what
//! clients leave in the record of a lane, and what a lane keeps. This library has no code: it has the laws of these
//! definitions.
#![tactic(auto)]

pub mod building;
pub mod examples;
pub mod lane_examples;
pub mod lanes;
pub mod laws;
pub mod machine_examples;
pub mod machine_laws;
pub mod place_laws;
pub mod records;
pub mod run_laws;
pub mod runs;
