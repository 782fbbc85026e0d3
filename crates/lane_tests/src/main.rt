//! Tests of boards, the engine with them, lanes, hubs and connections to them. What their clauses cannot say is
//! run here: that each call succeeds where memory is there. Links, racks, taps, plans and lines are run by the tests of
//! the program's call and by the documents under `examples`, as lanes and hubs are too.
#![tactic(auto)]

#[cfg(test)]
mod board_node_tests;
#[cfg(test)]
mod datagram_tests;
#[cfg(test)]
mod fixtures;
#[cfg(test)]
mod hub_lane_tests;
#[cfg(test)]
mod hub_multiplexer_tests;
#[cfg(test)]
mod hub_session_tests;
#[cfg(test)]
mod script_link_tests;
#[cfg(test)]
mod world_core_tests;

/// There is nothing to run but the tests.
fn main() {}
