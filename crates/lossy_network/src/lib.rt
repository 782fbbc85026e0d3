//! A simulated network: links that lose, repeat and delay datagrams as they are told, and racks that make them.
//!
//! Contracts see a link as a record of data, `Network`, and a send and a receive as one function each of it. So a link
//! tells its board and all that it ever carried, and what a hub over it does is a run of `world_model`. The air of a link is
//! every datagram that was ever sent on it; `world_core` runs moves over such an air without a link.
#![tactic(auto)]

pub mod air;
pub mod datagrams;
pub mod examples;
mod fates;
mod handing;
pub mod laws;
mod link;
mod room;
mod script_link;
mod script_rack;
mod sim_rack;
mod telling;
mod under_way;

pub use air::Air;
pub use board_node::Board;
pub use board_specs::{BoardSpec, Fates};
pub use fates::DatagramFate;
pub use ipb_base::NoMemory;
pub use link::SimLink;
pub use links::{Link, LinkFault, Rack, RackFault, Received, SpecLog};
pub use script_link::{ScriptLink, are_datagrams};
pub use script_rack::ScriptRack;
pub use sim_rack::SimRack;
