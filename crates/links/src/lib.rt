//! What a hub knows of a network, whatever it is: the link to one board, the rack that makes links and keeps them, what
//! a datagram says to a hub and how its sends are spelled, and what waits beside a link.
//!
//! Nothing here is a link: those that the program has are in crates above, over a simulated network and over UDP. The
//! laws say what a hub over a link that tells comes to: each thing that they do leads to a state of a run of
//! `world_model`.
#![tactic(auto)]

mod finding;
mod found;
mod ghost_list;
pub mod laws;
mod link;
mod link_number;
mod message;
mod rack;
mod sending;
mod socket;
mod spec_log;
mod traffic_log;
mod waiter;

pub use board_specs::{BoardSpec, LinkSpec};
pub use finding::{Sight, find_next};
pub use found::{Found, what_was_found_is_read_back};
pub use ghost_list::GhostList;
pub use ipb_base::{NoMemory, Words};
pub use link::{LIFETIME, Link, LinkFault, MAX_DATAGRAM, Received};
pub use link_number::LinkNumber;
pub use message::{Message, read_for_hub};
pub use rack::{Rack, RackFault};
pub use reliable_engine::{Engine, Sending};
pub use sending::{append_sending, write_sending};
pub use socket::DatagramSocket;
pub use spec_log::SpecLog;
pub use status_packet::Status;
pub use traffic_log::TrafficLog;
pub use waiter::{MOST_FROM_ELSEWHERE, Sighting, Waiter};
