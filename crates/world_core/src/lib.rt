//! A board and the hub of it, run over any list of moves.
//!
//! `run_world` runs the real engine and the real board over moves that choose what the path does to each datagram: it
//! is lost, repeated, late or out of order. It is proved equal to `world_model`'s runs, so its own contract says the
//! theorem: whatever the moves, each body is executed once at most and in order, and a reply is that of its place.
#![tactic(auto)]

pub mod laws;
mod run;
mod world;

pub use board_node::Board;
pub use ipb_base::{NoMemory, Words};
pub use links::{
    LIFETIME, Link, LinkFault, MAX_DATAGRAM, Message, Received, TrafficLog, Waiter, append_sending,
    read_for_hub, write_sending,
};
pub use lossy_network::Air;
pub use reliable_engine::{Engine, Fate, Sending, Settings};
pub use status_packet::Status;
pub use world::{World, are_short, run_world};
pub use world_model::{WorldEnd, WorldMove};
