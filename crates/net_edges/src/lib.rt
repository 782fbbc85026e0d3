//! The real outside: UDP links to boards, TCP connections and a port that lets them in, standard input and output, and
//! racks whose links are simulated or go over UDP.
//!
//! `std_edges` has all of it that knows no simulator, and is handed on here.
#![tactic(auto)]

mod any_link;
mod real_rack;

pub use any_link::AnyLink;
pub use links::{Link, LinkFault, Rack, RackFault, Received};
pub use lossy_network::SimLink;
pub use real_rack::RealRack;
pub use std_edges::{
    Console, Door, Failed, KeptSink, KeptSource, NotedSink, Printed, Progress, Sink, Source,
    StdinSource, StdoutSink, Taken, TcpDoor, TcpSink, TcpSource, UdpLink,
};
