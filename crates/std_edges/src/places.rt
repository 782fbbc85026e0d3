//! Where sockets stand: an IPv4 address and a port.

ghost use Rattle.std_edges.specs.Places.{IsAt, every_address};

use std::net::{Ipv4Addr, SocketAddr, SocketAddrV4};

/// The place of a board: its address, the most significant number first, and its port.
pub(crate) fn place_of_board(address: [u8; 4], port: u16) -> SocketAddr
    ensures { IsAt address port result }
{
    SocketAddr::V4(SocketAddrV4::new(Ipv4Addr::from_octets(address), port))
}

/// A port at every IPv4 address of the machine. At the port 0 the machine takes one that is free.
pub(crate) fn port_everywhere(port: u16) -> SocketAddr
    ensures { IsAt every_address port result }
{
    SocketAddr::V4(SocketAddrV4::new(Ipv4Addr::new(0, 0, 0, 0), port))
}
