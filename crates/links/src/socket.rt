//! Sockets for datagrams, as a link and what waits beside it call them.

ghost use Rattle.std.specs.Prelude.{◌≤◌, Option, IfOk, [], ◌∷◌, length, None};
ghost use Rattle.links.specs.Sockets.{AreCalls, came_of, place_of, Socket, SendTo, Receive, Look};

use std::io;
use std::net::{SocketAddr, UdpSocket};

/// A socket for datagrams. It may tell where it is bound, how long it waits and each call of it, as one of a test does.
/// Then contracts see what its callers hand to it and are handed. Those of std tell nothing.
pub trait DatagramSocket {
    /// What it tells, where it tells anything.
    ghost told: { Self → Option Socket };

    /// Hands a datagram over that is to go to this place, and answers how many of its bytes went.
    fn send_datagram(&mut self, bytes: &[u8], to: SocketAddr) -> io::Result<usize>
        ensures { AreCalls (SendTo (place_of to) bytes.now ∷ []) (told self.old) (told self.new) };

    /// Takes the next datagram, and answers how many of its bytes stand at the front of `into`, and where it came from.
    /// The bytes that have no room are lost. An error comes where no datagram came in the time that the socket waits.
    fn receive_datagram(&mut self, into: &mut [u8]) -> io::Result<(usize, SocketAddr)>
        ensures within { IfOk result (λ got. got.0 ≤ length into.new) }
        ensures called { AreCalls (Receive (came_of result into.new) ∷ []) (told self.old) (told self.new) };

    /// Looks at the next datagram, which stays for the next call, and answers as a receive does.
    fn look_at_datagram(&mut self, into: &mut [u8]) -> io::Result<(usize, SocketAddr)>
        ensures within { IfOk result (λ got. got.0 ≤ length into.new) }
        ensures called { AreCalls (Look (came_of result into.new) ∷ []) (told self.old) (told self.new) };
}

// What follows is what no contract sees: the calls of std.

impl DatagramSocket for UdpSocket {
    ghost told = { λ _. None };

    fn send_datagram(&mut self, bytes: &[u8], to: SocketAddr) -> io::Result<usize> {
        UdpSocket::send_to(self, bytes, to)
    }

    fn receive_datagram(&mut self, into: &mut [u8]) -> io::Result<(usize, SocketAddr)> {
        UdpSocket::recv_from(self, into)
    }

    fn look_at_datagram(&mut self, into: &mut [u8]) -> io::Result<(usize, SocketAddr)> {
        UdpSocket::peek_from(self, into)
    }
}

/// A socket that is shared, as a waiter shares its own with the threads that wait.
impl<'a> DatagramSocket for &'a UdpSocket {
    ghost told = { λ _. None };

    fn send_datagram(&mut self, bytes: &[u8], to: SocketAddr) -> io::Result<usize> {
        UdpSocket::send_to(*self, bytes, to)
    }

    fn receive_datagram(&mut self, into: &mut [u8]) -> io::Result<(usize, SocketAddr)> {
        UdpSocket::recv_from(*self, into)
    }

    fn look_at_datagram(&mut self, into: &mut [u8]) -> io::Result<(usize, SocketAddr)> {
        UdpSocket::peek_from(*self, into)
    }
}
