//! Sockets that a link can be made over.

ghost use Rattle.std.specs.Prelude.{◌≡◌, Bool, false, IfOk, None, OnOk, option_map};
ghost use Rattle.std.specs.Duration.{as_nanos};
ghost use Rattle.links.specs.Sockets.{bound_at, place_of, told_if, with_wait};

use links::DatagramSocket;
use std::io;
use std::net::{Net, SocketAddr, UdpSocket};
use std::time::Duration;

/// A socket for datagrams that is bound to a place of this machine, and waits as long as it is told.
pub trait LinkSocket: DatagramSocket {
    /// Whether one of this kind tells what it is handed.
    ghost tells: { Bool };

    /// A socket that is bound to this place.
    fn bind_at<R: Net>(rt: &R, place: SocketAddr) -> io::Result<Self>
    where
        Self: Sized,
        ensures { IfOk result (λ socket. Self.told socket ≡ told_if tells (bound_at (place_of place))) };

    /// From now on a receive and a look wait for so long, at most.
    fn set_wait(&mut self, wait: Duration) -> io::Result<()>
        ensures { OnOk result (Self.told self.new ≡ option_map (with_wait (as_nanos wait)) (Self.told self.old)) };

    /// Another handle of the system's socket that it is. `None` where it is none, and where the machine has no handle.
    fn other_handle(&self) -> Option<UdpSocket>;
}

// What follows is what no contract sees: the calls of std.

impl LinkSocket for UdpSocket {
    ghost tells = { false };

    fn bind_at<R: Net>(rt: &R, place: SocketAddr) -> io::Result<UdpSocket> {
        UdpSocket::bind(rt, place)
    }

    fn set_wait(&mut self, wait: Duration) -> io::Result<()> {
        self.set_read_timeout(Some(wait))
    }

    fn other_handle(&self) -> Option<UdpSocket> {
        self.try_clone().ok()
    }
}
