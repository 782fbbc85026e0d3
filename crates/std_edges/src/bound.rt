//! Sockets, and where and how they were bound.

ghost use Rattle.std.specs.Prelude.{◌≡◌, ◌≤◌, [], ◌∷◌, IfOk, IfSome, MatchResult, length};
ghost use Rattle.std.specs.Duration.{as_nanos};
ghost use Rattle.links.specs.Sockets.{At, came_of, place_of, Receive, SendTo};
ghost use Rattle.std_edges.specs.Listeners.{LetsIn};
ghost use Rattle.std_edges.specs.Numbers.{wait_nanos};
ghost use Rattle.std_edges.specs.Places.{IsAt, every_address, any_port};
ghost use Rattle.std_edges.specs.States.{socket_after, told_at_first};

use crate::link_socket::LinkSocket;
use crate::listener::Listener;
use crate::places::port_everywhere;
use std::io;
use std::marker::Model;
use std::net::{Net, SocketAddr, TcpListener, TcpStream, UdpSocket};
use std::time::Duration;

/// A UDP socket that was bound here, of which one receive waits for so long. Contracts see a `SocketState`.
#[derive(Drop)]
pub(crate) struct BoundSocket<S: LinkSocket + Drop> {
    socket: S,
    place: SocketAddr,
    wait: Duration,
}

impl<S: LinkSocket + Drop> Model for BoundSocket<S> {
    ghost use Rattle.std.specs.Duration.{as_nanos};
    ghost use Rattle.std_edges.specs.States.{SocketState};

    ghost Value = { SocketState };

    ghost view = { λ bound. record { place = bound.place; wait = as_nanos bound.wait; told = S.told bound.socket } };
}

impl<S: LinkSocket + Drop> BoundSocket<S> {
    // Hands both to the socket.
    fn new<R: Net>(rt: &R, place: SocketAddr, wait: Duration) -> io::Result<BoundSocket<S>>
        ensures { IfOk result (λ bound. bound ≡ record {
          place = place;
          wait = as_nanos wait;
          told = told_at_first S.tells (place_of place) (as_nanos wait);
        }) }
    {
        let mut socket = S::bind_at(rt, place)?;
        socket.set_wait(wait)?;
        Ok(BoundSocket {
            socket,
            place,
            wait,
        })
    }

    /// Hands a datagram over that is to go to this place.
    pub(crate) fn send(&mut self, bytes: &[u8], to: SocketAddr) -> io::Result<usize>
        ensures { self.new ≡ socket_after (SendTo (place_of to) bytes.now ∷ []) self.old }
    {
        self.socket.send_datagram(bytes, to)
    }

    /// Takes the next datagram.
    pub(crate) fn receive(&mut self, into: &mut [u8]) -> io::Result<(usize, SocketAddr)>
        ensures within { IfOk result (λ got. got.0 ≤ length into.new) }
        ensures called { self.new ≡ socket_after (Receive (came_of result into.new) ∷ []) self.old }
    {
        self.socket.receive_datagram(into)
    }

    /// Another socket, of any port at every IPv4 address, of which one receive waits as long as of this one.
    pub(crate) fn another<R: Net>(&self, rt: &R) -> io::Result<BoundSocket<S>>
        ensures wait { IfOk result (λ bound. bound.wait ≡ self.now.wait) }
        ensures told { IfOk result (λ bound. bound.told
            ≡ told_at_first S.tells (At every_address any_port) self.now.wait) }
    {
        BoundSocket::new(rt, port_everywhere(0), self.wait)
    }

    /// Another handle of it.
    pub(crate) fn other_handle(&self) -> Option<UdpSocket> {
        self.socket.other_handle()
    }
}

/// A socket of any port at every IPv4 address, of which one receive waits for so many milliseconds, and for 1 where
/// that is 0.
pub(crate) fn socket_that_waits<S: LinkSocket + Drop, R: Net>(
    rt: &R,
    milliseconds: u32,
) -> io::Result<BoundSocket<S>>
    ensures place { IfOk result (λ bound. IsAt every_address any_port bound.place) }
    ensures wait { IfOk result (λ bound. bound.wait ≡ wait_nanos milliseconds) }
    ensures told { IfOk result (λ bound. bound.told
        ≡ told_at_first S.tells (At every_address any_port) (wait_nanos milliseconds)) }
{
    BoundSocket::new(rt, port_everywhere(0), time_of(milliseconds))
}

// A time of so many milliseconds, and of 1 where that is 0: a wait of no time would be refused.
fn time_of(milliseconds: u32) -> Duration
    ensures { as_nanos result ≡ wait_nanos milliseconds }
{
    Duration::from_millis(u64::from(milliseconds.max(1)))
}

/// A TCP listener that was bound here. Contracts see a `ListenerState`.
#[derive(Drop)]
pub(crate) struct BoundListener<A: Listener + Drop> {
    listener: A,
    place: SocketAddr,
}

impl<A: Listener + Drop> Model for BoundListener<A> {
    ghost use Rattle.std_edges.specs.Listeners.{ListenerState};

    ghost Value = { ListenerState };

    ghost view = { λ bound. record { place = bound.place; told = A.told bound.listener } };
}

impl<A: Listener + Drop> BoundListener<A> {
    // Hands the place to the listener.
    fn new<R: Net<Listener = TcpListener, Stream = TcpStream>>(
        rt: &R,
        place: SocketAddr,
    ) -> io::Result<BoundListener<A>>
        ensures place { IfOk result (λ bound. bound.place ≡ place) }
        ensures told { IfOk result (λ bound. IfSome bound.told (λ seen. seen.place ≡ place_of place)) }
    {
        let listener = A::listen_at(rt, place)?;
        Ok(BoundListener { listener, place })
    }

    /// Lets the next connection in.
    pub(crate) fn let_in(&mut self) -> io::Result<A::Stream>
        ensures place { self.new.place ≡ self.old.place }
        ensures told { MatchResult result
            (λ stream. LetsIn (A.Stream.remaining stream) self.old.told self.new.told)
            (λ _. self.new.told ≡ self.old.told) }
    {
        self.listener.let_in()
    }
}

/// A listener of this port at every IPv4 address.
pub(crate) fn listener_of_port<
    A: Listener + Drop,
    R: Net<Listener = TcpListener, Stream = TcpStream>,
>(rt: &R, port: u16) -> io::Result<BoundListener<A>>
    ensures place { IfOk result (λ bound. IsAt every_address port bound.place) }
    ensures told { IfOk result (λ bound. IfSome bound.told (λ seen. seen.place ≡ At every_address port)) }
{
    BoundListener::new(rt, port_everywhere(port))
}
