//! What listens at a port, and the streams of the connections that it lets in.

ghost use Rattle.std.specs.Prelude.{◌≡◌, IfOk, IfSome, MatchResult, None, Option};
ghost use Rattle.links.specs.Sockets.{place_of};
ghost use Rattle.std_edges.specs.Listeners.{LetsIn, Listening};

use crate::tcp::EndWriting;
use std::io::{self, Read};
use std::net::{Net, SocketAddr, TcpListener, TcpStream};

/// The stream of a connection, of which there may be a second handle.
pub trait ClientStream: Read + EndWriting {
    /// Another handle of it: what comes from its client is one for both.
    fn other_handle(&self) -> io::Result<Self>
    where
        Self: Sized,
        ensures { IfOk result (λ other. Self.remaining other ≡ Self.remaining self.now) };

    /// What is written is sent at once, where the machine does so.
    fn send_at_once(&self);
}

/// What lets connections in at a port of this machine. It may tell where it listens and which connections come, as one of
/// a test does. One of std tells nothing.
pub trait Listener {
    /// The streams of its connections.
    type Stream: ClientStream + Drop;

    /// What it tells, where it tells anything.
    ghost told: { Self → Option Listening };

    /// A listener at this place.
    fn listen_at<R: Net<Listener = TcpListener, Stream = TcpStream>>(
        rt: &R,
        place: SocketAddr,
    ) -> io::Result<Self>
    where
        Self: Sized,
        ensures { IfOk result (λ listener. IfSome (told listener) (λ seen. seen.place ≡ place_of place)) };

    /// Lets the next connection in, and waits for it as long as that takes.
    fn let_in(&mut self) -> io::Result<Self::Stream>
        ensures { MatchResult result
            (λ stream. LetsIn (Self.Stream.remaining stream) (told self.old) (told self.new))
            (λ _. told self.new ≡ told self.old) };
}

// What follows is what no contract sees: the calls of std.

impl ClientStream for TcpStream {
    fn other_handle(&self) -> io::Result<TcpStream> {
        self.try_clone()
    }

    fn send_at_once(&self) {
        let _ = self.set_nodelay(true);
    }
}

impl Listener for TcpListener {
    type Stream = TcpStream;

    ghost told = { λ _. None };

    fn listen_at<R: Net<Listener = TcpListener, Stream = TcpStream>>(
        rt: &R,
        place: SocketAddr,
    ) -> io::Result<TcpListener> {
        TcpListener::bind(rt, place)
    }

    fn let_in(&mut self) -> io::Result<TcpStream> {
        let (stream, _) = self.accept()?;
        Ok(stream)
    }
}
