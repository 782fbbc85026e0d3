//! A port that lets a connection in, and the two sides of that connection.

use crate::bytes::differing_bytes;
use ipb_outside::{Door, Failed, Sink, Source, read_all, write_whole};
use std::alloc::Global;
use std::io::{Read, Write};
use std::net::{Ipv4Addr, Shutdown, TcpListener, TcpStream};
use std::time::Duration;
use std_edges::TcpDoor;

/// How long a client of a test waits for the door, at most, in seconds.
const PATIENCE: u64 = 10;

/// The bytes of a request, which may come in many pieces.
const LONG: usize = 20_000;

/// A listener at a port that nobody else has, and the port.
fn listener(rt: &HostRuntime) -> Option<(TcpListener, u16)> {
    let listener = TcpListener::bind(rt, (Ipv4Addr::LOCALHOST, 0)).ok()?;
    let port = listener.local_addr().ok()?.port();
    Some((listener, port))
}

/// A port that nobody listens to now.
fn free_port(rt: &HostRuntime) -> Option<u16> {
    let (_, port) = listener(rt)?;
    Some(port)
}

/// Has a door listen to a port that is free, and answers the port. Where another program took the port meanwhile the
/// next one is tried.
fn listen<D: Door>(rt: &HostRuntime, door: &mut D) -> Option<u16> {
    for _ in 0..16 {
        let port = free_port(rt)?;
        if door.listen(port).is_ok() {
            return Some(port);
        }
    }
    None
}

/// A client of a port, at another address of this machine than 127.0.0.1.
fn client_of(rt: &HostRuntime, port: u16) -> Option<TcpStream> {
    let client = TcpStream::connect(rt, (Ipv4Addr::new(127, 0, 0, 2), port)).ok()?;
    client
        .set_read_timeout(Some(Duration::from_secs(PATIENCE)))
        .ok()?;
    Some(client)
}

/// Whether a client sent its request, and ended.
fn asks(client: &mut TcpStream, request: &[u8]) -> bool {
    client.write_all(request).is_ok() && client.shutdown(Shutdown::Write).is_ok()
}

/// Whether a client hears this to the end.
fn hears(alloc: Global, client: &mut TcpStream, wanted: &[u8]) -> bool {
    let mut reply = Vec::new(alloc);
    client.read_to_end(&mut reply).is_ok() && reply.as_slice() == wanted
}

/// Whether a request is answered with its own bytes, and what is written behind the end is refused.
fn answers<S: Source, O: Sink>(alloc: Global, source: &mut S, sink: &mut O) -> bool {
    match read_all(alloc, source, LONG) {
        Ok(request) => {
            let is_written = write_whole(sink, &request).is_ok();
            sink.end();
            is_written && sink.write(b"late") == Err(Failed)
        }
        Err(_) => false,
    }
}

/// Whether a door lets a client in, which hears its own request, and takes the connection back.
fn serves<D: Door>(alloc: Global, door: &mut D, client: &mut TcpStream, request: &[u8]) -> bool {
    match door.accept() {
        Ok((mut source, mut sink)) => {
            let is_right = answers(alloc, &mut source, &mut sink) && hears(alloc, client, request);
            door.keep(source, sink);
            is_right
        }
        Err(_) => false,
    }
}

/// Whether a client of a door hears its own request.
fn is_served<D: Door>(rt: &HostRuntime, door: &mut D, mut client: TcpStream) -> bool {
    let request = differing_bytes::<LONG>();
    asks(&mut client, &request) && serves(rt.alloc(), door, &mut client, &request)
}

/// A client of a door that begins to listen.
fn let_in<D: Door>(rt: &HostRuntime, door: &mut D) -> Option<TcpStream> {
    client_of(rt, listen(rt, door)?)
}

/// Whether a door begins to listen, and serves a client.
fn is_let_in<D: Door>(rt: &HostRuntime, door: &mut D) -> bool {
    match let_in(rt, door) {
        Some(client) => is_served(rt, door, client),
        None => false,
    }
}

#[test]
fn a_connection_is_let_in_read_answered_and_given_back(rt: HostRuntime) {
    let mut door = TcpDoor::new(&rt);
    assert!(rt; is_let_in(&rt, &mut door));
}

/// Whether a door does not listen to a port that is taken, and lets none in.
fn is_shut<D: Door>(rt: &HostRuntime, door: &mut D) -> bool {
    match listener(rt) {
        Some((_listener, port)) => door.listen(port) == Err(Failed) && door.accept().is_err(),
        None => false,
    }
}

#[test]
fn a_door_that_does_not_listen_lets_none_in(rt: HostRuntime) {
    let mut door = TcpDoor::new(&rt);
    assert!(rt; is_shut(&rt, &mut door));
}
