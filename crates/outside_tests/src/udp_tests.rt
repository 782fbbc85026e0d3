//! A link over UDP: from whom it receives, what is quiet, too long or passes, and when a silence is told.

use crate::bytes::differing_bytes;
use std::alloc::Global;
use std::net::{IpAddr, Ipv4Addr, SocketAddr, UdpSocket};
use std::time::{Duration, Instant};
use std_edges::{Link, LinkFault, Received, SILENT_AFTER, Silence, UdpLink, is_passing};

/// How long a board of a test waits for the link, at most, in seconds.
const PATIENCE: u64 = 10;

/// A socket at an address of this machine, as that of a board or of somebody else.
fn socket_at(rt: &HostRuntime, address: Ipv4Addr, port: u16) -> Option<UdpSocket> {
    let socket = UdpSocket::bind(rt, (address, port)).ok()?;
    socket
        .set_read_timeout(Some(Duration::from_secs(PATIENCE)))
        .ok()?;
    Some(socket)
}

/// The same at 127.0.0.1 and any port.
pub(crate) fn socket(rt: &HostRuntime) -> Option<UdpSocket> {
    socket_at(rt, Ipv4Addr::LOCALHOST, 0)
}

/// The port of a socket.
pub(crate) fn port_of(socket: &UdpSocket) -> Option<u16> {
    Some(socket.local_addr().ok()?.port())
}

/// Who sent the datagram that a socket hears next, if it is this one.
pub(crate) fn hears(socket: &UdpSocket, wanted: &[u8]) -> Option<SocketAddr> {
    let mut heard = [0u8; 2000];
    let (count, from) = socket.recv_from(&mut heard).ok()?;
    if heard.get(..count)? == wanted {
        Some(from)
    } else {
        None
    }
}

pub(crate) fn sends(socket: &UdpSocket, bytes: &[u8], to: SocketAddr) -> bool {
    socket.send_to(bytes, to).is_ok()
}

/// Both ends of a link: a board, the link, and its address; and somebody else, who may send to it too.
#[derive(Drop)]
pub(crate) struct Ends {
    pub(crate) board: UdpSocket,
    pub(crate) other: UdpSocket,
    pub(crate) link: UdpLink,
    pub(crate) hub: SocketAddr,
}

/// A link to a board at this address, which waits so long, in milliseconds.
fn link_to(rt: &HostRuntime, address: Ipv4Addr, board: &UdpSocket, wait: u32) -> Option<UdpLink> {
    UdpLink::new(rt, address.octets(), port_of(board)?, wait).ok()
}

/// The address of a link, where the board hears it.
fn first_heard(board: &UdpSocket, link: &mut UdpLink) -> Option<SocketAddr> {
    link.send(b"ask").ok()?;
    hears(board, b"ask")
}

/// A board at this address, a link that it has heard once, and somebody else.
fn linked(rt: &HostRuntime, address: Ipv4Addr, board: UdpSocket, other: UdpSocket) -> Option<Ends> {
    let mut link = link_to(rt, address, &board, 50)?;
    let hub = first_heard(&board, &mut link)?;
    Some(Ends {
        board,
        other,
        link,
        hub,
    })
}

/// The same, the board and somebody else at 127.0.0.1.
pub(crate) fn linked_here(rt: &HostRuntime) -> Option<Ends> {
    let board = socket(rt)?;
    linked(rt, Ipv4Addr::LOCALHOST, board, socket(rt)?)
}

/// Whether a link receives this next.
pub(crate) fn gets(alloc: Global, link: &mut UdpLink, wanted: &[u8]) -> bool {
    let mut into = Vec::new(alloc);
    link.receive(&mut into) == Ok(Received::Got) && into.as_slice() == wanted
}

/// Whether a link receives nothing next.
pub(crate) fn is_quiet(alloc: Global, link: &mut UdpLink) -> bool {
    let mut into = Vec::new(alloc);
    link.receive(&mut into) == Ok(Received::Quiet) && into.is_empty()
}

/// Whether a link receives this where the board sends these bytes to that address.
fn is_received(
    alloc: Global,
    ends: &mut Ends,
    bytes: &[u8],
    to: SocketAddr,
    wanted: &[u8],
) -> bool {
    sends(&ends.board, bytes, to) && gets(alloc, &mut ends.link, wanted)
}

/// Whether the reply of the board to this address is heard, and nothing else.
fn is_heard_alone(alloc: Global, ends: &mut Ends, to: SocketAddr) -> bool {
    is_received(alloc, ends, b"reply", to, b"reply") && is_quiet(alloc, &mut ends.link)
}

/// What is tried over a link.
#[derive(Clone, Copy)]
enum Trial {
    EachByte,
    MuchNoise,
    LongDatagrams,
}

/// Whether a trial of a link comes out as it should.
fn passes(alloc: Global, ends: &mut Ends, trial: Trial) -> bool {
    match trial {
        Trial::EachByte => are_carried(alloc, ends),
        Trial::MuchNoise => is_heard_behind(alloc, ends, 63) && is_heard_behind(alloc, ends, 64),
        Trial::LongDatagrams => is_cut_at_9000(alloc, ends, 9000)
            && is_cut_at_9000(alloc, ends, 9001),
    }
}

/// The same of a link to a board at 127.0.0.1.
fn passes_here(rt: &HostRuntime, trial: Trial) -> bool {
    match linked_here(rt) {
        Some(mut ends) => passes(rt.alloc(), &mut ends, trial),
        None => false,
    }
}

/// The IPv4 address of a socket.
fn address_of(socket: &UdpSocket) -> Option<Ipv4Addr> {
    match socket.local_addr().ok()?.ip() {
        IpAddr::V4(address) => Some(address),
        IpAddr::V6(_) => None,
    }
}

/// The address of a socket that reaches another machine, where there is such a route. Nothing is sent.
fn routed_address(socket: &UdpSocket) -> Option<Ipv4Addr> {
    socket.connect((Ipv4Addr::new(192, 0, 2, 1), 9)).ok()?;
    address_of(socket)
}

/// Another address of this machine than 127.0.0.1.
fn second_address() -> Ipv4Addr {
    Ipv4Addr::new(127, 0, 0, 2)
}

/// The IPv4 address by which this machine would reach another, where it has such a route, and else 127.0.0.2.
fn own_address(rt: &HostRuntime) -> Ipv4Addr {
    match socket_at(rt, Ipv4Addr::UNSPECIFIED, 0) {
        Some(socket) => routed_address(&socket).unwrap_or(second_address()),
        None => second_address(),
    }
}

/// A board at this address, and whoever has its port at another address.
fn neighbours(rt: &HostRuntime, address: Ipv4Addr) -> Option<Ends> {
    let board = socket_at(rt, address, 0)?;
    let other = socket_at(rt, Ipv4Addr::new(127, 0, 0, 3), port_of(&board)?)?;
    linked(rt, address, board, other)
}

/// Whether the reply to this address of this machine is heard alone, where somebody else may send before it.
fn is_heard_at(alloc: Global, ends: &mut Ends, address: Ipv4Addr) -> bool {
    let to = SocketAddr::new(IpAddr::V4(address), ends.hub.port());
    let _ = sends(&ends.other, b"noise", ends.hub);
    is_heard_alone(alloc, ends, to)
}

/// Whether a board at this address is heard, also where it answers to another address of this machine than the link
/// sent from, and whoever has its port at another address is not.
fn is_told_by_address(rt: &HostRuntime, address: Ipv4Addr) -> bool {
    match neighbours(rt, address) {
        Some(mut ends) => is_heard_at(rt.alloc(), &mut ends, address),
        None => false,
    }
}

#[test]
fn boards_are_told_by_their_addresses(rt: HostRuntime) {
    for &address in &[second_address(), own_address(&rt)] {
        assert!(rt; is_told_by_address(&rt, address));
    }
}

/// Whether bytes go to the board, and come from it, as they are.
fn are_carried(alloc: Global, ends: &mut Ends) -> bool {
    let bytes = differing_bytes::<1400>();
    let hub = ends.hub;
    ends.link.send(&bytes) == Ok(())
        && hears(&ends.board, &bytes).is_some()
        && is_received(alloc, ends, &bytes, hub, &bytes)
}

/// A datagram of 1400 bytes goes to the board as it is, and one comes from it as it is.
#[test]
fn each_byte_of_a_datagram_is_carried(rt: HostRuntime) {
    assert!(rt; passes_here(&rt, Trial::EachByte));
}

/// Whether a link does not send, and not when it is asked again.
fn fails_to_send(link: &mut UdpLink) -> bool {
    for _ in 0..2 {
        if link.send(b"ask") != Err(LinkFault::Failed) {
            return false;
        }
    }
    true
}

fn is_port_0_refused(rt: &HostRuntime) -> bool {
    match UdpLink::new(rt, [127, 0, 0, 1], 0, 1) {
        Ok(mut link) => fails_to_send(&mut link),
        Err(_) => false,
    }
}

/// The machine refuses the port 0 whatever its routes are, so the link fails: the hub stops the lane of such a board.
#[test]
fn a_link_that_cannot_send_fails(rt: HostRuntime) {
    assert!(rt; is_port_0_refused(&rt));
}

/// How many milliseconds a quiet receive takes.
fn quiet_time(rt: &HostRuntime, link: &mut UdpLink) -> Option<u128> {
    let start = Instant::now(rt).ok()?;
    if !is_quiet(rt.alloc(), link) {
        return None;
    }
    Some(start.elapsed(rt).ok()?.as_millis())
}

/// How many milliseconds a receive of 200 milliseconds takes.
fn time_of_200(rt: &HostRuntime) -> Option<u128> {
    let board = socket(rt)?;
    quiet_time(rt, &mut link_to(rt, Ipv4Addr::LOCALHOST, &board, 200)?)
}

/// A receive of 200 milliseconds takes these, less a tick of the machine's clock, and not ten times as long.
#[test]
fn a_quiet_receive_takes_its_wait(rt: HostRuntime) {
    let took = time_of_200(&rt).unwrap_or(0);
    assert!(rt; 190 <= took && took < 1500, "{took}");
}

/// Whether so many datagrams are sent.
fn are_sent(other: &UdpSocket, count: u32, to: SocketAddr) -> bool {
    for _ in 0..count {
        if !sends(other, b"noise", to) {
            return false;
        }
    }
    true
}

/// Whether the reply behind so many datagrams from elsewhere is heard, and behind 64 of them after a quiet receive.
fn is_heard_behind(alloc: Global, ends: &mut Ends, count: u32) -> bool {
    are_sent(&ends.other, count, ends.hub)
        && sends(&ends.board, b"reply", ends.hub)
        && (count < 64 || is_quiet(alloc, &mut ends.link))
        && gets(alloc, &mut ends.link, b"reply")
}

#[test]
fn a_receive_ends_after_64_datagrams_from_elsewhere(rt: HostRuntime) {
    assert!(rt; passes_here(&rt, Trial::MuchNoise));
}

/// Whether 9000 bytes are taken of so many.
fn is_cut_at_9000(alloc: Global, ends: &mut Ends, length: usize) -> bool {
    let hub = ends.hub;
    match [7u8; 9001].get(..length) {
        Some(bytes) => is_received(alloc, ends, bytes, hub, &[7u8; 9000]),
        None => false,
    }
}

#[test]
fn the_first_9000_bytes_of_a_longer_datagram_are_taken(rt: HostRuntime) {
    assert!(rt; passes_here(&rt, Trial::LongDatagrams));
}

/// A link to a board that is not there any more.
fn link_to_nobody(rt: &HostRuntime) -> Option<UdpLink> {
    let board = socket(rt)?;
    link_to(rt, Ipv4Addr::LOCALHOST, &board, 0)
}

/// Whether a link sends, and receives nothing, three times.
fn stays_quiet(alloc: Global, link: &mut UdpLink) -> bool {
    for _ in 0..3 {
        if link.send(b"ask") != Ok(()) || !is_quiet(alloc, link) {
            return false;
        }
    }
    true
}

fn is_nobody_quiet(rt: &HostRuntime) -> bool {
    match link_to_nobody(rt) {
        Some(mut link) => stays_quiet(rt.alloc(), &mut link),
        None => false,
    }
}

#[test]
fn a_board_that_is_not_there_is_quiet(rt: HostRuntime) {
    assert!(rt; is_nobody_quiet(&rt));
}

/// Numbers of errors, and whether they pass.
const ERRORS: [(u32, bool); 5] = [
    (101, true),
    (105, true),
    (1, true),
    (22, false),
    (90, false),
];

#[test]
fn errors_that_pass(rt: HostRuntime) {
    for &(number, passes) in &ERRORS {
        assert!(rt; is_passing(number) == passes);
    }
}

/// Whether a silence is told at its place, and not before or after.
fn is_told_once(silence: &mut Silence) -> bool {
    for count in 1..=2 * SILENT_AFTER {
        if silence.quiet() != (count == SILENT_AFTER) {
            return false;
        }
    }
    true
}

#[test]
fn a_silence_is_told_once(rt: HostRuntime) {
    let mut silence = Silence::new();
    assert!(rt; is_told_once(&mut silence) && silence.ended() && !silence.ended());
}
