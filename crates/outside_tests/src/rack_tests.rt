//! A rack that makes links over UDP. The program runs it with simulated boards too.

ghost use Rattle.std.specs.Prelude.{◌≤◌, length, IfOk};
ghost use Rattle.links.specs.declared.link.TheConstants.{MAX_DATAGRAM};
ghost use Rattle.links.specs.Racks.{IsMakeable};

use crate::udp_tests::{hears, port_of, socket};
use board_specs::{BoardSpec, LinkSpec};
use ipb_base::{NoMemory, Text};
use net_edges::{Link, LinkFault, Rack, RackFault, RealRack, Received};
use std::alloc::Global;
use std::net::{Net, UdpSocket};

/// The request for a board's status, and the first word of its reply.
const STATUS_HEADER: [u8; 4] = [0x20, 0, 0, 0xf1];

/// What a session says of a board of this machine behind a UDP port.
fn on_network(alloc: Global, port: u16) -> Result<BoardSpec, NoMemory>
    ensures { IfOk result (λ spec. IsMakeable spec.link) }
{
    Ok(BoardSpec {
        name: Text::copy_of(alloc, "b0")?,
        table: Text::copy_of(alloc, "main")?,
        link: LinkSpec::Udp {
            address: [127, 0, 0, 1],
            port,
            wait: 50,
        },
    })
}

/// A request for the status: its header and 15 zero words.
fn status_request() -> [u8; 64] {
    let mut request = [0u8; 64];
    request[..4].copy_from_slice(&STATUS_HEADER);
    request
}

/// Whether a board that is asked for its status over a link that the rack of the real outside makes is quiet. The link is
/// given back.
fn ask_and_keep<N: Net + AllocGlobal + Drop>(
    alloc: Global,
    rack: &mut RealRack<N>,
    spec: &BoardSpec,
) -> Result<bool, RackFault>
    requires { IsMakeable spec.now.link }
    ensures { rack.old.faults ≤ rack.new.faults }
{
    let mut link = rack.make(spec)?;
    let is_quiet = ask(alloc, &mut link, &status_request()) == Ok(Received::Quiet);
    rack.keep(link);
    Ok(is_quiet)
}

/// Sends a datagram over any link and waits for one.
fn ask<L: Link>(alloc: Global, link: &mut L, bytes: &[u8]) -> Result<Received, LinkFault>
    requires { length bytes.now ≤ MAX_DATAGRAM }
{
    link.send(bytes)?;
    link.receive(&mut Vec::new(alloc))
}

/// Whether a board behind this port is asked, and is quiet.
fn is_quiet<N: Net + AllocGlobal + Drop>(alloc: Global, rack: &mut RealRack<N>, port: u16) -> bool {
    match on_network(alloc, port) {
        Ok(spec) => ask_and_keep(alloc, rack, &spec) == Ok(true),
        Err(_) => false,
    }
}

/// Whether a board is asked for its status.
fn is_asked(rt: &HostRuntime, board: &UdpSocket) -> bool {
    match port_of(board) {
        Some(port) => {
            is_quiet(rt.alloc(), &mut RealRack::new(rt), port)
                && hears(board, &status_request()).is_some()
        }
        None => false,
    }
}

fn is_link_made(rt: &HostRuntime) -> bool {
    match socket(rt) {
        Some(board) => is_asked(rt, &board),
        None => false,
    }
}

#[test]
fn a_rack_makes_links_over_udp(rt: HostRuntime) {
    assert!(rt; is_link_made(&rt));
}

/// Whether a rack makes a link to a board, and counts a fault in place of a second one to its address.
fn is_linked_once<N: Net + AllocGlobal + Drop>(
    alloc: Global,
    rack: &mut RealRack<N>,
    port: u16,
) -> bool {
    match (on_network(alloc, port), on_network(alloc, port)) {
        (Ok(one), Ok(other)) => {
            rack.make(&one).is_ok() && matches!(rack.make(&other), Err(RackFault::Failed))
        }
        _ => false,
    }
}

/// Boards have one address where both the IPv4 address and the port are one.
#[test]
fn a_rack_makes_one_link_to_an_address(rt: HostRuntime) {
    let alloc: Global = rt.alloc();
    let mut rack = RealRack::new(&rt);
    assert!(rt; is_linked_once(alloc, &mut rack, 50_001));
    assert!(rt; is_linked_once(alloc, &mut rack, 50_002));
}
