//! What a link and a rack whose answers are given beforehand refuse.

use crate::datagram_tests::padded;
use board_specs::{BoardSpec, Fates, LinkSpec, Ranges};
use ipb_base::{NoMemory, Text};
use links::RackFault;
use lossy_network::{ScriptRack, are_datagrams};
use packet_ids::Id;
use std::alloc::Global;
use std::slice;
use std::test::Fail;

/// A simulated board without registers.
fn simulated(alloc: Global) -> Result<BoardSpec, Fail> {
    let first = Id::new(1).ok_or("0 is no identifier")?;
    Ok(BoardSpec {
        name: Text::copy_of(alloc, "b0")?,
        table: Text::copy_of(alloc, "main")?,
        link: LinkSpec::Sim {
            mtu: 1500,
            buffers: 4,
            first,
            ranges: Ranges::from_vec(Vec::new(alloc)),
            fates: Fates::Noise(7),
        },
    })
}

/// Whether a rack refuses a board, and refuses it again.
fn refuses(rack: &mut ScriptRack, spec: &BoardSpec) -> bool {
    for _ in 0..2 {
        if rack.make(spec).err() != Some(RackFault::Failed) {
            return false;
        }
    }
    true
}

#[test]
fn simulated_boards_are_refused_again(rt: HostRuntime) -> Result<(), Fail> {
    let spec = simulated(rt.alloc())?;
    let mut rack = ScriptRack::new(rt.alloc(), Vec::new(rt.alloc()));
    assert!(rt; refuses(&mut rack, &spec));
    Ok(())
}

/// Whether a list of one answer of so many bytes is one of datagrams, asked twice.
fn is_datagram(alloc: Global, length: usize) -> Result<(bool, bool), NoMemory> {
    let answer = padded(alloc, b"", length)?;
    let list = slice::from_ref(&answer);
    Ok((are_datagrams(list), are_datagrams(list)))
}

#[test]
fn answers_longer_than_a_datagram_are_refused_again(rt: HostRuntime) {
    for (length, is_one) in [(9000, true), (9001, false)] {
        assert!(rt; is_datagram(rt.alloc(), length) == Ok((is_one, is_one)));
    }
}
