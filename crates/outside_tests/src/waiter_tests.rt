//! What waits beside a link over UDP: what it finds, what it leaves for the link, and what a send makes of a silence.

use crate::udp_tests::{Ends, gets, is_quiet, linked_here, sends};
use std::alloc::Global;
use std_edges::Link;

/// Whether a datagram of the board is found and left to the link, behind one from elsewhere, which is dropped.
fn finds_an_arrival(alloc: Global, ends: &mut Ends) -> Option<bool> {
    let waiter = ends.link.waiter(alloc)?;
    let is_sent = sends(&ends.other, b"noise", ends.hub) && sends(&ends.board, b"reply", ends.hub);
    let is_found = waiter.wait() && waiter.is_ready();
    let is_left = gets(alloc, &mut ends.link, b"reply");
    Some(is_sent && is_found && is_left && !waiter.is_ready())
}

/// Whether a quiet wait is found, and spares the link's receive its own wait once.
fn finds_a_silence(alloc: Global, ends: &mut Ends) -> Option<bool> {
    let waiter = ends.link.waiter(alloc)?;
    let is_found = waiter.wait() && waiter.is_ready();
    let is_used_up = is_quiet(alloc, &mut ends.link) && !waiter.is_ready();
    Some(is_found && is_used_up)
}

/// Whether a send behind a quiet wait makes that too short: the link may not rest on it.
fn a_send_breaks_a_silence(alloc: Global, ends: &mut Ends) -> Option<bool> {
    let waiter = ends.link.waiter(alloc)?;
    let is_found = waiter.wait();
    let is_sent = ends.link.send(b"ask") == Ok(());
    Some(is_found && is_sent && !waiter.is_ready())
}

fn is_waited_for(rt: &HostRuntime) -> Option<bool> {
    let alloc: Global = rt.alloc();
    let mut ends = linked_here(rt)?;
    let is_all = finds_an_arrival(alloc, &mut ends)?
        && finds_a_silence(alloc, &mut ends)?
        && a_send_breaks_a_silence(alloc, &mut ends)?;
    Some(is_all)
}

#[test]
fn a_waiter_finds_arrivals_and_silences(rt: HostRuntime) {
    assert!(rt; is_waited_for(&rt) == Some(true));
}
