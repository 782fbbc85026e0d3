//! For each entry that asks the first that was put before and that it overlaps, by halving the addresses.
ghost use Rattle.std.specs.Prelude.{◌≡◌, ◌↔◌, ◌+◌, ◌-◌, ◌<◌, ◌≤◌, ◌^◌, ℕ, IfOk, IsTrue, length};
ghost use Rattle.std.specs.List.{All};
ghost use Rattle.node_tree.specs.OverlapSearch.{Settles, SettlesWhere, Passes, GoesOn, IsPart, lesser_of, lowered_to};
ghost use Rattle.node_tree.specs.OverlapSearch.{HasNoneToSettle};

use super::events::Event;
use super::noting::lower;
use crate::NoMemory;
use std::alloc::Global;

/// Which events are looked at.
#[derive(Clone, Copy)]
enum Test {
    /// All events, whatever they have.
    Each,
    /// Events that have all addresses from the first to the one before the end.
    Covers { first: u64, end: u64 },
    /// Events whose masks have the bit, which is a power of 2.
    HasBit(u32),
}

/// Lowers the places of the events that ask to those of the events that were put before and that they meet in some
/// addresses: 2 to the power of `level` from `first` on.
pub(super) fn settle(
    alloc: Global,
    events: Vec<Event>,
    first: u64,
    level: u32,
    firsts: &mut [usize],
) -> Result<(), NoMemory>
    requires levels { level ≤ 32 }
    requires range { first + 2 ^ level ≤ 2 ^ 32 }
    requires places { All (λ event. event.place < length firsts.old) events.items }
    ensures { IfOk result (λ _. Settles events.items first (first + 2 ^ level) firsts.old firsts.new) }
{
    if has_none_to_settle(&events) {
        return Ok(());
    }
    if level == 0 {
        settle_bits(&events, firsts);
        return Ok(());
    }
    let half = half_of(level);
    let middle = first + half;
    let end = middle + half;
    let covers = Test::Covers { first, end };
    settle_where(&events, covers, Test::Each, firsts);
    settle_where(&events, Test::Each, covers, firsts);
    let lower = part(alloc, &events, covers, first, middle)?;
    let upper = part(alloc, &events, covers, middle, end)?;
    drop(events);
    settle(alloc, lower, first, level - 1, firsts)?;
    settle(alloc, upper, middle, level - 1, firsts)
}

/// Whether no event asks after another was put, as with those of one register: it asks, and then it is put.
fn has_none_to_settle(events: &[Event]) -> bool
    ensures { IsTrue result → HasNoneToSettle events.now }
{
    let mut is_put = false;
    for event in events {
        if event.asks && is_put {
            return false;
        }
        is_put = is_put || !event.asks;
    }
    true
}

/// How many addresses are in half of a level.
fn half_of(level: u32) -> u64
    requires some { 1 ≤ level }
    requires levels { level ≤ 32 }
    ensures { result ≡ 2 ^ (level - 1) }
{
    1 << (level - 1)
}

/// Settles events that have one address, bit by bit.
fn settle_bits(events: &[Event], firsts: &mut [usize])
    requires places { All (λ event. event.place < length firsts.old) events.now }
    ensures { (first : ℕ) → Settles events.now first (first + 1) firsts.old firsts.new }
{
    for bit in 0..32u32 {
        let test = Test::HasBit(bit_of(bit));
        settle_where(events, test, test, firsts);
    }
}

/// The mask that has one bit.
fn bit_of(bit: u32) -> u32
    requires { bit < 32 }
    ensures { result ≡ 2 ^ bit }
{
    1 << bit
}

/// Lowers the places of the events that ask, as far as they pass a test, to those of the events that were put before
/// and pass another.
fn settle_where(events: &[Event], put: Test, asking: Test, firsts: &mut [usize])
    requires places { All (λ event. event.place < length firsts.old) events.now }
    ensures { SettlesWhere events.now put asking firsts.old firsts.new }
{
    let mut least = None;
    for event in events {
        if event.asks {
            if passes(asking, event) {
                lower_to(firsts, event.place, least);
            }
        } else if passes(put, event) {
            least = Some(lesser(least, event.place));
        }
    }
}

/// The lesser of two places, of which the first may be left out.
fn lesser(least: Option<usize>, place: usize) -> usize
    ensures { result ≡ lesser_of least place }
{
    match least {
        Some(least) => least.min(place),
        None => place,
    }
}

/// Keeps the lesser of a place that is kept and another, if there is another.
fn lower_to(firsts: &mut [usize], at: usize, place: Option<usize>)
    requires { at < length firsts.old }
    ensures { firsts.new ≡ lowered_to firsts.old at place }
{
    if let Some(place) = place {
        lower(firsts, at, place);
    }
}

fn passes(test: Test, event: &Event) -> bool
    ensures { IsTrue result ↔ Passes test event.now }
{
    match test {
        Test::Each => true,
        Test::Covers { first, end } => event.first <= first && end <= event.end,
        Test::HasBit(bit) => event.mask & bit != 0,
    }
}

/// The events that do not cover all addresses at hand and that have one of those from the first to the one before the
/// end.
fn part(
    alloc: Global,
    events: &[Event],
    covers: Test,
    first: u64,
    end: u64,
) -> Result<Vec<Event>, NoMemory>
    ensures { IfOk result (λ some. IsPart (GoesOn covers first «end») events.now some.items) }
{
    let mut some = Vec::with_capacity(alloc, part_len(events, covers, first, end))?;
    for event in events {
        if goes_on(event, covers, first, end) {
            some.push(*event)?;
        }
    }
    Ok(some)
}

/// How many events these are.
fn part_len(events: &[Event], covers: Test, first: u64, end: u64) -> usize {
    let mut count = 0;
    for event in events {
        if goes_on(event, covers, first, end) {
            count += 1;
        }
    }
    count
}

fn goes_on(event: &Event, covers: Test, first: u64, end: u64) -> bool
    ensures { IsTrue result ↔ GoesOn covers first «end» event.now }
{
    !passes(covers, event) && event.first < end && first < event.end
}
