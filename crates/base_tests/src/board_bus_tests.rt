//! The bus of a board, and the ranges that it opens with.

use board_bus::{Bus, BusRefusal, NoMemory, Range, RangeKind, Words, check_ranges};
use std::alloc::Global;

/// How many ranges of one word there are.
const RANGES: u32 = 500_000;

/// How far each is from the one before it.
const DISTANCE: u32 = 512;

fn range(alloc: Global, base: u32, word: u32) -> Result<Range, NoMemory> {
    Ok(Range {
        base,
        size: 1,
        kind: RangeKind::Rw,
        init: Words::from_vec([word].to_vec(alloc)?),
    })
}

/// Ranges far apart, each with its place as its word.
fn far_apart(alloc: Global) -> Result<Vec<Range>, NoMemory> {
    let mut ranges = Vec::with_capacity(alloc, RANGES as usize)?;
    for i in 0..RANGES {
        ranges.push(range(alloc, DISTANCE * i, i)?)?;
    }
    Ok(ranges)
}

/// A bus of those ranges.
fn wide_bus(alloc: Global) -> Option<Bus> {
    Bus::new(alloc, &far_apart(alloc).ok()?).ok()
}

/// Whether a read of this address answers this word. The reply takes the place of what `out` holds.
fn is_read(bus: &mut Bus, address: u32, word: u32, out: &mut Vec<u32>) -> bool {
    out.clear();
    bus.execute(&[0x2000_010f, address], out).is_ok()
        && out.as_slice() == [0x2000_0100, word].as_slice()
}

/// Whether each range of a bus is read.
fn are_read(alloc: Global, bus: &mut Bus) -> bool {
    let mut out = Vec::new(alloc);
    for i in 0..RANGES {
        if !is_read(bus, DISTANCE * i, i, &mut out) {
            return false;
        }
    }
    true
}

fn is_each_read(alloc: Global) -> bool {
    match wide_bus(alloc) {
        Some(mut bus) => are_read(alloc, &mut bus),
        None => false,
    }
}

#[test]
fn each_of_many_ranges_is_read(rt: HostRuntime) {
    assert!(rt; is_each_read(rt.alloc()));
}

/// Whether the copy of a range is that range.
fn is_copied(alloc: Global, range: &Range) -> bool {
    match range.copy(alloc) {
        Ok(copy) => copy == *range,
        Err(_) => false,
    }
}

fn is_one_copied(alloc: Global) -> bool {
    match range(alloc, 8, 7) {
        Ok(range) => is_copied(alloc, &range),
        Err(_) => false,
    }
}

#[test]
fn a_range_is_copied(rt: HostRuntime) {
    assert!(rt; is_one_copied(rt.alloc()));
}

/// The bases and the sizes of two ranges, and how many words the second one opens with.
type Two = (u32, u32, u32, u32, usize);

/// Two ranges, and the first rule that they break.
const NO_BUSES: [(Two, BusRefusal); 6] = [
    ((0, 0, 0, 0, 0), BusRefusal::Empty),
    ((0, 16, u32::MAX, 2, 0), BusRefusal::PastEnd),
    ((0, 16, 15, 1, 0), BusRefusal::Overlap),
    ((15, 1, 0, 16, 17), BusRefusal::Overlap),
    ((0, 1, 1, u32::MAX, 0), BusRefusal::TooLarge),
    ((0, 16, 16, 1, 2), BusRefusal::InitLong),
];

/// A range that opens with so many zeros.
fn zeros(alloc: Global, base: u32, size: u32, count: usize) -> Option<Range> {
    Some(Range {
        base,
        size,
        kind: RangeKind::Ro,
        init: Words::from_vec([0; 17].get(..count)?.to_vec(alloc).ok()?),
    })
}

fn two_ranges(alloc: Global, two: Two) -> Option<[Range; 2]> {
    let (base, size, other, other_size, count) = two;
    let first = zeros(alloc, base, size, 0)?;
    Some([first, zeros(alloc, other, other_size, count)?])
}

/// Whether ranges are refused by this rule, and a bus of them.
fn are_refused(alloc: Global, ranges: &[Range], why: BusRefusal) -> bool {
    check_ranges(alloc, ranges).err() == Some(why) && Bus::new(alloc, ranges).err() == Some(why)
}

fn is_no_bus(alloc: Global, two: Two, why: BusRefusal) -> bool {
    match two_ranges(alloc, two) {
        Some(ranges) => are_refused(alloc, &ranges, why) && are_refused(alloc, &ranges, why),
        None => false,
    }
}

#[test]
fn ranges_are_refused_again(rt: HostRuntime) {
    for &(two, why) in &NO_BUSES {
        assert!(rt; is_no_bus(rt.alloc(), two, why));
    }
}
