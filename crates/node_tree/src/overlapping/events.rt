//! The order in which registers are put among the earlier ones, and ask for the first of them that they overlap.
ghost use Rattle.std.specs.Prelude.{◌≡◌, ◌+◌, ◌<◌, ◌^◌, IfOk, length, nat_eq, string_bytes};
ghost use Rattle.std.specs.List.{starts_with};
ghost use Rattle.node_tree.specs.Named.{named_entries, AreInOrder};
ghost use Rattle.node_tree.specs.OverlapSearch.{AreAllEvents, IsTimeline, Grows, AddsAt, BeginsWith, event_at};

use super::noting::note_each;
use super::{Entry, takes_words};
use crate::NoMemory;
use crate::walking::words_of;
use std::alloc::Global;

/// A register that is put among the earlier ones, or that asks for the first of them that it overlaps. It has the
/// addresses from the first to the one before the end.
#[derive(Clone, Copy)]
pub(super) struct Event {
    pub asks: bool,
    pub place: usize,
    pub first: u64,
    pub end: u64,
    pub mask: u32,
}

/// The events of entries in byte order of their names. An entry is put among the earlier ones as soon as a name comes
/// that does not begin with its name, since no later name does. Until then it is compared with each entry that comes.
pub(super) fn events_of(
    alloc: Global,
    entries: &[Entry],
    firsts: &mut [usize],
) -> Result<Vec<Event>, NoMemory>
    requires lengths { length firsts.old ≡ length entries.now }
    requires in_order { AreInOrder entries.now }
    ensures { IfOk result (λ events. AreAllEvents (named_entries entries.now) firsts.old firsts.new events.items) }
{
    let mut events = Vec::with_capacity(alloc, entries.len().saturating_mul(2))?;
    let mut open_places = Vec::new(alloc);
    for place in 0..entries.len() {
        close(entries, place, &mut open_places, &mut events)?;
        note_each(entries, &open_places, place, firsts);
        push_event(&mut events, entries, place, true)?;
        open_places.push(place)?;
    }
    Ok(events)
}

/// Puts those of the open entries among the earlier ones whose names are no beginning of this entry's name.
fn close(
    entries: &[Entry],
    place: usize,
    open_places: &mut Vec<usize>,
    events: &mut Vec<Event>,
) -> Result<(), NoMemory>
    requires in_order { AreInOrder entries.now }
    requires within { place < length entries.now }
    requires timeline { IsTimeline (named_entries entries.now) place open_places.old.items events.old.items }
    ensures timeline { IfOk result (λ _. IsTimeline (named_entries entries.now) place open_places.new.items events.new.items) }
    ensures grows { IfOk result (λ _. Grows events.old.items events.new.items) }
{
    while let Some(earlier) = open_places.pop() {
        if begins_with(entries, place, earlier) {
            open_places.push(earlier)?;
            return Ok(());
        }
        push_event(events, entries, earlier, false)?;
    }
    Ok(())
}

/// Whether the name of an entry begins with that of an earlier one.
fn begins_with(entries: &[Entry], later: usize, earlier: usize) -> bool
    requires before { earlier < later }
    requires within { later < length entries.now }
    ensures { BeginsWith (named_entries entries.now) later earlier result }
{
    name_begins_with(&entries[later], &entries[earlier])
}

fn name_begins_with(entry: &Entry, earlier: &Entry) -> bool
    ensures { result ≡ starts_with nat_eq (string_bytes entry.now.0) (string_bytes earlier.now.0) }
{
    entry.0.as_bytes().starts_with(earlier.0.as_bytes())
}

/// Adds the event of an entry, unless it is hierarchical.
fn push_event(
    events: &mut Vec<Event>,
    entries: &[Entry],
    place: usize,
    asks: bool,
) -> Result<(), NoMemory>
    requires { place < length entries.now }
    ensures { IfOk result (λ _. AddsAt (named_entries entries.now) place asks events.old.items events.new.items) }
{
    let entry = &entries[place];
    let event = event_of(entry, place, asks);
    if takes_words(entry.1.mode) {
        events.push(event)?;
    }
    Ok(())
}

fn event_of(entry: &Entry, place: usize, asks: bool) -> Event
    ensures event { result ≡ event_at entry.now.1 place asks }
    ensures word { entry.now.1.mask < 2 ^ 32 }
{
    let first = entry.1.address as u64;
    Event {
        asks,
        place,
        first,
        end: first + words_of(entry.1.mode, entry.1.size) as u64,
        mask: mask_of(entry),
    }
}

fn mask_of(entry: &Entry) -> u32
    ensures { result ≡ entry.now.1.mask }
{
    entry.1.mask
}
