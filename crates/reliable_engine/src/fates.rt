//! What is not handed out yet: fates by place, then those of bodies that were never sent; and late answers by place.

ghost use Rattle.std.specs.Prelude.{◌≡◌, ◌≤◌, ◌<◌, ◌+◌, ℕ, List, length, map, ◌++◌, ◌∷◌, []};
ghost use Rattle.std.specs.List.{insert};
ghost use Rattle.std.specs.VecDeque.{deque_len, deque_capacity};
ghost use Rattle.world_model.specs.declared.offered.Fate.{Fate as FateValue};
ghost use Rattle.world_model.specs.Hub.{insert_fate, insert_late, goes_before, time_out, unsent_fate};
ghost use Rattle.reliable_engine.specs.Slots.{AreUpTo, EndsAt, open_from};
ghost use Rattle.reliable_engine.specs.Steps.{waits};

use crate::slots::{Flags, SLOTS, read_slot};
use ipb_base::Words;
use std::collections::VecDeque;
use world_model::{Fate, Offered, OpenPlace};

/// Whether a fate at this place stands before another.
fn goes_before(place: u64, fate: &Fate) -> bool
    ensures { result ≡ goes_before place fate.now }
{
    match fate {
        Fate::Replied { place: other, .. } => place < *other,
        Fate::TimedOut { place: other, .. } => place < *other,
        Fate::Unsent => true,
    }
}

/// Where a fate at this place is put.
fn fate_index(fates: &VecDeque<(u64, Fate)>, place: u64) -> usize
    ensures within { result ≤ deque_len fates.now }
    ensures index { (new : ℕ × FateValue) → insert_fate place new fates.now.items ≡ insert fates.now.items result new }
{
    for at in 0..fates.len() {
        let told = &fates[at];
        if goes_before(place, &told.1) {
            return at;
        }
    }
    fates.len()
}

/// Puts the fate of a place among the others, for which there is room.
pub(crate) fn put_fate(fates: &mut VecDeque<(u64, Fate)>, place: u64, tag: u64, fate: Fate)
    requires room { deque_len fates.old < deque_capacity fates.old }
    ensures items { fates.new.items ≡ insert_fate place (tag, fate) fates.old.items }
    ensures len { deque_len fates.new ≡ deque_len fates.old + 1 }
    ensures capacity { deque_capacity fates.old ≤ deque_capacity fates.new }
{
    let at = fate_index(fates, place);
    fates.insert(at, (tag, fate)).unwrap();
}

/// Where a late answer at this place is put.
fn late_index(lates: &VecDeque<(u64, Words)>, place: u64) -> usize
    ensures within { result ≤ deque_len lates.now }
    ensures index { (words : List ℕ) → insert_late (place, words) lates.now.items
        ≡ insert lates.now.items result (place, words) }
{
    for at in 0..lates.len() {
        let told = &lates[at];
        if place < told.0 {
            return at;
        }
    }
    lates.len()
}

/// Puts the late answer of a place among the others, for which there is room.
pub(crate) fn put_late(lates: &mut VecDeque<(u64, Words)>, place: u64, words: Words)
    requires room { deque_len lates.old < deque_capacity lates.old }
    ensures items { lates.new.items ≡ insert_late (place, words) lates.old.items }
    ensures len { deque_len lates.new ≡ deque_len lates.old + 1 }
    ensures capacity { deque_capacity lates.old ≤ deque_capacity lates.new }
{
    let at = late_index(lates, place);
    lates.insert(at, (place, words)).unwrap();
}

/// Gives each place that is waited for the fate of a time-out, where the open places are from `low` on and below `end`.
pub(crate) fn put_time_outs(
    fates: &mut VecDeque<(u64, Fate)>,
    sent: &[Offered],
    slots: &[Option<Flags>],
    low: u64,
    end: u64,
    rounds: u8,
)
    requires slots { length slots.now ≡ SLOTS }
    requires ends { EndsAt low end (open_from slots.now low SLOTS) }
    requires room { deque_len fates.old + waits (open_from slots.now low SLOTS) ≤ deque_capacity fates.old }
    requires places { AreUpTo (length sent.now) (open_from slots.now low SLOTS) }
    ensures items { fates.new.items ≡ time_out rounds sent.now (open_from slots.now low SLOTS) fates.old.items }
    ensures len { deque_len fates.new ≡ deque_len fates.old + waits (open_from slots.now low SLOTS) }
    ensures capacity { deque_capacity fates.old ≤ deque_capacity fates.new }
{
    for place in low..end {
        let Some(open) = read_slot(slots, place) else {
            continue;
        };
        put_time_out(fates, sent, open, rounds);
    }
}

/// Gives a place the fate of a time-out, if it is waited for.
fn put_time_out(fates: &mut VecDeque<(u64, Fate)>, sent: &[Offered], entry: OpenPlace, rounds: u8)
    requires room { deque_len fates.old + waits (entry ∷ []) ≤ deque_capacity fates.old }
    requires from_one { 1 ≤ entry.place }
    requires sent { entry.place ≤ length sent.now }
    ensures items { fates.new.items ≡ time_out rounds sent.now (entry ∷ []) fates.old.items }
    ensures len { deque_len fates.new ≡ deque_len fates.old + waits (entry ∷ []) }
    ensures capacity { deque_capacity fates.old ≤ deque_capacity fates.new }
{
    if !entry.waited {
        return;
    }
    let tag = sent[(entry.place - 1) as usize].tag;
    let place = entry.place;
    put_fate(fates, place, tag, Fate::TimedOut { place, rounds });
}

/// Gives each queued body the fate of one that was never sent.
pub(crate) fn put_unsent(fates: &mut VecDeque<(u64, Fate)>, queue: &[Offered])
    requires room { deque_len fates.old + length queue.now ≤ deque_capacity fates.old }
    ensures items { fates.new.items ≡ fates.old.items ++ map unsent_fate queue.now }
    ensures len { deque_len fates.new ≡ deque_len fates.old + length queue.now }
    ensures capacity { deque_capacity fates.old ≤ deque_capacity fates.new }
{
    for offered in queue {
        fates.push_back_reserved((offered.tag, Fate::Unsent));
    }
}
