//! The open places of a window.

ghost use Rattle.std.specs.Prelude.{◌≡◌, ◌≤◌, ◌<◌, ◌+◌, ◌++◌, ◌∷◌, ◌^◌, [], length, map};
ghost use Rattle.std.specs.VecDeque.{deque_len, deque_capacity};
ghost use Rattle.world_model.specs.Hub.{abandoned_place, least, open_with, places, recover, some_waited, time_out};
ghost use Rattle.world_model.specs.Hub.{want_control};
ghost use Rattle.world_model.specs.Sends.{opened_place, first_wanted};
ghost use Rattle.world_model.specs.Facts.{AreRising};
ghost use Rattle.reliable_engine.specs.Slots.{AreUpTo};
ghost use Rattle.reliable_engine.specs.Steps.{places_after, places_wanted, sending_of, waits};

use crate::fates::put_time_outs;
use crate::slots::{
    Flags, SLOTS, abandon_slots, clear_slot, is_any_slot_waited, lowest_open, put_slot, read_slot,
    recover_slots, take_wanted_slot,
};
use packet_ids::{Id, place_of};
use std::collections::VecDeque;
use std::marker::Model;
use world_model::{Fate, Offered, OpenPlace, Sending};

/// The open places of a window, each in its slot. Contracts see them by rising place.
#[derive(Drop)]
pub(crate) struct OpenPlaces {
    slots: [Option<Flags>; SLOTS as usize],
    /// The lowest open place, or `end` where none is open. The others are less than `SLOTS` above it.
    low: u64,
    /// One past the place that was opened last, or 1 where none was opened: all open places are below it.
    end: u64,
}

impl Model for OpenPlaces {
    ghost use Rattle.std.specs.Prelude.{List};
    ghost use Rattle.world_model.specs.declared.offered.OpenPlace.{OpenPlace};

    ghost Value = { List OpenPlace };

    ghost use Rattle.reliable_engine.specs.OpenPlaces.{AreKept, open_places_of};

    ghost view = { open_places_of };

    ghost invariant = { AreKept };
}

impl OpenPlaces {
    /// A window in which no place is open.
    pub(crate) fn new() -> OpenPlaces
        ensures { result ≡ [] }
    {
        OpenPlaces {
            slots: [None; SLOTS as usize],
            low: 1,
            end: 1,
        }
    }

    /// The lowest open place, or `next` where none is open.
    pub(crate) fn low(&self, next: u64) -> u64
        ensures { result ≡ least (places self.now) next }
    {
        if self.low < self.end { self.low } else { next }
    }

    /// Opens a place above the others, less than `SLOTS` above the lowest.
    pub(crate) fn open(&mut self, place: u64)
        requires from_one { 1 ≤ place }
        requires up_to_end { place ≤ 2 ^ 62 }
        requires above { AreRising (least (places self.old) place) place (places self.old) }
        requires near { place < least (places self.old) place + SLOTS }
        ensures { self.new ≡ self.old ++ opened_place place ∷ [] }
    {
        self.low = self.low(place);
        self.end = place + 1;
        put_slot(
            &mut self.slots,
            OpenPlace {
                place,
                waited: true,
                resend: false,
                control: false,
            },
        );
    }

    /// Has the control packet of each place sent again.
    pub(crate) fn want_all(&mut self)
        ensures { self.new ≡ map want_control self.old }
    {
        self.recover_all(0); // as where the board executed none of them
    }

    /// Nobody waits for the places any more, and nothing is to be sent for them.
    pub(crate) fn abandon_all(&mut self)
        ensures { self.new ≡ map abandoned_place self.old }
    {
        abandon_slots(&mut self.slots, self.low, self.end);
    }

    /// Has each place recovered, where the board expects the packet of the place `told`.
    pub(crate) fn recover_all(&mut self, told: u64)
        ensures { self.new ≡ map (recover told) self.old }
    {
        recover_slots(&mut self.slots, self.low, self.end, told);
    }

    /// Whether the fate of one of the places is owed to somebody.
    pub(crate) fn is_any_waited(&self) -> bool
        ensures { result ≡ some_waited self.now }
    {
        is_any_slot_waited(&self.slots, self.low, self.end)
    }

    /// Takes out the place with an identifier, which tells how far above the lowest it is.
    pub(crate) fn take_open(&mut self, first: Id, id: Id) -> Option<OpenPlace>
        ensures found { result ≡ open_with first id self.old }
        ensures after { self.new ≡ places_after self.old result }
    {
        if self.low == self.end {
            return None; // none is open
        }
        let place = place_of(first, self.low, SLOTS, id)?;
        let open = read_slot(&self.slots, place)?;
        clear_slot(&mut self.slots, place);
        self.low = lowest_open(&self.slots, self.low, self.end);
        Some(open)
    }

    /// Takes the first send that is wanted for a place. Of one place the request for its reply goes before its packet.
    pub(crate) fn take_wanted(&mut self, first: Id) -> Option<Sending>
        ensures send { result ≡ sending_of (first_wanted first self.old) }
        ensures after { self.new ≡ places_wanted self.old (first_wanted first self.old) }
    {
        take_wanted_slot(&mut self.slots, self.low, self.end, first)
    }

    /// Gives each place that is waited for the fate of a time-out.
    pub(crate) fn put_time_outs(
        &self,
        fates: &mut VecDeque<(u64, Fate)>,
        sent: &[Offered],
        rounds: u8,
    )
        requires room { deque_len fates.old + waits self.now ≤ deque_capacity fates.old }
        requires places { AreUpTo (length sent.now) self.now }
        ensures items { fates.new.items ≡ time_out rounds sent.now self.now fates.old.items }
        ensures len { deque_len fates.new ≡ deque_len fates.old + waits self.now }
        ensures capacity { deque_capacity fates.old ≤ deque_capacity fates.new }
    {
        put_time_outs(fates, sent, &self.slots, self.low, self.end, rounds);
    }
}
