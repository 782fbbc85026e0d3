//! The slots of places: place `p` stands in slot `p % SLOTS`, so any `SLOTS` places in a row have a slot each.

ghost use Rattle.std.specs.Prelude.{◌≡◌, ◌≤◌, ◌+◌, ◌%◌, ◌^◌, length, map, None, Some};
ghost use Rattle.world_model.specs.Hub.{abandoned_place, least, places, recover, some_waited};
ghost use Rattle.world_model.specs.Sends.{first_wanted};
ghost use Rattle.reliable_engine.specs.Slots.{EndsAt, IsPut, with_changed_place, open_at, open_from};
ghost use Rattle.reliable_engine.specs.Steps.{places_wanted, sending_of};

use packet_ids::{Id, id_at};
use world_model::{MAX_WINDOW, OpenPlace, Sending};

/// How many slots there are: as many as places are in the greatest window.
pub(crate) const SLOTS: u64 = MAX_WINDOW as u64;

/// The flags of an open place.
#[derive(Clone, Copy)]
pub(crate) struct Flags {
    /// Whether its fate is still owed to whoever offered it.
    pub(crate) waited: bool,
    /// Whether a re-send request for it is to be sent.
    pub(crate) resend: bool,
    /// Whether its control packet is to be sent again.
    pub(crate) control: bool,
}

/// The slot of a place.
fn slot_of(place: u64) -> usize
    ensures { result ≡ place % SLOTS }
{
    (place % SLOTS) as usize
}

/// The open place that stands in the slot of this place, if one does.
pub(crate) fn read_slot(slots: &[Option<Flags>], place: u64) -> Option<OpenPlace>
    requires { length slots.now ≡ SLOTS }
    ensures { result ≡ open_at slots.now place }
{
    match slots[slot_of(place)] {
        Some(flags) => Some(OpenPlace {
            place,
            waited: flags.waited,
            resend: flags.resend,
            control: flags.control,
        }),
        None => None,
    }
}

/// Puts an open place into its slot.
pub(crate) fn put_slot(slots: &mut [Option<Flags>], entry: OpenPlace)
    requires { length slots.old ≡ SLOTS }
    ensures { IsPut entry.place (Some entry) slots.old slots.new }
{
    slots[slot_of(entry.place)] = Some(Flags {
        waited: entry.waited,
        resend: entry.resend,
        control: entry.control,
    });
}

/// Clears the slot of a place.
pub(crate) fn clear_slot(slots: &mut [Option<Flags>], place: u64)
    requires { length slots.old ≡ SLOTS }
    ensures { IsPut place None slots.old slots.new }
{
    slots[slot_of(place)] = None;
}

/// The lowest open place of those from `low` on and below `end`, or `end` where none is open.
pub(crate) fn lowest_open(slots: &[Option<Flags>], low: u64, end: u64) -> u64
    requires slots { length slots.now ≡ SLOTS }
    requires ends { EndsAt low end (open_from slots.now low SLOTS) }
    ensures lowest { result ≡ least (places (open_from slots.now low SLOTS)) end }
    ensures same { open_from slots.now result SLOTS ≡ open_from slots.now low SLOTS }
{
    for place in low..end {
        if let Some(open) = read_slot(slots, place) {
            return open.place;
        }
    }
    end
}

/// Nobody waits for the places any more, and nothing is to be sent for them.
pub(crate) fn abandon_slots(slots: &mut [Option<Flags>], low: u64, end: u64)
    requires slots { length slots.old ≡ SLOTS }
    requires ends { EndsAt low end (open_from slots.old low SLOTS) }
    ensures { open_from slots.new low SLOTS ≡ map abandoned_place (open_from slots.old low SLOTS) }
{
    for place in low..end {
        abandon_slot(slots, place);
    }
}

/// Nobody waits for a place any more, if it is open.
fn abandon_slot(slots: &mut [Option<Flags>], place: u64)
    requires { length slots.old ≡ SLOTS }
    ensures { IsPut place (with_changed_place abandoned_place (open_at slots.old place)) slots.old slots.new }
{
    if read_slot(slots, place).is_some() {
        put_slot(
            slots,
            OpenPlace {
                place,
                waited: false,
                resend: false,
                control: false,
            },
        );
    }
}

/// Has each place recovered, where the board expects the packet of the place `told`.
pub(crate) fn recover_slots(slots: &mut [Option<Flags>], low: u64, end: u64, told: u64)
    requires slots { length slots.old ≡ SLOTS }
    requires ends { EndsAt low end (open_from slots.old low SLOTS) }
    ensures { open_from slots.new low SLOTS ≡ map (recover told) (open_from slots.old low SLOTS) }
{
    for place in low..end {
        recover_slot(slots, place, told);
    }
}

/// Has a place recovered, if it is open.
fn recover_slot(slots: &mut [Option<Flags>], place: u64, told: u64)
    requires { length slots.old ≡ SLOTS }
    ensures { IsPut place (with_changed_place (recover told) (open_at slots.old place)) slots.old slots.new }
{
    if let Some(open) = read_slot(slots, place) {
        put_slot(slots, recovered(open, told));
    }
}

/// The board executed the packets of the places below `told`: their replies are asked for. The others are sent again.
fn recovered(entry: OpenPlace, told: u64) -> OpenPlace
    ensures { result ≡ recover told entry }
{
    if entry.place < told {
        OpenPlace {
            resend: true,
            ..entry
        }
    } else {
        OpenPlace {
            control: true,
            ..entry
        }
    }
}

/// Whether the fate of one of the places is owed to somebody.
pub(crate) fn is_any_slot_waited(slots: &[Option<Flags>], low: u64, end: u64) -> bool
    requires slots { length slots.now ≡ SLOTS }
    requires ends { EndsAt low end (open_from slots.now low SLOTS) }
    ensures { result ≡ some_waited (open_from slots.now low SLOTS) }
{
    for place in low..end {
        let Some(open) = read_slot(slots, place) else {
            continue;
        };
        if open.waited {
            return true;
        }
    }
    false
}

/// Takes the first send that is wanted for a place. Of one place the request for its reply goes before its packet.
pub(crate) fn take_wanted_slot(
    slots: &mut [Option<Flags>],
    low: u64,
    end: u64,
    first: Id,
) -> Option<Sending>
    requires slots { length slots.old ≡ SLOTS }
    requires from_one { 1 ≤ low }
    requires few { end ≤ 2 ^ 62 + 1 }
    requires ends { EndsAt low end (open_from slots.old low SLOTS) }
    ensures send { result ≡ sending_of (first_wanted first (open_from slots.old low SLOTS)) }
    ensures after { open_from slots.new low SLOTS
        ≡ places_wanted (open_from slots.old low SLOTS) (first_wanted first (open_from slots.old low SLOTS)) }
{
    for place in low..end {
        let Some(open) = read_slot(slots, place) else {
            continue;
        };
        if open.resend {
            put_slot(
                slots,
                OpenPlace {
                    resend: false,
                    ..open
                },
            );
            return Some(Sending::Resend {
                id: id_at(first, place),
            });
        }
        if open.control {
            put_slot(
                slots,
                OpenPlace {
                    control: false,
                    ..open
                },
            );
            return Some(Sending::Control {
                place,
                id: id_at(first, place),
            });
        }
    }
    None
}
