//! The seats of connections, from their making to their being taken in.

ghost use Rattle.std.specs.Prelude.{◌≡◌, ◌≤◌, ◌+◌, ℕ, [], length, OnOk};
ghost use Rattle.std.specs.List.{AllByRecursion};
ghost use Rattle.std.specs.Vec.{vec_capacity};
ghost use Rattle.std.specs.Vec.Iter.{into_iter_items};
ghost use Rattle.hub_multiplexer.specs.Ends.{HasTakenIn};
ghost use Rattle.hub_multiplexer.specs.Seats.{IsMasterOf};
ghost use Rattle.session_serve.specs.Seats.{AreOfClientsFrom, AreTakenIn, IsBack, IsFresh, IsOpen, with_seats};

use hub_multiplexer::{Hub, Master, Seat};
use ipb_base::NoMemory;
use links::Link;
use std::alloc::Global;
use std::marker::Send;
use std::vec::IntoIter;

/// A seat for each connection, in order, of a master who made none yet. Where memory runs out there are seats for the
/// first of them.
pub(crate) fn seat_all<L: Link + Send>(
    alloc: Global,
    hub: &Hub<L>,
    master: &mut Master,
    count: u32,
    seats: &mut Vec<Seat>,
) -> Result<(), NoMemory>
    requires hub { IsMasterOf hub.now master.old }
    requires none { master.old.seats ≡ 0 }
    requires opens { AllByRecursion IsOpen master.old.knows }
    requires empty { seats.old.items ≡ [] }
    requires room { count ≤ vec_capacity seats.old }
    ensures fresh { AllByRecursion (IsFresh hub.now.turns) seats.new.items }
    ensures clients { AreOfClientsFrom 1 seats.new.items }
    ensures all { OnOk result (length seats.new.items ≡ count) }
    ensures made { master.new ≡ with_seats master.old (length seats.new.items) }
    ensures taken_in { (n : ℕ) → HasTakenIn n master.old → HasTakenIn n master.new }
{
    for _ in 0..count {
        let seat = master.seat(alloc, hub)?;
        seat.is_of_its_client();
        seats.push_reserved(seat);
    }
    Ok(())
}

/// Takes seats in, in order.
pub(crate) fn join_all<L: Link + Send>(hub: &Hub<L>, master: &mut Master, seats: IntoIter<Seat>)
    requires hub { IsMasterOf hub.now master.old }
    requires known { length master.old.knows ≡ length hub.now.turns }
    requires back { AllByRecursion (IsBack hub.now.turns) (into_iter_items seats) }
    ensures joined { AreTakenIn master.old master.new (into_iter_items seats) }
    ensures taken_in { (client : ℕ) → AreOfClientsFrom client (into_iter_items seats)
        → HasTakenIn client master.old → HasTakenIn (client + length (into_iter_items seats)) master.new }
{
    for seat in seats {
        master.join(hub, seat);
    }
}
