//! Connections at a hub of all lanes.

ghost use Rattle.std.specs.Prelude.{◌≡◌, ◌≢◌, ◌≤◌, ◌+◌, ℕ, [], length, true, false, Err, IfOk, IsOk, OnOk};
ghost use Rattle.std.specs.List.{AllByRecursion};
ghost use Rattle.std.specs.Vec.{vec_capacity};
ghost use Rattle.ipb_outside.specs.Faults.{RisesExactlyIf};
ghost use Rattle.ipb_outside.specs.Doors.{Listens};
ghost use Rattle.ipb_outside.specs.Pairs.{GivesBack, Went};
ghost use Rattle.hub_multiplexer.specs.Ends.{HasTakenIn};
ghost use Rattle.hub_multiplexer.specs.Seats.{IsMasterOf};
ghost use Rattle.client_threads.specs.Running.{AtEach};
ghost use Rattle.hub_session.specs.Serving.{IsLaneBelow};
ghost use Rattle.board_greeting.specs.Boards.{HasNoEntry};
ghost use Rattle.session_serve.specs.Hubs.{AreServedAt, GivesAllBack, KeepsHead, ServesAll, served_of, pairs_of};
ghost use Rattle.session_serve.specs.Hubs.{seats_of};
ghost use Rattle.session_serve.specs.Plans.{ArePlannedAt};
ghost use Rattle.session_serve.specs.Room.{HasSeats};
ghost use Rattle.session_serve.specs.Seats.{AreOfClientsFrom, AreTakenIn, IsBack, IsOpen, with_seats};
ghost use Rattle.session_serve.specs.Serving.{AreBackFrom, HadMemory};

use crate::connection::Done;
use crate::report::ServeFault;
use crate::room::{Room, room_for};
use crate::seats::{join_all, seat_all};
use crate::serving::{Ended, serve_all};
use crate::states::BoardStates;
use client_history::clients::a_lane_comes_back_with_its_record;
use client_history::connections::{
    a_connection_plans_its_first_bodies_first, connections_of_a_hub_keep_the_limits,
    connections_of_a_hub_plan_what_they_submit,
};
use hub_lane::Lane;
use hub_lane::laws::a_record_tells_its_lane;
use hub_multiplexer::{Hub, Master};
use hub_session::laws::each_body_was_decided_on_a_record_that_the_seat_saw;
use hub_session::{Served, SessionEnd};
use ipb_base::NoMemory;
use ipb_outside::Door;
use links::Link;
use std::alloc::Global;
use std::marker::{Send, Sync};
use std::sync::Wait;
use std::thread::Threads;

/// Takes in the seats of connections that were served, and gives each connection back to the door, in order.
fn give_back<L: Link + Send, D: Door>(
    hub: &Hub<L>,
    master: &mut Master,
    done: Vec<Done<D::Incoming, D::Outgoing>>,
    served: &mut Vec<Served>,
    door: &mut D,
)
    requires hub { IsMasterOf hub.now master.old }
    requires known { length master.old.knows ≡ length hub.now.turns }
    requires back { AllByRecursion (λ one. IsBack hub.now.turns one.seat) done.items }
    requires out { length done.items ≤ D.out door.old }
    requires empty { served.old.items ≡ [] }
    requires room { length done.items ≤ vec_capacity served.old }
    ensures joined { AreTakenIn master.old master.new (seats_of done.items) }
    ensures taken_in { (client : ℕ) → AreOfClientsFrom client (seats_of done.items) → HasTakenIn client master.old
        → HasTakenIn (client + length done.items) master.new }
    ensures served { served.new.items ≡ served_of done.items }
    ensures went { Went (D.kept door.old) (D.kept door.new) (pairs_of done.items) }
    ensures out { D.out door.new + length done.items ≡ D.out door.old }
    ensures coming { D.coming door.new ≡ D.coming door.old }
    ensures ports { D.ports door.new ≡ D.ports door.old }
    ensures faults { D.faults door.new ≡ D.faults door.old }
{
    for one in done {
        let Done {
            src,
            sink,
            seat,
            served: line,
        } = one;
        master.join(hub, seat);
        served.push_reserved(line);
        door.keep(src, sink);
    }
}

/// Whether no connection ended with want of memory.
fn had_memory(served: &[Served]) -> bool
    ensures { result ≡ true → AllByRecursion HadMemory served.now }
{
    for one in served {
        if one.end == SessionEnd::NoMemory {
            return false;
        }
    }
    true
}

/// What the connections came to: nothing where the door failed, or where memory ran out for one of them.
fn conclude(served: Vec<Served>, is_whole: bool) -> Result<Vec<Served>, ServeFault>
    ensures served { IfOk result (λ there. there ≡ served) }
    ensures had_memory { IfOk result (λ there. AllByRecursion HadMemory there.items) }
    ensures whole { OnOk result (is_whole ≡ true) }
    ensures door { result ≡ Err ServeFault.Door → is_whole ≡ false }
    ensures no_door { result ≢ Err ServeFault.Door → is_whole ≡ true }
    ensures not_rack { result ≢ Err ServeFault.Rack }
{
    if !is_whole {
        return Err(ServeFault::Door);
    }
    if had_memory(&served) {
        Ok(served)
    } else {
        Err(ServeFault::NoMemory)
    }
}

/// Listens, serves a connection under each seat, and gives each back. All seats are taken in.
fn serve_seats<L: Link + Send, D: Door, T: Threads + Wait + Sync>(
    rt: &T,
    alloc: Global,
    hub: &Hub<L>,
    master: &mut Master,
    states: &BoardStates,
    port: u16,
    room: Room<D::Incoming, D::Outgoing>,
    door: &mut D,
) -> Result<Vec<Served>, ServeFault>
    requires hub { IsMasterOf hub.now master.old }
    requires known { length master.old.knows ≡ length hub.now.turns }
    requires lanes { AllByRecursion (IsLaneBelow (length hub.now.turns)) states.now }
    requires seats { HasSeats hub.now.turns room }
    ensures all_back { GivesAllBack D.Door D.Incoming.Source D.Outgoing.Sink states.now hub.now.turns room.seats.items
        master.old master.new door.old door.new }
    ensures served { IfOk result (λ served. ServesAll D.Door D.Incoming.Source D.Outgoing.Sink states.now
        hub.now.turns room.seats.items master.old master.new door.old door.new served.items) }
    ensures all { IfOk result (λ served. length served.items ≡ length room.seats.items) }
    ensures had_memory { IfOk result (λ served. AllByRecursion HadMemory served.items) }
    ensures taken_in { HasTakenIn 1 master.old → HasTakenIn (length room.seats.items + 1) master.new }
    ensures none_out { D.out door.new ≡ D.out door.old }
    ensures listens { Listens port (IsOk result) (D.ports door.old) (D.ports door.new) }
    ensures door_faults { RisesExactlyIf (result ≡ Err ServeFault.Door) (D.faults door.old) (D.faults door.new) }
    ensures not_rack { result ≢ Err ServeFault.Rack }
{
    let Room {
        seats,
        running,
        done,
        mut served,
    } = room;
    if door.listen(port).is_err() {
        join_all(hub, master, seats.into_iter());
        return Err(ServeFault::Door);
    }
    let ended = serve_all(
        rt,
        alloc,
        hub,
        states,
        seats.into_iter(),
        running,
        done,
        door,
    );
    let Ended {
        done,
        seats,
        is_whole,
    } = ended;
    give_back(hub, master, done, &mut served, door);
    join_all(hub, master, seats);
    conclude(served, is_whole)
}

/// Makes the seats and takes all room, and then serves a connection under each seat.
fn serve_under_seats<L: Link + Send, D: Door, T: Threads + Wait + Sync>(
    rt: &T,
    alloc: Global,
    hub: &Hub<L>,
    master: &mut Master,
    states: &BoardStates,
    port: u16,
    count: u32,
    door: &mut D,
) -> Result<Vec<Served>, ServeFault>
    requires hub { IsMasterOf hub.now master.old }
    requires none { master.old.seats ≡ 0 }
    requires opens { AllByRecursion IsOpen master.old.knows }
    requires lanes { AllByRecursion (IsLaneBelow (length hub.now.turns)) states.now }
    ensures all_back { (seats : _) × GivesAllBack D.Door D.Incoming.Source D.Outgoing.Sink states.now hub.now.turns
        seats (with_seats master.old (length seats)) master.new door.old door.new }
    ensures served { IfOk result (λ served. (seats : _)
        × ServesAll D.Door D.Incoming.Source D.Outgoing.Sink states.now hub.now.turns seats
        (with_seats master.old (length seats)) master.new door.old door.new served.items) }
    ensures all { IfOk result (λ served. length served.items ≡ count) }
    ensures had_memory { IfOk result (λ served. AllByRecursion HadMemory served.items) }
    ensures taken_in { HasTakenIn 1 master.old → HasTakenIn (master.new.seats + 1) master.new }
    ensures none_out { D.out door.new ≡ D.out door.old }
    ensures listens { Listens port (IsOk result) (D.ports door.old) (D.ports door.new) }
    ensures door_faults { RisesExactlyIf (result ≡ Err ServeFault.Door) (D.faults door.old) (D.faults door.new) }
    ensures not_rack { result ≢ Err ServeFault.Rack }
{
    master.knows_each_turn();
    let mut room = room_for(alloc, count as usize)?;
    match seat_all(alloc, hub, master, count, &mut room.seats) {
        Ok(()) => serve_seats(rt, alloc, hub, master, states, port, room, door),
        Err(NoMemory) => {
            join_all(hub, master, room.seats.into_iter());
            Err(ServeFault::NoMemory)
        }
    }
}

/// Serves so many connections of a door at a hub of these lanes, where the boards stand so, and hands the lanes back.
pub(crate) fn serve_at_hub<L: Link + Send + Drop, D: Door, T: Threads + Wait + Sync>(
    rt: &T,
    alloc: Global,
    lanes: Vec<Lane<L>>,
    states: &BoardStates,
    port: u16,
    count: u32,
    door: &mut D,
) -> (Vec<Lane<L>>, Result<Vec<Served>, ServeFault>)
    requires unused { AllByRecursion HasNoEntry lanes.items }
    requires lanes { AllByRecursion (IsLaneBelow (length lanes.items)) states.now }
    ensures heads { AtEach lanes.items result.0.items (λ lane. KeepsHead L.telling) }
    ensures served { IfOk result.1 (λ served. GivesBack D.Door D.Incoming.Source D.Outgoing.Sink door.old door.new
        (λ came back. AreServedAt L.telling states.now lanes.items result.0.items came back served.items)) }
    ensures pairs { GivesBack D.Door D.Incoming.Source D.Outgoing.Sink door.old door.new (AreBackFrom states.now) }
    ensures planned { GivesBack D.Door D.Incoming.Source D.Outgoing.Sink door.old door.new
        (ArePlannedAt states.now lanes.items result.0.items) }
    ensures all { IfOk result.1 (λ served. length served.items ≡ count) }
    ensures had_memory { IfOk result.1 (λ served. AllByRecursion HadMemory served.items) }
    ensures none_out { D.out door.new ≡ D.out door.old }
    ensures listens { Listens port (IsOk result.1) (D.ports door.old) (D.ports door.new) }
    ensures door_faults { RisesExactlyIf (result.1 ≡ Err ServeFault.Door) (D.faults door.old) (D.faults door.new) }
    ensures not_rack { result.1 ≢ Err ServeFault.Rack }
{
    a_lane_comes_back_with_its_record();
    a_record_tells_its_lane();
    each_body_was_decided_on_a_record_that_the_seat_saw();
    connections_of_a_hub_plan_what_they_submit();
    a_connection_plans_its_first_bodies_first();
    connections_of_a_hub_keep_the_limits();
    match Hub::new(alloc, lanes) {
        Ok((hub, mut master)) => {
            let served = serve_under_seats(rt, alloc, &hub, &mut master, states, port, count, door);
            (hub.finish(rt, master), served)
        }
        Err(returned) => (returned.lanes, Err(ServeFault::NoMemory)),
    }
}
