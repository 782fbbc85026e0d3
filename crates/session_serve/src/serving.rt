//! The connections of a door, each begun as it comes, and all awaited.

ghost use Rattle.std.specs.Prelude.{◌≡◌, ◌≤◌, ◌+◌, ◌++◌, [], true, false, length, map};
ghost use Rattle.std.specs.List.{AllByRecursion, AllZip};
ghost use Rattle.std.specs.Vec.{vec_capacity};
ghost use Rattle.std.specs.Vec.Iter.{into_iter_items};
ghost use Rattle.ipb_outside.specs.Faults.{RisesExactlyIf};
ghost use Rattle.ipb_outside.specs.Pairs.{Came, pair_shown};
ghost use Rattle.hub_session.specs.Serving.{IsLaneBelow};
ghost use Rattle.session_serve.specs.Seats.{HasServed, IsDoneOf, IsFresh};

use crate::connection::{Connection, Done, Running, begin};
use crate::states::BoardStates;
use crate::work::Work;
use hub_multiplexer::{Hub, Seat};
use ipb_outside::{Door, Sink, Source};
use links::Link;
use std::alloc::Global;
use std::marker::{Send, Sync};
use std::sync::Wait;
use std::thread;
use std::thread::{Scope, Threads};
use std::vec::IntoIter;

/// Connections that were served, the seats that are left, and whether the door let in all that were wanted.
#[derive(Drop)]
pub(crate) struct Ended<S: Source + Drop, O: Sink + Drop> {
    pub(crate) done: Vec<Done<S, O>>,
    pub(crate) seats: IntoIter<Seat>,
    pub(crate) is_whole: bool,
}

/// Accepts a connection for each seat, and begins to serve it. Answers whether the door let all of them in.
fn accept_all<'s, E, L: Link + Send + 's, D: Door, T: Threads + Wait + Sync + 's>(
    scope: &Scope<'s, E>,
    rt: &'s T,
    alloc: Global,
    hub: &'s Hub<L>,
    states: &'s BoardStates,
    seats: &mut IntoIter<Seat>,
    door: &mut D,
    running: &mut Vec<Running<D::Incoming, D::Outgoing>>,
) -> bool
where
    D::Incoming: 's,
    D::Outgoing: 's,
    requires lanes { AllByRecursion (IsLaneBelow (length hub.now.turns)) states.now }
    requires fresh { AllByRecursion (IsFresh hub.now.turns) (into_iter_items seats.old) }
    requires empty { running.old.items ≡ [] }
    requires room { length (into_iter_items seats.old) ≤ vec_capacity running.old }
    ensures came { Came (D.coming door.old) (D.coming door.new) (map (λ r. r.pair) running.new.items) }
    ensures seats { into_iter_items seats.old ≡ map (λ r. r.seat) running.new.items ++ into_iter_items seats.new }
    ensures boards { AllByRecursion (λ r. r.boards ≡ states.now) running.new.items }
    ensures all { result ≡ true → into_iter_items seats.new ≡ [] }
    ensures door_faults { RisesExactlyIf (result ≡ false) (D.faults door.old) (D.faults door.new) }
    ensures out { D.out door.new ≡ D.out door.old + length running.new.items }
    ensures kept { D.kept door.new ≡ D.kept door.old }
    ensures ports { D.ports door.new ≡ D.ports door.old }
{
    for _ in 0..seats.len() {
        let Ok((src, sink)) = door.accept() else {
            return false;
        };
        let Some(seat) = seats.next() else {
            unreachable!()
        };
        let connection = Connection { src, sink, seat };
        running.push_reserved(begin(scope, rt, alloc, hub, states, connection));
    }
    true
}

/// Waits until each connection was served, in order.
fn wait_for_all<S: Source + Drop, O: Sink + Drop, T: Threads>(
    rt: &T,
    running: Vec<Running<S, O>>,
    done: &mut Vec<Done<S, O>>,
)
    requires empty { done.old.items ≡ [] }
    requires room { length running.items ≤ vec_capacity done.old }
    ensures { AllZip (IsDoneOf (pair_shown S.Source O.Sink)) running.items done.new.items }
{
    for one in running {
        done.push_reserved(one.finish(rt));
    }
}

/// Accepts a connection for each seat and serves it in a thread of the scope, and waits for all.
fn serve_in_scope<'s, E, L: Link + Send + 's, D: Door, T: Threads + Wait + Sync + 's>(
    scope: &Scope<'s, E>,
    rt: &'s T,
    alloc: Global,
    work: Work<'s, L, D::Incoming, D::Outgoing>,
    door: &mut D,
) -> Ended<D::Incoming, D::Outgoing>
where
    D::Incoming: 's,
    D::Outgoing: 's,
    ensures served { HasServed (pair_shown D.Incoming.Source D.Outgoing.Sink) work.entry.boards work.entry.seats
        (D.coming door.old) (D.coming door.new) result }
    ensures door_faults { RisesExactlyIf (result.is_whole ≡ false) (D.faults door.old) (D.faults door.new) }
    ensures out { D.out door.new ≡ D.out door.old + length result.done.items }
    ensures kept { D.kept door.new ≡ D.kept door.old }
    ensures ports { D.ports door.new ≡ D.ports door.old }
{
    let Work {
        hub,
        states,
        mut seats,
        mut running,
        mut done,
    } = work;
    let is_whole = accept_all(
        scope,
        rt,
        alloc,
        hub,
        states,
        &mut seats,
        door,
        &mut running,
    );
    wait_for_all(rt, running, &mut done);
    Ended {
        done,
        seats,
        is_whole,
    }
}

/// Does nothing: the door that a closure handed back is looked at.
fn look<D: Door>(door: &mut D)
    ensures { door.new ≡ door.old }
{
    let _door = door;
}

/// Accepts a connection for each seat and serves each in a thread of its own, and waits for all. A connection whose
/// thread cannot be made is served by the caller, before the next is accepted.
pub(crate) fn serve_all<L: Link + Send, D: Door, T: Threads + Wait + Sync>(
    rt: &T,
    alloc: Global,
    hub: &Hub<L>,
    states: &BoardStates,
    seats: IntoIter<Seat>,
    running: Vec<Running<D::Incoming, D::Outgoing>>,
    done: Vec<Done<D::Incoming, D::Outgoing>>,
    door: &mut D,
) -> Ended<D::Incoming, D::Outgoing>
    requires lanes { AllByRecursion (IsLaneBelow (length hub.now.turns)) states.now }
    requires fresh { AllByRecursion (IsFresh hub.now.turns) (into_iter_items seats) }
    requires none_running { running.items ≡ [] }
    requires none_done { done.items ≡ [] }
    requires room_running { length (into_iter_items seats) ≤ vec_capacity running }
    requires room_done { length (into_iter_items seats) ≤ vec_capacity done }
    ensures served { HasServed (pair_shown D.Incoming.Source D.Outgoing.Sink) states.now (into_iter_items seats)
        (D.coming door.old) (D.coming door.new) result }
    ensures door_faults { RisesExactlyIf (result.is_whole ≡ false) (D.faults door.old) (D.faults door.new) }
    ensures out { D.out door.new ≡ D.out door.old + length result.done.items }
    ensures kept { D.kept door.new ≡ D.kept door.old }
    ensures ports { D.ports door.new ≡ D.ports door.old }
{
    let work = Work {
        hub,
        states,
        seats,
        running,
        done,
    };
    let back = thread::scope(
        thread::scope_env(),
        rt,
        move |scope| -> (&mut D, Ended<D::Incoming, D::Outgoing>)
            ensures same { result.0.ghost_name ≡ door.entry.ghost_name }
            ensures served { HasServed (pair_shown D.Incoming.Source D.Outgoing.Sink) work.entry.boards work.entry.seats
                (D.coming door.entry.now) (D.coming result.0.now) result.1 }
            ensures door_faults { RisesExactlyIf (result.1.is_whole ≡ false) (D.faults door.entry.now)
                (D.faults result.0.now) }
            ensures out { D.out result.0.now ≡ D.out door.entry.now + length result.1.done.items }
            ensures kept { D.kept result.0.now ≡ D.kept door.entry.now }
            ensures ports { D.ports result.0.now ≡ D.ports door.entry.now }
        {
            let ended = serve_in_scope(scope, rt, alloc, work, &mut *door);
            (door, ended)
        },
    );
    let (door, ended) = back;
    look(door);
    ended
}
