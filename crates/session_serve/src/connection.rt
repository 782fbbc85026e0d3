//! A connection from its acceptance until it was served.

ghost use Rattle.std.specs.Prelude.{◌≡◌, length};
ghost use Rattle.std.specs.List.{AllByRecursion};
ghost use Rattle.ipb_outside.specs.Pairs.{pair_shown};
ghost use Rattle.hub_session.specs.Serving.{IsLaneBelow, IsUnused};
ghost use Rattle.session_serve.specs.Seats.{IsDone};

use crate::states::BoardStates;
use hub_multiplexer::{Hub, Seat};
use hub_session::{Served, serve_one};
use ipb_outside::{Sink, Source};
use links::Link;
use std::alloc::Global;
use std::marker::{Model, Send, Sync};
use std::snapshot::Snapshot;
use std::sync::Wait;
use std::thread::{Promise, PromisedHandle, Scope, Threads};

/// A connection as it came, and the seat under which it is served.
#[derive(Drop)]
pub(crate) struct Connection<S: Source + Drop, O: Sink + Drop> {
    pub(crate) src: S,
    pub(crate) sink: O,
    pub(crate) seat: Seat,
}

/// A connection that was served.
#[derive(Drop)]
pub(crate) struct Done<S: Source + Drop, O: Sink + Drop> {
    pub(crate) src: S,
    pub(crate) sink: O,
    pub(crate) seat: Seat,
    pub(crate) served: Served,
}

/// A connection as it came, and how the boards stood. It takes no bytes.
#[derive(Drop)]
struct AsCame<S: Source + Drop, O: Sink + Drop> {
    src: Snapshot<S>,
    sink: Snapshot<O>,
    seat: Snapshot<Seat>,
    states: Snapshot<BoardStates>,
}

impl<S: Source + Drop, O: Sink + Drop> Promise<Done<S, O>> for AsCame<S, O> {
    ghost kept_by = { λ came done. IsDone came.states.value came.seat.value done.seat
        (pair_shown S.Source O.Sink (came.src.value, came.sink.value))
        (pair_shown S.Source O.Sink (done.src, done.sink)) done.served };
}

fn as_came<S: Source + Drop, O: Sink + Drop>(
    connection: &Connection<S, O>,
    states: &BoardStates,
) -> AsCame<S, O>
    ensures src { result.src.value ≡ connection.now.src }
    ensures sink { result.sink.value ≡ connection.now.sink }
    ensures seat { result.seat.value ≡ connection.now.seat }
    ensures states { result.states.value ≡ states.now }
{
    AsCame {
        src: Snapshot::of(&connection.src),
        sink: Snapshot::of(&connection.sink),
        seat: Snapshot::of(&connection.seat),
        states: Snapshot::of(states),
    }
}

/// Serves one connection under its seat, and gives its pair back.
fn serve_owned<L: Link + Send, S: Source + Drop, O: Sink + Drop, T: Wait>(
    rt: &T,
    alloc: Global,
    hub: &Hub<L>,
    states: &BoardStates,
    connection: Connection<S, O>,
) -> Done<S, O>
    requires seat { connection.seat.turns ≡ hub.now.turns }
    requires unused { AllByRecursion IsUnused connection.seat.knows }
    requires lanes { AllByRecursion (IsLaneBelow (length hub.now.turns)) states.now }
    ensures { IsDone states.now connection.seat result.seat
        (pair_shown S.Source O.Sink (connection.src, connection.sink))
        (pair_shown S.Source O.Sink (result.src, result.sink)) result.served }
{
    let Connection {
        mut src,
        mut sink,
        mut seat,
    } = connection;
    let served = serve_one(
        rt,
        alloc,
        hub,
        states.as_slice(),
        &mut seat,
        &mut src,
        &mut sink,
    );
    seat.is_of_its_client();
    Done {
        src,
        sink,
        seat,
        served,
    }
}

/// A connection in its thread, or after its service by the caller. Contracts see it as it came, with the boards as they
/// stood.
#[derive(Drop)]
pub(crate) struct Running<S: Source + Drop, O: Sink + Drop> {
    came: AsCame<S, O>,
    place: Result<PromisedHandle<Done<S, O>, AsCame<S, O>>, Done<S, O>>,
}

impl<S: Source + Drop, O: Sink + Drop> Model for Running<S, O> {
    ghost use Rattle.std.specs.Prelude.{◌≡◌, MatchResult};
    ghost use Rattle.ipb_outside.specs.Pairs.{pair_shown};
    ghost use Rattle.session_serve.specs.Seats.{Begun, IsDone};

    ghost Value = { Begun S O };

    ghost view = { λ r. record {
      pair = (r.came.src.value, r.came.sink.value);
      seat = r.came.seat.value;
      boards = r.came.states.value;
    } };

    ghost invariant = { λ r. MatchResult r.place
        (λ h. (h.promise.src.value ≡ r.came.src.value) × (h.promise.sink.value ≡ r.came.sink.value)
        × (h.promise.seat.value ≡ r.came.seat.value) × (h.promise.states.value ≡ r.came.states.value))
        (λ done. IsDone r.came.states.value r.came.seat.value done.seat
        (pair_shown S.Source O.Sink (r.came.src.value, r.came.sink.value))
        (pair_shown S.Source O.Sink (done.src, done.sink)) done.served) };
}

/// Begins to serve a connection in a thread of the scope. Where none can be made it is served here.
pub(crate) fn begin<
    's,
    E,
    L: Link + Send + 's,
    S: Source + Send + Drop + 's,
    O: Sink + Send + Drop + 's,
    T: Threads + Wait + Sync + 's,
>(
    scope: &Scope<'s, E>,
    rt: &'s T,
    alloc: Global,
    hub: &'s Hub<L>,
    states: &'s BoardStates,
    connection: Connection<S, O>,
) -> Running<S, O>
    requires seat { connection.seat.turns ≡ hub.now.turns }
    requires unused { AllByRecursion IsUnused connection.seat.knows }
    requires lanes { AllByRecursion (IsLaneBelow (length hub.now.turns)) states.now }
    ensures pair { result.pair ≡ (connection.src, connection.sink) }
    ensures seat { result.seat ≡ connection.seat }
    ensures boards { result.boards ≡ states.now }
{
    let promise = as_came(&connection, states);
    let came = as_came(&connection, states);
    match scope.spawn_with(
        promise,
        move ||
            requires seat { connection.seat.turns ≡ hub.now.turns }
            requires unused { AllByRecursion IsUnused connection.seat.knows }
            requires lanes { AllByRecursion (IsLaneBelow (length hub.now.turns)) states.now }
        { serve_owned(rt, alloc, hub, states, connection) },
    ) {
        Ok(handle) => Running {
            came,
            place: Ok(handle),
        },
        Err(refused) => Running {
            came,
            place: Err((refused.value)()),
        },
    }
}

impl<S: Source + Drop, O: Sink + Drop> Running<S, O> {
    /// Waits until it was served.
    pub(crate) fn finish<T: Threads>(self, rt: &T) -> Done<S, O>
        ensures { IsDone self.boards self.seat result.seat (pair_shown S.Source O.Sink self.pair)
            (pair_shown S.Source O.Sink (result.src, result.sink)) result.served }
    {
        let Running { came: _, place } = self;
        match place {
            Ok(handle) => handle.join(rt),
            Err(done) => done,
        }
    }
}
