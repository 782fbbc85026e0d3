//! What connections are served with.

use crate::connection::{Done, Running};
use crate::states::BoardStates;
use hub_multiplexer::{Hub, Seat};
use ipb_outside::{Sink, Source};
use links::Link;
use std::marker::{Model, Send};
use std::vec::IntoIter;

/// The hub, how the boards stand, a seat for each connection, and room for those that run and for those that are done.
/// Contracts see the turns of the hub, the states and the seats.
#[derive(Drop)]
pub(crate) struct Work<'h, L: Link + Send, S: Source + Drop, O: Sink + Drop> {
    pub(crate) hub: &'h Hub<L>,
    pub(crate) states: &'h BoardStates,
    pub(crate) seats: IntoIter<Seat>,
    pub(crate) running: Vec<Running<S, O>>,
    pub(crate) done: Vec<Done<S, O>>,
}

impl<'h, L: Link + Send, S: Source + Drop, O: Sink + Drop> Model for Work<'h, L, S, O> {
    ghost use Rattle.std.specs.Prelude.{◌≡◌, ◌≤◌, [], length};
    ghost use Rattle.std.specs.List.{AllByRecursion};
    ghost use Rattle.std.specs.Vec.{vec_capacity};
    ghost use Rattle.std.specs.Vec.Iter.{into_iter_items};
    ghost use Rattle.hub_session.specs.Serving.{IsLaneBelow};
    ghost use Rattle.session_serve.specs.Seats.{IsFresh, WorkState};

    ghost Value = { WorkState };

    ghost view = { λ w. record {
      turns = w.hub.now.turns;
      boards = w.states.now;
      seats = into_iter_items w.seats;
    } };

    ghost invariant = { λ w. AllByRecursion (IsLaneBelow (length w.hub.now.turns)) w.states.now
        × AllByRecursion (IsFresh w.hub.now.turns) (into_iter_items w.seats)
        × (w.running.items ≡ []) × (w.done.items ≡ [])
        × (length (into_iter_items w.seats) ≤ vec_capacity w.running)
        × (length (into_iter_items w.seats) ≤ vec_capacity w.done) };
}
