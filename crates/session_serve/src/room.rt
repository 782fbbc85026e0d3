//! The room that serving takes, so that memory does not run out once the door listens.

ghost use Rattle.std.specs.Prelude.{◌≡◌, ◌≤◌, [], IfOk};
ghost use Rattle.std.specs.Vec.{vec_capacity};
ghost use Rattle.session_serve.specs.Room.{HasRoomFor};

use crate::connection::{Done, Running};
use hub_multiplexer::Seat;
use hub_session::Served;
use ipb_base::NoMemory;
use ipb_outside::{Sink, Source};
use std::alloc::Global;

/// Room for connections: their seats, those that run, those that are done, and their lines.
#[derive(Drop)]
pub(crate) struct Room<S: Source + Drop, O: Sink + Drop> {
    pub(crate) seats: Vec<Seat>,
    pub(crate) running: Vec<Running<S, O>>,
    pub(crate) done: Vec<Done<S, O>>,
    pub(crate) served: Vec<Served>,
}

/// Two vectors with room for so many each.
fn two_with_room<A: Drop, B: Drop>(
    alloc: Global,
    count: usize,
) -> Result<(Vec<A>, Vec<B>), NoMemory>
    ensures none { IfOk result (λ two. (two.0.items ≡ []) × (two.1.items ≡ [])) }
    ensures room { IfOk result (λ two. (count ≤ vec_capacity two.0) × (count ≤ vec_capacity two.1)) }
{
    let first = Vec::with_capacity(alloc, count)?;
    let second = Vec::with_capacity(alloc, count)?;
    Ok((first, second))
}

/// Room for so many connections.
pub(crate) fn room_for<S: Source + Drop, O: Sink + Drop>(
    alloc: Global,
    count: usize,
) -> Result<Room<S, O>, NoMemory>
    ensures { IfOk result (HasRoomFor count) }
{
    let (seats, running) = two_with_room(alloc, count)?;
    let (done, served) = two_with_room(alloc, count)?;
    Ok(Room {
        seats,
        running,
        done,
        served,
    })
}
