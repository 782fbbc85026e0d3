//! How the boards of a document stand, each in its place, from their greeting on.

ghost use Rattle.std.specs.Prelude.{◌≡◌, ℕ, ◌<◌, ◌-◌, ◌≤◌, ◌+◌, ◌^◌, ◌++◌, ◌∷◌, length, IfOk, OnErr, OnOk};
ghost use Rattle.std.specs.Vec.{vec_capacity, vec_len};
ghost use Rattle.std.specs.Vec.Iter.{into_iter_items};
ghost use Rattle.board_greeting.specs.Standings as spec;

use hub_lane::{BoardState, Greeted, Lane};
use ipb_base::NoMemory;
use links::Link;
use std::alloc::Global;
use std::mem;
use std::vec::IntoIter;

/// What stands in the place of a board.
#[derive(Drop)]
pub enum Standing<L: Link> {
    /// The board is live: it told its status at its greeting, and this is its lane.
    Live(Lane<L>),
    /// It is live, and its lane is at a hub.
    AtHub,
    /// It did not answer: its link.
    Silent(L),
    /// Its link failed: that link.
    Down(L),
}

/// How a board stands that was greeted. One on whose link memory ran out stands as one whose link failed.
pub fn standing_of<L: Link>(greeted: Greeted<L>) -> Standing<L>
    ensures { result ≡ spec.standing_of greeted }
{
    match greeted {
        Greeted::Ready(lane) => Standing::Live(lane),
        Greeted::Silent { link, rounds: _ } => Standing::Silent(link),
        Greeted::Down { link } | Greeted::NoMemory { link } => Standing::Down(link),
    }
}

/// Whether the lane of a board is at a hub.
pub fn is_at_hub<L: Link>(board: &Standing<L>) -> bool
    ensures { result ≡ spec.is_at_hub board.now }
{
    matches!(board, Standing::AtHub)
}

/// Takes the lane out of the place of a board, if it is there, behind those before.
fn take_lane<L: Link + Drop>(board: &mut Standing<L>, lanes: &mut Vec<Lane<L>>)
    requires room { vec_len lanes.old < vec_capacity lanes.old }
    ensures lanes { lanes.new.items ≡ lanes.old.items ++ spec.lane_in board.old }
    ensures left { board.new ≡ spec.at_hub board.old }
    ensures room { (more : ℕ) → vec_len lanes.old + (more + 1) ≤ vec_capacity lanes.old
        → vec_len lanes.new + more ≤ vec_capacity lanes.new }
{
    match mem::replace(board, Standing::AtHub) {
        Standing::Live(lane) => lanes.push_reserved(lane),
        Standing::AtHub => (),
        Standing::Silent(link) => *board = Standing::Silent(link),
        Standing::Down(link) => *board = Standing::Down(link),
    }
}

/// Takes the lanes of all boards, in board order, for a hub. If memory runs out nothing changes.
pub fn take_lanes<L: Link + Drop>(
    alloc: Global,
    boards: &mut [Standing<L>],
) -> Result<Vec<Lane<L>>, NoMemory>
    ensures lanes { IfOk result (λ lanes. lanes.items ≡ spec.lanes_in boards.old) }
    ensures left { OnOk result (boards.new ≡ spec.all_at_hub boards.old) }
    ensures unchanged { OnErr result (boards.new ≡ boards.old) }
{
    let mut lanes = Vec::with_capacity(alloc, boards.len())?;
    for board in boards.iter_mut() {
        take_lane(board, &mut lanes);
    }
    Ok(lanes)
}

/// Gives a board at a hub the next lane, if there is one.
fn put_lane<L: Link + Drop>(board: &mut Standing<L>, lanes: &mut IntoIter<Lane<L>>)
    ensures { (rest : _) → spec.with_lanes (board.old ∷ rest) (into_iter_items lanes.old)
        ≡ board.new ∷ spec.with_lanes rest (into_iter_items lanes.new) }
{
    if !is_at_hub(board) {
        return;
    }
    if let Some(lane) = lanes.next() {
        *board = Standing::Live(lane);
    }
}

/// Puts lanes back that were at a hub: each board at a hub gets the next of them, in board order.
pub fn put_back<L: Link + Drop>(boards: &mut [Standing<L>], lanes: Vec<Lane<L>>)
    ensures { boards.new ≡ spec.with_lanes boards.old lanes.items }
{
    let mut lanes = lanes.into_iter();
    for board in boards.iter_mut() {
        put_lane(board, &mut lanes);
    }
}

/// How a board stands to clients, if the hub's next lane has this index, and the index of the lane after it.
fn state_of<L: Link>(board: &Standing<L>, lane: u32) -> (BoardState, u32)
    requires { lane < 2 ^ 32 - 1 }
    ensures state { result.0 ≡ spec.state_at lane board.now }
    ensures next { result.1 ≡ spec.lane_after lane board.now }
{
    match board {
        Standing::Live(_) | Standing::AtHub => (BoardState::Lane(lane), lane + 1),
        Standing::Silent(_) => (BoardState::Silent, lane),
        Standing::Down(_) => (BoardState::Down, lane),
    }
}

/// How the board at each position stands to clients: a live one by the index of its lane at the hub, from 0.
pub fn states_of<L: Link>(
    alloc: Global,
    boards: &[Standing<L>],
) -> Result<Vec<BoardState>, NoMemory>
    requires few { length boards.now < 2 ^ 32 }
    ensures { IfOk result (λ states. states.items ≡ spec.states_at 0 boards.now) }
{
    let mut states = Vec::with_capacity(alloc, boards.len())?;
    let mut lane = 0u32;
    for board in boards {
        let (state, next) = state_of(board, lane);
        states.push_reserved(state);
        lane = next;
    }
    Ok(states)
}
