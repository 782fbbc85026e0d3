//! A hub and a board over moves.

use crate::fixtures::{FOUR_READ, READ_FOUR, board};
use ipb_base::{NoMemory, Words};
use std::alloc::Global;
use std::test::Fail;
use world_core::{Fate, Settings, World, WorldEnd, WorldMove, are_short, run_world};

/// A move of these tests: an offer of the read under a tag, a quiet receive, or what a side hears.
#[derive(Clone, Copy)]
enum Step {
    Offer(u64),
    Quiet,
    Board(usize),
    Hub(usize),
}

fn to_move(alloc: Global, step: Step) -> Result<WorldMove, NoMemory> {
    Ok(match step {
        Step::Offer(tag) => WorldMove::Offer {
            tag,
            body: Words::from_vec(READ_FOUR.to_vec(alloc)?),
        },
        Step::Quiet => WorldMove::Quiet,
        Step::Board(place) => WorldMove::BoardHears(place),
        Step::Hub(place) => WorldMove::HubHears(place),
    })
}

fn moves_of(alloc: Global, steps: &[Step]) -> Result<Vec<WorldMove>, NoMemory> {
    let mut moves = Vec::new(alloc);
    for step in steps {
        moves.push(to_move(alloc, *step)?)?;
    }
    Ok(moves)
}

/// Runs these moves with so many rounds and a window of so many bodies.
fn ran(
    alloc: Global,
    rounds: u8,
    window: u8,
    steps: &[Step],
) -> Result<Result<World, WorldEnd>, Fail> {
    let settings = Settings::new(rounds, window).ok_or("no such settings")?;
    let moves = moves_of(alloc, steps)?;
    if moves.len() > 100 || !are_short(&moves) {
        return Err("these moves cannot be run".into());
    }
    let board = board(alloc, 1500, 16, 65535)?;
    Ok(run_world(alloc, settings, board, &moves))
}

/// A fate: the tag of its body, `r` for the right reply, `t` for a timeout, `u` for a body that was not sent, and `?`
/// for another reply; its place; and after how many rounds the hub gave up.
type Told = (u64, char, u64, u8);

fn told(fate: &(u64, Fate)) -> Told {
    match fate {
        (tag, Fate::Replied { place, words }) => (*tag, letter_of(words), *place, 0),
        (tag, Fate::TimedOut { place, rounds }) => (*tag, 't', *place, *rounds),
        (tag, Fate::Unsent) => (*tag, 'u', 0, 0),
    }
}

fn letter_of(words: &Words) -> char {
    if words.as_slice() == FOUR_READ.as_slice() {
        return 'r';
    }
    '?'
}

/// The fate at this index, if there is one.
fn told_at(world: &World, index: usize) -> Option<Told> {
    Some(told(world.fates().get(index)?))
}

/// Whether these are all fates of a world.
fn are_told(world: &World, wanted: &[Told]) -> bool {
    for index in 0..wanted.len() {
        if told_at(world, index) != Some(wanted[index]) {
            return false;
        }
    }
    world.fates().len() == wanted.len()
}

/// The place of the one late answer, the right one: 0 where there is none.
fn late(world: &World) -> Option<u64> {
    match world.lates() {
        [] => Some(0),
        [(place, words)] if words.as_slice() == FOUR_READ.as_slice() => Some(*place),
        _ => None,
    }
}

/// What moves come to: how many bodies are executed then, all fates, and the place of the late answer; or the number of
/// the move whose datagram is not there.
#[derive(Clone, Copy)]
enum Wanted {
    Ends(usize, &'static [Told], u64),
    NotThere(usize),
}

/// Whether moves came to that.
fn came_to(ran: &Result<World, WorldEnd>, wanted: Wanted) -> bool {
    match (ran, wanted) {
        (Ok(world), Wanted::Ends(executed, fates, place)) => {
            let is_executed = world.board().executed_len() == executed;
            is_executed && are_told(world, fates) && late(world) == Some(place)
        }
        (Err(end), Wanted::NotThere(at)) => *end == WorldEnd::NotThere { at },
        _ => false,
    }
}

/// Whether moves with so many rounds and such a window come to that.
fn come_to(
    alloc: Global,
    rounds: u8,
    window: u8,
    steps: &[Step],
    wanted: Wanted,
) -> Result<bool, Fail> {
    let ran = ran(alloc, rounds, window, steps)?;
    Ok(came_to(&ran, wanted))
}

/// Rounds, a window, moves, and what they come to.
const RUNS: &[(u8, u8, &[Step], Wanted)] = &[
    // the request comes twice
    (
        255,
        16,
        &[Step::Offer(7), Step::Board(0), Step::Board(0), Step::Hub(1)],
        Wanted::Ends(1, &[(7, 'r', 1, 0)], 0),
    ),
    // replies are heard in the other order
    (
        8,
        2,
        &[
            Step::Offer(7),
            Step::Offer(8),
            Step::Board(0),
            Step::Board(1),
            Step::Hub(3),
            Step::Hub(2),
        ],
        Wanted::Ends(2, &[(8, 'r', 2, 0), (7, 'r', 1, 0)], 0),
    ),
    // the reply comes after the one round, behind the request for a status
    (
        1,
        2,
        &[
            Step::Offer(7),
            Step::Quiet,
            Step::Quiet,
            Step::Board(0),
            Step::Hub(2),
        ],
        Wanted::Ends(1, &[(7, 't', 1, 1)], 1),
    ),
    // the second body waits for the window when the hub gives up
    (
        1,
        1,
        &[Step::Offer(7), Step::Offer(8), Step::Quiet, Step::Quiet],
        Wanted::Ends(0, &[(7, 't', 1, 1), (8, 'u', 0, 0)], 0),
    ),
    (8, 2, &[Step::Hub(0)], Wanted::NotThere(0)),
    (8, 2, &[Step::Offer(7), Step::Hub(0)], Wanted::NotThere(1)),
];

#[test]
fn moves_are_run(rt: HostRuntime) -> Result<(), Fail> {
    for (rounds, window, steps, wanted) in RUNS {
        assert!(rt; come_to(rt.alloc(), *rounds, *window, steps, *wanted)?);
    }
    Ok(())
}

#[test]
fn settings_are_kept_in_their_ranges(rt: HostRuntime) {
    for (rounds, window, is_kept) in [(255, 16, true), (0, 16, false), (1, 17, false)] {
        assert!(rt; Settings::new(rounds, window).is_some() == is_kept);
    }
}
