//! A lane of one client over a simulated link.

use crate::fixtures::{lane, place_of, planned};
use hub_lane::{Asked, Lane, Outcome, Stepped};
use ipb_base::NoMemory;
use links::Link;
use std::alloc::Global;
use std::test::Fail;

/// Asks the first body of client 1, and steps until something became of it.
fn outcome_of<L: Link>(lane: &mut Lane<L>) -> Result<Option<Outcome>, NoMemory> {
    let Asked::Asked(0) = lane.ask(1)? else {
        return Ok(None);
    };
    for _ in 0..32 {
        match lane.step(1)? {
            Stepped::Ready(outcome) => return Ok(Some(outcome)),
            Stepped::NotYet(_) => {}
            Stepped::Nothing => return Ok(None),
        }
    }
    Ok(None)
}

/// The place of a read, and the rounds after which the hub gave it up: 0 where its reply came.
fn place_and_rounds(outcome: Option<Outcome>) -> Option<(u64, u8)> {
    match outcome {
        Some(Outcome::TimedOut { place, rounds }) => Some((place, rounds)),
        replied => Some((place_of(replied)?, 0)),
    }
}

/// What became of a read of client 1 on this lane, how many bodies have a place, and how many of them were replied to,
/// timed out and lost.
type Became = (Option<(u64, u8)>, u64, (u64, u64, u64));

fn became<L: Link + Drop>(alloc: Global, lane: Lane<L>) -> Result<Became, Fail> {
    let mut lane = planned(alloc, lane, 2, 1)?;
    let outcome = outcome_of(&mut lane)?;
    Ok((place_and_rounds(outcome), lane.sent(), lane.counts()))
}

/// The fates of a link, what became of a read, and the counts: the reply is lost, the request is lost, and the board is
/// gone.
const READS: &[(&str, (u64, u8), (u64, u64, u64))] = &[
    ("dddl", (1, 0), (1, 0, 0)),
    ("ddl", (1, 0), (1, 0, 0)),
    ("ddllllllllllllllll", (1, 3), (0, 1, 0)),
];

#[test]
fn a_lane_recovers_or_gives_up(rt: HostRuntime) -> Result<(), Fail> {
    for (fates, outcome, counts) in READS {
        let became = became(rt.alloc(), lane(rt.alloc(), fates)?)?;
        assert!(rt; became == (Some(*outcome), 1, *counts));
    }
    Ok(())
}
