//! What is said while a run goes on, as far as it is decided without a terminal: how long the rest takes, the line that
//! says so, and after which dispatches a client is told that it waits.

use std::test::Fail;
use std_edges::{Counts, Deaf, LongWait, Meter, Row, Share, Span, Taken, Tally, rest_at};

/// Left, done, the milliseconds of what is done, and those of the rest.
const RESTS: [(u64, u64, u64, Option<u64>); 6] = [
    (997, 3, 2700, Some(897_300)),
    (1, 3, 1000, Some(333)),
    (0, 3, 1000, Some(0)),
    (7, 0, 1000, None),
    (u64::MAX, 1, 1, Some(u64::MAX)),
    (u64::MAX, 2, 2, None),
];

#[test]
fn the_rest_goes_by_the_pace(rt: HostRuntime) -> Result<(), Fail> {
    for (left, done, took, rest) in RESTS.as_slice() {
        assert!(rt; rest_at(*left, *done, *took) == *rest);
    }
    Ok(())
}

/// A hundred packets in the first second, and then one a second: soon the line goes by that.
#[test]
fn the_pace_is_that_of_late(rt: HostRuntime) -> Result<(), Fail> {
    let mut meter = Meter::new(0, 0);
    let mut rest = None;
    for second in 1..=30u64 {
        let share = Share {
            done: 99 + second,
            all: 200,
        };
        rest = meter.rest(second * 1000, share);
    }
    // 71 packets are left
    assert!(rt; rest == Some(71_000));
    let mut fresh = Meter::new(5000, 7);
    assert!(rt; fresh.rest(60_000, Share { done: 7, all: 9 }) == None);
    Ok(())
}

/// Operations done and in all, silent boards, the milliseconds left, and what a line says.
const ROWS: [((u64, u64, u32), Option<u64>, &str); 4] = [
    ((0, 9, 0), None, "0 of 9 operations"),
    (
        (3, 9, 1),
        None,
        "3 of 9 operations, 1 board does not answer",
    ),
    (
        (120, 1000, 2),
        Some(870_000),
        "120 of 1000 operations, 2 boards do not answer, about 14 min 30 s left",
    ),
    ((9, 9, 0), Some(0), "9 of 9 operations, about 0 s left"),
];

/// Milliseconds, as a sentence says them.
const SPANS: [(u64, &str); 6] = [
    (1, "1 s"),
    (59_000, "59 s"),
    (59_001, "1 min 0 s"),
    (3_599_000, "59 min 59 s"),
    (3_600_000, "1 h 0 min"),
    (90_060_000, "25 h 1 min"),
];

#[test]
fn lines_say_how_far_a_run_is(rt: HostRuntime) -> Result<(), Fail> {
    for ((done, all, silent), rest, line) in ROWS.as_slice() {
        let row = Row {
            counts: Counts {
                operations: Share {
                    done: *done,
                    all: *all,
                },
                packets: Share { done: 0, all: 1 },
                silent: *silent,
            },
            rest: *rest,
        };
        assert!(rt; row.to_string(rt.alloc())?.as_str() == *line);
    }
    for (span, text) in SPANS.as_slice() {
        assert!(rt; Span(*span).to_string(rt.alloc())?.as_str() == *text);
    }
    let long = LongWait {
        client: 2,
        waited: 3,
        took: 2700,
        left: 997,
        rest: 897_300,
    };
    let line =
        "client 2 waited 3 s in its first 3 dispatches for a board that does not answer; the 997 others take about 14 min 58 s at this pace";
    assert!(rt; long.to_string(rt.alloc())?.as_str() == line);
    Ok(())
}

/// What a client takes of the two lanes in each dispatch, and after which of them it is told that it waits, if at all.
const TURNS: [(&[[Taken; 2]], Option<u32>); 5] = [
    (
        &[
            [Taken::Timeout, Taken::Reply],
            [Taken::Timeout, Taken::Timeout],
            [Taken::Timeout, Taken::Reply],
            [Taken::Timeout, Taken::Reply],
        ],
        Some(3),
    ),
    // another board each time
    (
        &[
            [Taken::Timeout, Taken::Reply],
            [Taken::Reply, Taken::Timeout],
            [Taken::Timeout, Taken::Reply],
            [Taken::Timeout, Taken::Reply],
        ],
        None,
    ),
    // none is left behind the third
    (
        &[
            [Taken::Timeout, Taken::Other],
            [Taken::Timeout, Taken::Other],
            [Taken::Timeout, Taken::Other],
        ],
        None,
    ),
    (
        &[
            [Taken::Reply, Taken::Reply],
            [Taken::Timeout, Taken::Reply],
            [Taken::Timeout, Taken::Reply],
            [Taken::Timeout, Taken::Reply],
        ],
        None,
    ),
    (
        &[
            [Taken::Other, Taken::Timeout],
            [Taken::Other, Taken::Timeout],
            [Taken::Timeout, Taken::Timeout],
            [Taken::Reply, Taken::Reply],
        ],
        Some(3),
    ),
];

/// After which dispatch of client 2 it is told that it waits, and that it is told so rightly.
fn told_after(tally: &Tally, dispatches: &[[Taken; 2]]) -> Option<u32> {
    let all = dispatches.len() as u64;
    tally.planned(2, all, all.saturating_mul(2), 0);
    let mut number = 0u32;
    for taken in dispatches {
        number = number.saturating_add(1);
        if number == 1 && tally.is_fresh(2) {
            tally.began(2, 5);
        }
        tally.took(2, 0, taken[0]);
        tally.took(2, 1, taken[1]);
        if let Some(deaf) = tally.answered(2) {
            let left = all.saturating_sub(u64::from(number));
            return if deaf == (Deaf { began: 5, left }) {
                Some(number)
            } else {
                None
            };
        }
    }
    None
}

#[test]
fn three_deaf_dispatches_are_told(rt: HostRuntime) -> Result<(), Fail> {
    for (dispatches, wanted) in TURNS.as_slice() {
        let Some(tally) = Tally::new(rt.alloc(), 2) else {
            return Err(Fail::new("no memory"));
        };
        assert!(rt; told_after(&tally, dispatches) == *wanted);
        assert!(rt; tally.answered(3) == None);
    }
    Ok(())
}

#[test]
fn counts_are_those_of_all_clients(rt: HostRuntime) -> Result<(), Fail> {
    let Some(tally) = Tally::new(rt.alloc(), 2) else {
        return Err(Fail::new("no memory"));
    };
    tally.planned(1, 1, 2, 5);
    tally.planned(2, 1, 1, 4);
    tally.asked(1, 2, 5);
    tally.took(1, 0, Taken::Timeout);
    tally.took(1, 70, Taken::Timeout);
    tally.took(2, 3, Taken::Timeout);
    // client 2 told of no dispatch under way
    let counts = Counts {
        operations: Share { done: 5, all: 9 },
        packets: Share { done: 3, all: 3 },
        silent: 2,
    };
    assert!(rt; tally.counts() == counts);
    tally.took(2, 0, Taken::Reply);
    assert!(rt; tally.counts().silent == 1);
    assert!(rt; tally.warns_first() && !tally.warns_first());
    Ok(())
}

/// Packets taken of a dispatch of three with ten operations, and how many of these are done.
const PARTS: [(u64, u64); 4] = [(0, 0), (1, 3), (2, 6), (3, 10)];

#[test]
fn operations_are_done_as_their_packets(rt: HostRuntime) -> Result<(), Fail> {
    let Some(tally) = Tally::new(rt.alloc(), 1) else {
        return Err(Fail::new("no memory"));
    };
    tally.planned(1, 2, 4, 12);
    tally.asked(1, 3, 10);
    for (taken, done) in PARTS.as_slice() {
        if *taken > 0 {
            tally.took(1, 0, Taken::Reply);
        }
        assert!(rt;
            tally.counts().operations
                == (Share {
                    done: *done,
                    all: 12
                })
        );
    }
    let _ = tally.answered(1);
    assert!(rt; tally.counts().operations.done == 10);
    // nothing is asked of a board for the last two
    tally.asked(1, 0, 2);
    let _ = tally.answered(1);
    assert!(rt; tally.counts().operations.done == 12);
    Ok(())
}
