//! What links and connections say on standard error, as far as it is decided without one: when a board is out of step,
//! when a line on its silence is due, and which boards are full by the frames that are written.

use packet_ids::Id;
use std::time::Duration;
use std_edges::{Line, Pace, ReplyCodes, Steps, Told};

/// What happens at a link.
#[derive(Clone, Copy)]
enum Event {
    /// A status request is sent.
    Ask,
    /// A control packet is sent.
    Send(u16),
    /// Its reply comes.
    Reply(u16),
    /// A status reply comes that tells this identifier.
    Status(u16),
}

use Event::{Ask, Reply, Send, Status};

/// What a status reply tells.
#[derive(Clone, Copy, PartialEq, Eq)]
enum Wanted {
    First,
    InStep,
    OutOfStep(u16),
}

fn wanted_of(told: Told) -> Wanted {
    match told {
        Told::First => Wanted::First,
        Told::InStep => Wanted::InStep,
        Told::OutOfStep { next } => Wanted::OutOfStep(next.get()),
    }
}

/// What the last status reply of these events tells.
fn last_told(events: &[Event]) -> Option<Wanted> {
    let mut steps = Steps::new();
    let mut last = None;
    for event in events {
        match *event {
            Ask => steps.ask(),
            Send(id) => steps.send(Id::new(id)?),
            Reply(id) => steps.reply(Id::new(id)?),
            Status(id) => last = Some(wanted_of(steps.status(Id::new(id)?))),
        }
    }
    last
}

/// Events at a link, and what the last status reply of them tells.
const STEPS: [(&[Event], Wanted); 11] = [
    (&[Ask, Status(9)], Wanted::First),
    // two packets under way: the board may have executed none, one or both
    (
        &[Ask, Status(9), Send(9), Send(10), Ask, Status(9)],
        Wanted::InStep,
    ),
    (
        &[Ask, Status(9), Send(9), Send(10), Ask, Status(11)],
        Wanted::InStep,
    ),
    // what was replied to was executed: three old status replies in a row, each asked for
    (
        &[
            Ask,
            Status(9),
            Send(9),
            Reply(9),
            Ask,
            Status(9),
            Ask,
            Status(9),
            Ask,
            Status(9),
        ],
        Wanted::OutOfStep(10),
    ),
    // the board is ahead of its hub
    (
        &[
            Ask,
            Status(9),
            Send(9),
            Ask,
            Status(30),
            Ask,
            Status(30),
            Ask,
            Status(30),
        ],
        Wanted::OutOfStep(9),
    ),
    // copies of one answer count once
    (
        &[
            Ask,
            Status(9),
            Send(9),
            Reply(9),
            Ask,
            Status(9),
            Status(9),
            Status(9),
            Status(9),
        ],
        Wanted::InStep,
    ),
    // a reply in between begins the count again
    (
        &[
            Ask,
            Status(9),
            Send(9),
            Reply(9),
            Ask,
            Status(9),
            Ask,
            Status(9),
            Send(10),
            Reply(10),
            Ask,
            Status(9),
        ],
        Wanted::InStep,
    ),
    // so does a status reply that can be
    (
        &[
            Ask,
            Status(9),
            Send(9),
            Reply(9),
            Ask,
            Status(9),
            Ask,
            Status(9),
            Ask,
            Status(10),
            Ask,
            Status(9),
        ],
        Wanted::InStep,
    ),
    // a packet that is sent again is no new one
    (
        &[
            Ask,
            Status(9),
            Send(9),
            Send(9),
            Ask,
            Status(11),
            Ask,
            Status(11),
            Ask,
            Status(11),
        ],
        Wanted::OutOfStep(9),
    ),
    // identifiers begin again at 1
    (
        &[Ask, Status(65_535), Send(65_535), Send(1), Ask, Status(2)],
        Wanted::InStep,
    ),
    (
        &[
            Ask,
            Status(65_535),
            Send(65_535),
            Reply(65_535),
            Ask,
            Status(65_535),
            Ask,
            Status(65_535),
            Ask,
            Status(65_535),
        ],
        Wanted::OutOfStep(1),
    ),
];

#[test]
fn a_board_is_out_of_step(rt: HostRuntime) {
    for (events, wanted) in &STEPS {
        assert!(rt; last_told(events) == Some(*wanted));
    }
}

/// The line that is due last, in a time of so many milliseconds, where a board falls silent and answers at these.
fn last_line(changes: &[(u64, bool)], at: u64) -> Option<Line> {
    let mut pace = Pace::new();
    for (time, is_silent) in changes {
        pace.change(*is_silent);
        let _ = pace.due(Duration::from_millis(*time));
    }
    pace.due(Duration::from_millis(at))
}

fn line(is_silent: bool, left_out: u32) -> Option<Line> {
    Some(Line {
        is_silent,
        left_out,
    })
}

#[test]
fn a_line_a_second(rt: HostRuntime) {
    // it was said at once that the board is silent, and nothing is new
    assert!(rt; last_line(&[(5, true)], 5000) == None);
    // it answers again, which is said a second behind the first line
    assert!(rt; last_line(&[(5, true), (100, false)], 1004) == None);
    assert!(rt; last_line(&[(5, true), (100, false)], 1005) == line(false, 0));
    // two lines are left out
    let often = [(5, true), (100, false), (200, true), (300, false)];
    assert!(rt; last_line(&often, 1005) == line(false, 2));
    // it is as it was said
    assert!(rt; last_line(&[(5, true), (100, false), (200, true)], 1005) == None);
}

/// Frames of board 1, a reply of one word, and codes 1, 8 and 8, the last of board 3.
const FRAMES: [u8; 52] = [
    0, 0, 0, 12, 0, 0, 0, 1, 0, 0, 0, 0, 0x20, 0, 8, 0xf0, 0, 0, 0, 8, 0, 0, 0, 1, 0, 1, 0, 0, 0,
    0, 0, 8, 0, 0, 0, 1, 0, 8, 0, 0, 0, 0, 0, 8, 0, 0, 0, 3, 0, 8, 0, 0,
];

/// The boards that are full by these frames, read in pieces of so many bytes; none, where a piece has no byte.
fn full_by(piece: usize) -> u32 {
    let mut codes = ReplyCodes::new();
    let mut boards = 0;
    if piece > 0 {
        for part in FRAMES.chunks(piece) {
            boards |= codes.read(part);
        }
    }
    boards
}

#[test]
fn full_boards_are_found(rt: HostRuntime) {
    for piece in [1, 2, 3, 7, 11, 16, 52] {
        assert!(rt; full_by(piece) == 0b1010);
    }
}
