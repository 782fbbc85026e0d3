//! Connections in memory to a hub of one board over a simulated link.

ghost use Rattle.std.specs.Prelude.{◌≡◌, [], length, IfOk};
ghost use Rattle.std.specs.List.{AllByRecursion};
ghost use Rattle.hub_multiplexer.specs.Seats.{IsSeatOf};
ghost use Rattle.hub_session.specs.Serving.{IsUnused};

use crate::fixtures::lane;
use crate::hub_multiplexer_tests::hub_of;
use hub_multiplexer::{Hub, Lane, Link, Seat};
use hub_session::laws::a_new_seat_is_unused;
use hub_session::{BoardState, SessionEnd, serve_one};
use ipb_outside::{MemSink, MemSource};
use std::alloc::Global;
use std::marker::Send;
use std::sync::Wait;
use std::test::Fail;

/// A frame to board 0 that reads the word at address 4, the same frame to board 7, which is not there, and this frame
/// behind it, and the frame twice; and their answers.
const READ: &[u8] = b"\0\0\0\x10\0\0\0\0\x20\0\0\xf0\x20\0\x01\x0f\0\0\0\x04";

const READ_OF_7_AND_0: &[u8] = b"\0\0\0\x10\0\0\0\x07\x20\0\0\xf0\x20\0\x01\x0f\0\0\0\x04\
    \0\0\0\x10\0\0\0\0\x20\0\0\xf0\x20\0\x01\x0f\0\0\0\x04";

const READ_TWICE: &[u8] = b"\0\0\0\x10\0\0\0\0\x20\0\0\xf0\x20\0\x01\x0f\0\0\0\x04\
    \0\0\0\x10\0\0\0\0\x20\0\0\xf0\x20\0\x01\x0f\0\0\0\x04";

const ANSWER: &[u8] = b"\0\0\0\x14\0\0\0\0\0\0\0\0\x20\0\0\xf0\x20\0\x01\0\0\0\xab\xcd";

const ANSWERS_OF_7_AND_0: &[u8] = b"\0\0\0\x08\0\0\0\x07\0\x05\0\0\
    \0\0\0\x14\0\0\0\0\0\0\0\0\x20\0\0\xf0\x20\0\x01\0\0\0\xab\xcd";

const ANSWER_TWICE: &[u8] = b"\0\0\0\x14\0\0\0\0\0\0\0\0\x20\0\0\xf0\x20\0\x01\0\0\0\xab\xcd\
    \0\0\0\x14\0\0\0\0\0\0\0\0\x20\0\0\xf0\x20\0\x01\0\0\0\xab\xcd";

/// A part of a frame, the frame with a length of 3 behind it, five bytes of its answer, and one byte more than it.
const PART: &[u8] = b"\0\0\0\x10\0\0\0\0\x20\0";

const READ_AND_A_BAD_LENGTH: &[u8] =
    b"\0\0\0\x10\0\0\0\0\x20\0\0\xf0\x20\0\x01\x0f\0\0\0\x04\0\0\0\x03abc";

const FIVE_BYTES: &[u8] = b"\0\0\0\x14\0";

const ANSWER_AND_A_BYTE: &[u8] =
    b"\0\0\0\x14\0\0\0\0\0\0\0\0\x20\0\0\xf0\x20\0\x01\0\0\0\xab\xcd\0";

/// A hub of one board over a lane without entries, and its first seat.
fn hub_and_seat<L: Link + Send + Drop>(alloc: Global, lane: Lane<L>) -> Result<(Hub<L>, Seat), Fail>
    requires { lane.items ≡ [] }
    ensures board { IfOk result (λ made. length made.0.turns ≡ 1) }
    ensures seat { IfOk result (λ made. IsSeatOf made.0 made.1) }
    ensures unused { IfOk result (λ made. AllByRecursion IsUnused made.1.knows) }
{
    a_new_seat_is_unused();
    let (hub, mut master) = hub_of(alloc, lane)?;
    let seat = master.seat(alloc, &hub)?;
    Ok((hub, seat))
}

/// Serves a connection to a hub over this lane. How many of its frames were answered, and why there are no more.
fn served<R: Wait, L: Link + Send + Drop>(
    rt: &R,
    alloc: Global,
    lane: Lane<L>,
    source: &mut MemSource,
    sink: &mut MemSink,
) -> Result<(u64, SessionEnd), Fail>
    requires { lane.items ≡ [] }
{
    let (hub, mut seat) = hub_and_seat(alloc, lane)?;
    let boards = [BoardState::Lane(0)];
    let served = serve_one(rt, alloc, &hub, &boards, &mut seat, source, sink);
    Ok((served.frames, served.end))
}

/// What a client sends, in pieces of so many bytes; how many bytes its sink takes at once; and the numbers of the read
/// and of the write that fail, 0 for none.
type Sent = (&'static [u8], usize, usize, (u64, u64));

/// How many frames are answered, why there are no more, and what is written.
type Wanted = (u64, SessionEnd, &'static [u8]);

/// The two ends of a connection.
fn ends_of(alloc: Global, sent: Sent) -> Result<(MemSource, MemSink), Fail> {
    let (input, piece, take, (read, write)) = sent;
    if piece == 0 || take == 0 {
        return Err("a piece has a byte at least".into());
    }
    let sink = MemSink::new(alloc, take, [write].to_vec(alloc)?)?;
    let source = MemSource::new(input.to_vec(alloc)?, piece, [read].to_vec(alloc)?);
    Ok((source, sink))
}

/// Whether a connection to a hub over this lane is served so.
fn is_served_over<R: Wait, L: Link + Send + Drop>(
    rt: &R,
    alloc: Global,
    lane: Lane<L>,
    sent: Sent,
    wanted: Wanted,
) -> Result<bool, Fail>
    requires { lane.items ≡ [] }
{
    let (frames, end, written) = wanted;
    let (mut source, mut sink) = ends_of(alloc, sent)?;
    let told = served(rt, alloc, lane, &mut source, &mut sink)?;
    Ok(told == (frames, end) && sink.bytes() == written)
}

/// Whether it is over a link that loses nothing.
fn is_served<R: Wait>(rt: &R, alloc: Global, sent: Sent, wanted: Wanted) -> Result<bool, Fail> {
    is_served_over(rt, alloc, lane(alloc, "")?, sent, wanted)
}

/// Whether it is served so in whatever pieces the input comes.
fn is_served_in_pieces<R: Wait>(
    rt: &R,
    alloc: Global,
    input: &'static [u8],
    wanted: Wanted,
) -> Result<bool, Fail> {
    for piece in 1..41 {
        if !is_served(rt, alloc, (input, piece, 5, (0, 0)), wanted)? {
            return Ok(false);
        }
    }
    Ok(true)
}

/// What is sent, in whatever pieces it comes, and what is wanted.
const FRAMES: &[(&[u8], Wanted)] = &[
    (READ, (1, SessionEnd::Closed, ANSWER)),
    (READ_OF_7_AND_0, (2, SessionEnd::Closed, ANSWERS_OF_7_AND_0)),
    (PART, (0, SessionEnd::CutFrame, b"")),
    (READ_AND_A_BAD_LENGTH, (1, SessionEnd::BadFrame, ANSWER)),
];

#[test]
fn frames_are_answered(rt: HostRuntime) -> Result<(), Fail> {
    for (input, wanted) in FRAMES {
        assert!(rt; is_served_in_pieces(&rt, rt.alloc(), input, *wanted)?);
    }
    Ok(())
}

const FAULTS: &[(Sent, Wanted)] = &[
    (
        (READ_TWICE, 20, 5, (2, 0)),
        (1, SessionEnd::ReadFault, ANSWER),
    ),
    (
        (READ_TWICE, 20, 5, (0, 2)),
        (0, SessionEnd::WriteFault, FIVE_BYTES),
    ),
    // two frames that come with one read are answered by one write, so a second write never comes
    (
        (READ_TWICE, 40, 48, (0, 2)),
        (2, SessionEnd::Closed, ANSWER_TWICE),
    ),
    // where each comes with a read of its own, it does
    (
        (READ_TWICE, 20, 48, (0, 2)),
        (1, SessionEnd::WriteFault, ANSWER),
    ),
    // a write that is cut short behind the first answer counts that one
    (
        (READ_TWICE, 40, 5, (0, 6)),
        (1, SessionEnd::WriteFault, ANSWER_AND_A_BYTE),
    ),
];

#[test]
fn faults_end_a_connection(rt: HostRuntime) -> Result<(), Fail> {
    for (sent, wanted) in FAULTS {
        assert!(rt; is_served(&rt, rt.alloc(), *sent, *wanted)?);
    }
    Ok(())
}
