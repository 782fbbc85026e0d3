//! Serving a connection: pieces of the input, the frames that each completes, and their answers.

ghost use Rattle.std.specs.Prelude.{◌≡◌, ◌≢◌, ◌<◌, ◌++◌, ◌⊎◌, ℕ, List, Err, Some, Option, true};
ghost use Rattle.std.specs.Prelude.{IfErr, OnErr, OnOk, length};
ghost use Rattle.std.specs.List.{AllByRecursion};
ghost use Rattle.ipb_outside.specs.Faults.{RisesExactlyIf};
ghost use Rattle.ipb_base.specs.Faults.{Rose};
ghost use Rattle.ipb_base.specs.Numbers.{in_64_bits};
ghost use Rattle.hub_lane.specs.declared.answers.BoardState.{BoardState as StateOfBoard};
ghost use Rattle.hub_multiplexer.specs.OwnItems.{HasAskedAll};
ghost use Rattle.hub_multiplexer.specs.Seats.{IsSeatOf, SeatState};
ghost use Rattle.hub_framing.specs.Frames.{RequestFrame, IsBegun, IsFrame, IsFrameStream, IsTooLong, IsTooShort};
ghost use Rattle.hub_framing.specs.Frames.{frame_bytes};
ghost use Rattle.hub_session.specs.Serving.{IsByInput, IsEndAt, IsLaneBelow, IsServed, IsUnused};
ghost use Rattle.hub_session.specs.Inside.{ComesToEnd, GoesOn, HasAnswered, IsAtInputEnd, IsSameSeat};
ghost use Rattle.hub_session.specs.Inside.{IsSettled, NoneWaits, StandsOf, standing};

use crate::answering::{answer_frame, state_at};
use crate::asking::may_wait;
use crate::boards::Boards;
use crate::progress::{Progress, Replies, write_replies};
use crate::served::{Served, SessionEnd};
use hub_framing::{Frame, Framer};
use hub_lane::BoardState;
use hub_multiplexer::{Hub, Link, NoMemory, Seat};
use ipb_outside::{Failed, Sink, Source};
use std::alloc::Global;
use std::sync::Wait;

// How many bytes are read at once, at most.
const PIECE: usize = 4096;

// Replies are written once they have so many bytes together, even where more frames of the piece wait: a short request
// may have a long reply, and so no client makes a hub keep more than these bytes and one reply.
const MOST_WAITING: usize = 65_536;

/// Puts the answer to a frame behind the replies.
fn push_answer<R: Wait, L: Link + Send>(
    rt: &R,
    boards: &Boards<L>,
    seat: &mut Seat,
    replies: &mut Replies,
    frame: &Frame,
) -> Result<(), NoMemory>
    requires lanes { AllByRecursion (IsLaneBelow (length boards.now.hub.now.turns)) boards.now.map.now }
    requires seat { IsSeatOf boards.now.hub.now seat.old }
    requires settled { AllByRecursion IsSettled seat.old.knows }
    ensures same { IsSameSeat seat.old seat.new }
    ensures settled { OnOk result (AllByRecursion IsSettled seat.new.knows) }
    ensures answered { OnOk result (HasAnswered boards.now.map.now frame.now seat.old seat.new replies.old replies.new) }
    ensures stands { OnErr result (StandsOf boards.now.map.now frame.now seat.old seat.new) }
{
    let before = replies.bytes.len();
    answer_frame(rt, boards, seat, frame, &mut replies.bytes)?;
    replies.lengths.push(replies.bytes.len() - before)?;
    Ok(())
}

/// Writes the replies that wait, where the answer to a frame may have to wait for a board.
fn write_before_waiting<L: Link + Send, O: Sink>(
    boards: &Boards<L>,
    sink: &mut O,
    progress: &mut Progress,
    frame: &Frame,
) -> Result<(), SessionEnd>
    requires lanes { AllByRecursion (IsLaneBelow (length boards.now.hub.now.turns)) boards.now.map.now }
    ensures held { progress.new.framer ≡ progress.old.framer }
    ensures goes_on { OnOk result ((map : List StateOfBoard) (seat : SeatState) (left : Option (List ℕ))
        (held : List ℕ) → GoesOn map (standing seat left (O.written sink.old) held progress.old)
        (standing seat left (O.written sink.new) held progress.new)) }
    ensures ends { OnErr result ((map : List StateOfBoard) (seat : SeatState) (left : Option (List ℕ))
        (held : List ℕ) → ComesToEnd map (standing seat left (O.written sink.old) held progress.old)
        (standing seat left (O.written sink.new) held progress.new) SessionEnd.WriteFault) }
    ensures only { IfErr result (λ end. end ≡ SessionEnd.WriteFault) }
    ensures faults { RisesExactlyIf (result ≡ Err SessionEnd.WriteFault) (O.faults sink.old) (O.faults sink.new) }
{
    let state = state_at(boards.map, frame.board);
    if may_wait(boards.hub, state) {
        write_replies(sink, progress)
    } else {
        Ok(())
    }
}

/// Answers one frame, and writes the replies where they have become many bytes.
fn answer_one<R: Wait, L: Link + Send, O: Sink>(
    rt: &R,
    boards: &Boards<L>,
    seat: &mut Seat,
    sink: &mut O,
    progress: &mut Progress,
    frame: &Frame,
) -> Result<(), SessionEnd>
    requires lanes { AllByRecursion (IsLaneBelow (length boards.now.hub.now.turns)) boards.now.map.now }
    requires seat { IsSeatOf boards.now.hub.now seat.old }
    requires settled { AllByRecursion IsSettled seat.old.knows }
    requires frame { IsFrame frame.now }
    ensures same { IsSameSeat seat.old seat.new }
    ensures settled { result ≢ Err SessionEnd.NoMemory → AllByRecursion IsSettled seat.new.knows }
    ensures held { progress.new.framer ≡ progress.old.framer }
    ensures goes_on { OnOk result ((left : Option (List ℕ)) → GoesOn boards.now.map.now
        (standing seat.old left (O.written sink.old) (frame_bytes frame.now ++ progress.old.framer) progress.old)
        (standing seat.new left (O.written sink.new) progress.new.framer progress.new)) }
    ensures ends { IfErr result (λ end. (left : Option (List ℕ)) → ComesToEnd boards.now.map.now
        (standing seat.old left (O.written sink.old) (frame_bytes frame.now ++ progress.old.framer) progress.old)
        (standing seat.new left (O.written sink.new) progress.new.framer progress.new) end) }
    ensures not_read { result ≢ Err SessionEnd.ReadFault }
    ensures faults { RisesExactlyIf (result ≡ Err SessionEnd.WriteFault) (O.faults sink.old) (O.faults sink.new) }
{
    match push_answer(rt, boards, seat, &mut progress.replies, frame) {
        Ok(()) => {
            if progress.replies.bytes.len() < MOST_WAITING {
                return Ok(());
            }
            write_replies(sink, progress)
        }
        Err(NoMemory) => Err(SessionEnd::NoMemory),
    }
}

/// Answers one frame. Where that may have to wait for a board, the replies that are there are written before.
fn answer_next<R: Wait, L: Link + Send, O: Sink>(
    rt: &R,
    boards: &Boards<L>,
    seat: &mut Seat,
    sink: &mut O,
    progress: &mut Progress,
    frame: &Frame,
) -> Result<(), SessionEnd>
    requires lanes { AllByRecursion (IsLaneBelow (length boards.now.hub.now.turns)) boards.now.map.now }
    requires seat { IsSeatOf boards.now.hub.now seat.old }
    requires settled { AllByRecursion IsSettled seat.old.knows }
    requires frame { IsFrame frame.now }
    ensures same { IsSameSeat seat.old seat.new }
    ensures settled { result ≢ Err SessionEnd.NoMemory → AllByRecursion IsSettled seat.new.knows }
    ensures held { progress.new.framer ≡ progress.old.framer }
    ensures goes_on { OnOk result ((left : Option (List ℕ)) → GoesOn boards.now.map.now
        (standing seat.old left (O.written sink.old) (frame_bytes frame.now ++ progress.old.framer) progress.old)
        (standing seat.new left (O.written sink.new) progress.new.framer progress.new)) }
    ensures ends { IfErr result (λ end. (left : Option (List ℕ)) → ComesToEnd boards.now.map.now
        (standing seat.old left (O.written sink.old) (frame_bytes frame.now ++ progress.old.framer) progress.old)
        (standing seat.new left (O.written sink.new) progress.new.framer progress.new) end) }
    ensures not_read { result ≢ Err SessionEnd.ReadFault }
    ensures faults { RisesExactlyIf (result ≡ Err SessionEnd.WriteFault) (O.faults sink.old) (O.faults sink.new) }
{
    if let Err(end) = write_before_waiting(boards, sink, progress, frame) {
        return Err(end);
    }
    answer_one(rt, boards, seat, sink, progress, frame)
}

/// The end at a length field out of range. The answers that wait are written before.
fn end_at_bad_frame<O: Sink>(sink: &mut O, progress: &mut Progress) -> SessionEnd
    ensures ends { (map : List StateOfBoard) (seat : SeatState) (left : Option (List ℕ)) (held : List ℕ)
        → IsTooLong held ⊎ IsTooShort held
        → ComesToEnd map (standing seat left (O.written sink.old) held progress.old)
        (standing seat left (O.written sink.new) held progress.new) result }
    ensures not_read { result ≢ SessionEnd.ReadFault }
    ensures faults { RisesExactlyIf (result ≡ SessionEnd.WriteFault) (O.faults sink.old) (O.faults sink.new) }
{
    match write_replies(sink, progress) {
        Ok(()) => SessionEnd::BadFrame,
        Err(end) => end,
    }
}

/// Answers the frames that are whole, in order, and writes all answers.
fn answer_waiting<R: Wait, L: Link + Send, O: Sink>(
    rt: &R,
    boards: &Boards<L>,
    seat: &mut Seat,
    sink: &mut O,
    progress: &mut Progress,
) -> Result<(), SessionEnd>
    requires lanes { AllByRecursion (IsLaneBelow (length boards.now.hub.now.turns)) boards.now.map.now }
    requires seat { IsSeatOf boards.now.hub.now seat.old }
    requires settled { AllByRecursion IsSettled seat.old.knows }
    ensures same { IsSameSeat seat.old seat.new }
    ensures settled { result ≢ Err SessionEnd.NoMemory → AllByRecursion IsSettled seat.new.knows }
    ensures goes_on { OnOk result ((left : Option (List ℕ)) → GoesOn boards.now.map.now
        (standing seat.old left (O.written sink.old) progress.old.framer progress.old)
        (standing seat.new left (O.written sink.new) progress.new.framer progress.new)) }
    ensures begun { OnOk result (IsBegun progress.new.framer) }
    ensures waits { OnOk result (NoneWaits progress.new) }
    ensures ends { IfErr result (λ end. (left : Option (List ℕ)) → ComesToEnd boards.now.map.now
        (standing seat.old left (O.written sink.old) progress.old.framer progress.old)
        (standing seat.new left (O.written sink.new) progress.new.framer progress.new) end) }
    ensures not_read { result ≢ Err SessionEnd.ReadFault }
    ensures faults { RisesExactlyIf (result ≡ Err SessionEnd.WriteFault) (O.faults sink.old) (O.faults sink.new) }
{
    for _ in rt.forever() {
        match progress.framer.next() {
            Ok(Some(frame)) => {
                if let Err(end) = answer_next(rt, boards, seat, sink, progress, &frame) {
                    return Err(end);
                }
            }
            Ok(None) => return write_replies(sink, progress),
            Err(_refusal) => return Err(end_at_bad_frame(sink, progress)),
        }
    }
    unreachable!()
}

/// The end of an input, which is behind a whole frame or within one.
fn end_of_input(framer: &Framer) -> SessionEnd
    requires { IsBegun framer.now }
    ensures ends { IsEndAt framer.now result }
    ensures input { IsAtInputEnd result }
{
    if framer.rest() == 0 {
        SessionEnd::Closed
    } else {
        SessionEnd::CutFrame
    }
}

/// Reads one piece of the input, of as many bytes as came.
fn read_piece<S: Source>(
    src: &mut S,
    progress: &mut Progress,
    buf: &mut [u8],
) -> Result<(), SessionEnd>
    requires room { 0 < length buf.old }
    requires begun { IsBegun progress.old.framer }
    requires waits { NoneWaits progress.old }
    ensures room { length buf.new ≡ length buf.old }
    ensures goes_on { OnOk result ((map : List StateOfBoard) (seat : SeatState) (written : Option (List ℕ)) → GoesOn map
        (standing seat (S.left src.old) written progress.old.framer progress.old)
        (standing seat (S.left src.new) written progress.new.framer progress.new)) }
    ensures ends { IfErr result (λ end. (map : List StateOfBoard) (seat : SeatState) (written : Option (List ℕ))
        → ComesToEnd map (standing seat (S.left src.old) written progress.old.framer progress.old)
        (standing seat (S.left src.new) written progress.new.framer progress.new) end) }
    ensures not_written { result ≢ Err SessionEnd.WriteFault }
    ensures faults { RisesExactlyIf (result ≡ Err SessionEnd.ReadFault) (S.faults src.old) (S.faults src.new) }
{
    match src.read(buf) {
        Ok(0) => Err(end_of_input(&progress.framer)),
        Ok(count) => {
            match progress.framer.feed(&buf[..count]) {
                Ok(()) => Ok(()),
                Err(NoMemory) => Err(SessionEnd::NoMemory),
            }
        }
        Err(Failed) => Err(SessionEnd::ReadFault),
    }
}

/// Reads piece after piece, and answers their frames, until one of the ends comes.
fn serve_to_end<R: Wait, L: Link + Send, S: Source, O: Sink>(
    rt: &R,
    boards: &Boards<L>,
    seat: &mut Seat,
    src: &mut S,
    sink: &mut O,
    progress: &mut Progress,
) -> SessionEnd
    requires lanes { AllByRecursion (IsLaneBelow (length boards.now.hub.now.turns)) boards.now.map.now }
    requires seat { IsSeatOf boards.now.hub.now seat.old }
    requires settled { AllByRecursion IsSettled seat.old.knows }
    requires begun { IsBegun progress.old.framer }
    requires waits { NoneWaits progress.old }
    ensures same { IsSameSeat seat.old seat.new }
    ensures settled { result ≢ SessionEnd.NoMemory → AllByRecursion IsSettled seat.new.knows }
    ensures ends { ComesToEnd boards.now.map.now
        (standing seat.old (S.left src.old) (O.written sink.old) progress.old.framer progress.old)
        (standing seat.new (S.left src.new) (O.written sink.new) progress.new.framer progress.new) result }
    ensures read_faults { RisesExactlyIf (result ≡ SessionEnd.ReadFault) (S.faults src.old) (S.faults src.new) }
    ensures write_faults { RisesExactlyIf (result ≡ SessionEnd.WriteFault) (O.faults sink.old) (O.faults sink.new) }
{
    let mut buf = [0; PIECE];
    for _ in rt.forever() {
        if let Err(end) = read_piece(src, progress, &mut buf) {
            return end;
        }
        if let Err(end) = answer_waiting(rt, boards, seat, sink, progress) {
            return end;
        }
    }
    unreachable!()
}

/// Serves a connection of which nothing was read yet, until one of the ends comes.
fn serve_pieces<R: Wait, L: Link + Send, S: Source, O: Sink>(
    rt: &R,
    alloc: Global,
    boards: &Boards<L>,
    seat: &mut Seat,
    src: &mut S,
    sink: &mut O,
) -> Served
    requires lanes { AllByRecursion (IsLaneBelow (length boards.now.hub.now.turns)) boards.now.map.now }
    requires seat { IsSeatOf boards.now.hub.now seat.old }
    requires unused { AllByRecursion IsUnused seat.old.knows }
    requires settled { AllByRecursion IsSettled seat.old.knows }
    ensures same { IsSameSeat seat.old seat.new }
    ensures settled { result.end ≢ SessionEnd.NoMemory → AllByRecursion IsSettled seat.new.knows }
    ensures served { IsServed boards.now.map.now seat.old seat.new (S.left src.old) (S.left src.new)
        (O.written sink.old) (O.written sink.new) result }
    ensures read_faults { RisesExactlyIf (result.end ≡ SessionEnd.ReadFault) (S.faults src.old) (S.faults src.new) }
    ensures write_faults { RisesExactlyIf (result.end ≡ SessionEnd.WriteFault) (O.faults sink.old) (O.faults sink.new) }
{
    let mut progress = Progress::new(alloc);
    let end = serve_to_end(rt, boards, seat, src, sink, &mut progress);
    Served {
        frames: progress.frames,
        end,
    }
}

/// Serves the connection of a client under a seat of the hub: it answers each request frame that comes from the source
/// by one reply frame to the sink, in order (profile). The answers to the frames that came whole in what was read are
/// written together, before it reads again, and before it waits for a board whose link has what waits. `map` says how
/// the board at each position stands. The seat made no call yet, and its client has no entry on any lane. It reads to the
/// end of the input, or to a length field out of range, unless a fault or want of memory ends it before; its last call
/// on the sink is `end`. After want of memory the source, the sink and the seat stand as the calls on them left them. A
/// frame for a lane on which planning was closed before is answered as that of a full lane.
pub fn serve_one<L: Link + Send, S: Source, O: Sink, R: Wait>(
    rt: &R,
    alloc: Global,
    hub: &Hub<L>,
    map: &[BoardState],
    seat: &mut Seat,
    src: &mut S,
    sink: &mut O,
) -> Served
    requires seat { IsSeatOf hub.now seat.old }
    requires unused { AllByRecursion IsUnused seat.old.knows }
    requires lanes { AllByRecursion (IsLaneBelow (length hub.now.turns)) map.now }

    ensures served { IsServed map.now seat.old seat.new (S.left src.old) (S.left src.new)
        (O.written sink.old) (O.written sink.new) result }
    ensures sink_ended { O.ended sink.new ≡ true }

    // The seat stays one of the hub, of the same client, and has asked all that it planned.
    ensures seat { IsSeatOf hub.now seat.new }
    ensures client { seat.new.client ≡ seat.old.client }
    ensures asked_all { result.end ≢ SessionEnd.NoMemory → (board : ℕ) → HasAskedAll seat.new board }

    // The faults of reading and of writing come only from the source and from the sink.
    ensures read_faults { RisesExactlyIf (result.end ≡ SessionEnd.ReadFault) (S.faults src.old) (S.faults src.new) }
    ensures write_faults { RisesExactlyIf (result.end ≡ SessionEnd.WriteFault) (O.faults sink.old) (O.faults sink.new) }

    // Where no fault came and memory did not run out, the input decides how it ends: of a source that tells, by what is
    // behind the frames of all its bytes, and these frames are all answered.
    ensures faultless { ¬ Rose (S.faults src.old) (S.faults src.new) → ¬ Rose (O.faults sink.old) (O.faults sink.new)
        → result.end ≢ SessionEnd.NoMemory → IsByInput result.end }
    ensures told { (bytes : List ℕ) (frames : List RequestFrame) (rest : List ℕ) → S.left src.old ≡ Some bytes
        → IsFrameStream bytes frames rest → IsByInput result.end
        → IsEndAt rest result.end × (result.frames ≡ in_64_bits (length frames)) }
{
    let served = serve_pieces(rt, alloc, &Boards { hub, map }, seat, src, sink);
    sink.end();
    served
}
