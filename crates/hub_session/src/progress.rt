//! How far a connection has come, and writing what it answers.

ghost use Rattle.std.specs.Prelude.{◌≡◌, ◌<◌, ℕ, List, [], Option, Err, IfErr, OnOk, OnErr, length, take, IsErr};
ghost use Rattle.std.specs.Io.KnownBytes.{append_known};
ghost use Rattle.ipb_outside.specs.Faults.{RisesExactlyIf};
ghost use Rattle.hub_lane.specs.declared.answers.BoardState.{BoardState};
ghost use Rattle.hub_multiplexer.specs.Seats.{SeatState};
ghost use Rattle.hub_session.specs.Inside.{AreWholeIn, ComesToEnd, GoesOn, NoneWaits, standing};

use crate::served::SessionEnd;
use hub_framing::Framer;
use ipb_outside::{Failed, Sink};
use std::alloc::Global;

/// Reply frames that wait to be written, one behind the other, and how many bytes each of them has.
#[derive(Drop)]
pub(crate) struct Replies {
    pub(crate) bytes: Vec<u8>,
    pub(crate) lengths: Vec<usize>,
}

/// How far a connection has come: what came and is not answered, the replies that are not written, and how many are.
#[derive(Drop)]
pub(crate) struct Progress {
    pub(crate) framer: Framer,
    pub(crate) replies: Replies,
    pub(crate) frames: u64,
}

impl Progress {
    /// The progress of a connection from which nothing came yet.
    pub(crate) fn new(alloc: Global) -> Progress
        ensures held { result.framer ≡ [] }
        ensures bytes { result.replies.bytes.items ≡ [] }
        ensures waits { NoneWaits result }
        ensures frames { result.frames ≡ 0 }
    {
        Progress {
            framer: Framer::new(alloc),
            replies: Replies {
                bytes: Vec::new(alloc),
                lengths: Vec::new(alloc),
            },
            frames: 0,
        }
    }
}

/// Writes all of `bytes`. At a fault it answers how many of them were written before.
#[tactic(auto, using(ipb_outside::proofs::Told::written_more))]
fn write_counted<O: Sink>(sink: &mut O, bytes: &[u8]) -> Result<(), usize>
    ensures whole { OnOk result (O.written sink.new ≡ append_known (O.written sink.old) bytes.now) }
    ensures part { IfErr result (λ done. (done < length bytes.now)
        × (O.written sink.new ≡ append_known (O.written sink.old) (take done bytes.now))) }
    ensures faults { RisesExactlyIf (IsErr result) (O.faults sink.old) (O.faults sink.new) }
{
    let mut done = 0;
    'writing: while done < bytes.len() {
        match sink.write(&bytes[done..]) {
            Ok(count) => done += count,
            Err(Failed) => return Err(done),
        }
    }
    Ok(())
}

/// How many replies with these lengths are whole in their first `count` bytes.
fn whole_in(lengths: &[usize], count: usize) -> usize
    ensures { AreWholeIn lengths.now count result }
{
    let mut whole = 0;
    let mut rest = count;
    'counting: while whole < lengths.len() && lengths[whole] <= rest {
        rest -= lengths[whole];
        whole += 1;
    }
    whole
}

/// Writes the replies that wait, and counts those that were written whole.
pub(crate) fn write_replies<O: Sink>(
    sink: &mut O,
    progress: &mut Progress,
) -> Result<(), SessionEnd>
    ensures held { progress.new.framer ≡ progress.old.framer }
    ensures goes_on { OnOk result ((map : List BoardState) (seat : SeatState) (left : Option (List ℕ))
        (held : List ℕ) → GoesOn map (standing seat left (O.written sink.old) held progress.old)
        (standing seat left (O.written sink.new) held progress.new)) }
    ensures waits { OnOk result (NoneWaits progress.new) }
    ensures ends { OnErr result ((map : List BoardState) (seat : SeatState) (left : Option (List ℕ))
        (held : List ℕ) → ComesToEnd map (standing seat left (O.written sink.old) held progress.old)
        (standing seat left (O.written sink.new) held progress.new) SessionEnd.WriteFault) }
    ensures only { IfErr result (λ end. end ≡ SessionEnd.WriteFault) }
    ensures faults { RisesExactlyIf (result ≡ Err SessionEnd.WriteFault) (O.faults sink.old) (O.faults sink.new) }
{
    let replies = &mut progress.replies;
    match write_counted(sink, replies.bytes.as_slice()) {
        Ok(()) => {
            progress.frames = progress.frames.saturating_add(replies.lengths.len() as u64);
            replies.bytes.clear();
            replies.lengths.clear();
            Ok(())
        }
        Err(done) => {
            let whole = whole_in(replies.lengths.as_slice(), done);
            progress.frames = progress.frames.saturating_add(whole as u64);
            Err(SessionEnd::WriteFault)
        }
    }
}
