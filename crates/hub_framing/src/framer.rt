//! A framer takes a stream piece by piece and hands its frames out.

ghost use Rattle.std.specs.Prelude.{[], ◌≡◌, ◌≤◌, ◌++◌, ◌↔◌, ℕ, List, Ok, Err, None, Some, IfOk, IfSome, OnOk, OnErr};
ghost use Rattle.std.specs.Prelude.{length};
ghost use Rattle.hub_framing.specs.Frames.{IsFrame, IsTooLong, IsTooShort, IsBegun, IsFrameStream, RequestFrame};
ghost use Rattle.hub_framing.specs.Frames.{frame_bytes};
ghost use Rattle.hub_framing.specs.Inside.{IsRest};

use crate::cutting::{move_frames, word_at_front};
use crate::{Frame, MAX_FRAME_LENGTH, MIN_FRAME_LENGTH, NoMemory};
use std::alloc::Global;
use std::collections::VecDeque;
use std::error::Error;
use std::fmt;
use std::marker::Model;

/// Why no frame comes from a stream any more.
#[derive(Clone, Copy, Debug, PartialEq, Eq)]
pub enum FrameRefusal {
    /// The length field is above 8976.
    TooLong,
    /// The length field is below 8.
    TooShort,
}

impl fmt::Display for FrameRefusal {
    fn fmt<W: fmt::Write>(&self, f: &mut fmt::Formatter<W>) -> fmt::Result {
        match self {
            FrameRefusal::TooLong => write!(f, "the length of a frame is above 8976"),
            FrameRefusal::TooShort => write!(f, "the length of a frame is below 8"),
        }
    }
}

impl Error for FrameRefusal {}

/// Cuts a stream of bytes into request frames. Contracts see the bytes that were fed and are in no frame that was
/// handed out, in order.
#[derive(Drop)]
pub struct Framer {
    waiting: VecDeque<Frame>,
    begun: Vec<u8>,
}

impl Model for Framer {
    ghost use Rattle.std.specs.Prelude.{ℕ, List, ◌++◌};
    ghost use Rattle.std.specs.List.{AllByRecursion};
    ghost use Rattle.hub_framing.specs.Frames.{IsFrame, frames_bytes};
    ghost use Rattle.hub_framing.specs.Inside.{IsRest};

    ghost Value = { List ℕ };

    ghost view = { λ f. frames_bytes f.waiting.items ++ f.begun.items };

    ghost invariant = { λ f. AllByRecursion IsFrame f.waiting.items × IsRest f.begun.items };
}

impl Framer {
    /// A framer that was fed nothing yet.
    pub fn new(alloc: Global) -> Framer
        ensures { result ≡ [] }
    {
        Framer {
            waiting: VecDeque::new(alloc),
            begun: Vec::new(alloc),
        }
    }

    /// Takes the next piece of the stream, and the room for the frames that are whole by it. After `NoMemory` all is
    /// as before.
    pub fn feed(&mut self, piece: &[u8]) -> Result<(), NoMemory>
        ensures fed { OnOk result (self.new ≡ self.old ++ piece.now) }
        ensures refused { OnErr result (self.new ≡ self.old) }
    {
        let before = self.begun.len();
        self.begun.extend_from_slice(piece)?;
        let moved = move_frames(&mut self.begun, &mut self.waiting);
        if moved.is_err() {
            self.begun.truncate(before);
        }
        moved
    }

    /// Hands out the next frame; it takes no memory. `None` comes where less than a whole frame is left, and its
    /// length field is in range or has not come. A length field out of range is refused at every call from then on.
    pub fn next(&mut self) -> Result<Option<Frame>, FrameRefusal>
        ensures frame { IfOk result (λ next. IfSome next (λ frame.
            IsFrame frame × (self.old ≡ frame_bytes frame ++ self.new))) }
        ensures none { (result ≡ Ok None) ↔ IsBegun self.old }
        ensures too_long { (result ≡ Err FrameRefusal.TooLong) ↔ IsTooLong self.old }
        ensures too_short { (result ≡ Err FrameRefusal.TooShort) ↔ IsTooShort self.old }
        ensures waiting { result ≡ Ok None → self.new ≡ self.old }
        ensures refused { OnErr result (self.new ≡ self.old) }
    {
        if let Some(frame) = self.waiting.pop_front() {
            return Ok(Some(frame));
        }
        check_length(self.begun.as_slice())?;
        Ok(None)
    }

    /// How many bytes are behind the last whole frame: those of a frame that is begun, or of a length field out of
    /// range and what came after it.
    pub fn rest(&self) -> usize
        ensures rest { (frames : List RequestFrame) × (rest : List ℕ)
            × IsFrameStream self.now frames rest × (result ≡ length rest) }
        ensures only { (frames : List RequestFrame) (rest : List ℕ)
            → IsFrameStream self.now frames rest → result ≡ length rest }
    {
        self.begun.len()
    }
}

// Refuses a length field out of range at the front, where it has come.
fn check_length(begun: &[u8]) -> Result<(), FrameRefusal>
    requires { IsRest begun.now }
    ensures begun { OnOk result (IsBegun begun.now) }
    ensures too_long { (result ≡ Err FrameRefusal.TooLong) → IsTooLong begun.now }
    ensures too_short { (result ≡ Err FrameRefusal.TooShort) → IsTooShort begun.now }
{
    if begun.len() < 4 {
        return Ok(());
    }
    let length = word_at_front(begun);
    if length > MAX_FRAME_LENGTH {
        return Err(FrameRefusal::TooLong);
    }
    if length < MIN_FRAME_LENGTH {
        return Err(FrameRefusal::TooShort);
    }
    Ok(())
}
