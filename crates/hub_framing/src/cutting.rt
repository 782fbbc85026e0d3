//! Cutting whole frames off the front of bytes.

ghost use Rattle.std.specs.Prelude.{◌≡◌, ◌++◌, ◌≤◌, ◌-◌, IfOk, OnOk, OnErr, MatchOption, length, drop, vec_len};
ghost use Rattle.std.specs.List.{AllByRecursion};
ghost use Rattle.hub_framing.specs.Frames.{IsFrame, frame_bytes, frames_bytes, length_field};
ghost use Rattle.hub_framing.specs.Inside.{IsRest, IsWhole};

use crate::NoMemory;
use crate::frame::{Frame, MAX_FRAME_LENGTH, MIN_FRAME_LENGTH};
use std::alloc::Global;
use std::collections::VecDeque;

// The big-endian number at the front.
pub(crate) fn word_at_front(bytes: &[u8]) -> u32
    requires { 4 ≤ length bytes.now }
    ensures { result ≡ length_field bytes.now }
{
    u32::from_be_bytes([bytes[0], bytes[1], bytes[2], bytes[3]])
}

// How many bytes the frame at the front takes, where it is whole.
fn first_frame_len(bytes: &[u8]) -> Option<usize>
    ensures { MatchOption result (IsRest bytes.now) (λ count. IsWhole count bytes.now) }
{
    if bytes.len() < 4 {
        return None;
    }
    let length = word_at_front(bytes);
    if length < MIN_FRAME_LENGTH || length > MAX_FRAME_LENGTH {
        return None;
    }
    let count = 4 + length as usize;
    if bytes.len() < count {
        return None;
    }
    Some(count)
}

// The frame that the first `count` bytes are.
fn frame_of(alloc: Global, bytes: &[u8], count: usize) -> Result<Frame, NoMemory>
    requires { IsWhole count bytes.now }
    ensures { IfOk result (λ frame. IsFrame frame × (bytes.now ≡ frame_bytes frame ++ drop count bytes.now)) }
{
    let board = word_at_front(&bytes[4..]);
    let packet = Vec::from_slice(alloc, &bytes[8..count])?;
    Ok(Frame { board, packet })
}

// Puts the frame that the first `count` bytes are behind the frames.
#[tactic(auto, using(crate::proofs::FrameLemmas::one_more_frame, crate::proofs::FrameLemmas::one_more_spelling))]
fn push_frame(frames: &mut VecDeque<Frame>, bytes: &[u8], count: usize) -> Result<(), NoMemory>
    requires { IsWhole count bytes.now }
    ensures stream { OnOk result (frames_bytes frames.old.items ++ bytes.now
        ≡ frames_bytes frames.new.items ++ drop count bytes.now) }
    ensures each { OnOk result (AllByRecursion IsFrame frames.old.items → AllByRecursion IsFrame frames.new.items) }
{
    let frame = frame_of(*frames.allocator(), bytes, count)?;
    frames.push_back(frame)?;
    Ok(())
}

// The whole frames at the front, and how many bytes they take.
fn frames_of(alloc: Global, bytes: &[u8]) -> Result<(VecDeque<Frame>, usize), NoMemory>
    ensures within { IfOk result (λ cut. cut.1 ≤ length bytes.now) }
    ensures stream { IfOk result (λ cut. bytes.now ≡ frames_bytes cut.0.items ++ drop cut.1 bytes.now) }
    ensures each { IfOk result (λ cut. AllByRecursion IsFrame cut.0.items) }
    ensures rest { IfOk result (λ cut. IsRest (drop cut.1 bytes.now)) }
{
    let mut frames = VecDeque::new(alloc);
    let mut taken = 0;
    'cutting: while let Some(count) = first_frame_len(&bytes[taken..]) {
        push_frame(&mut frames, &bytes[taken..], count)?;
        taken += count;
    }
    Ok((frames, taken))
}

// Takes the first `count` bytes away.
fn remove_front(bytes: &mut Vec<u8>, count: usize)
    requires { count ≤ vec_len bytes.old }
    ensures { bytes.new.items ≡ drop count bytes.old.items }
{
    if count > 0 {
        let len = bytes.len();
        bytes.copy_within(count..len, 0);
        bytes.truncate(len - count);
    }
}

// Moves the whole frames at the front of the bytes behind the frames that wait. After `NoMemory` both are as before.
#[tactic(auto, using(crate::proofs::FrameLemmas::more_frames))]
pub(crate) fn move_frames(
    bytes: &mut Vec<u8>,
    waiting: &mut VecDeque<Frame>,
) -> Result<(), NoMemory>
    ensures stream { OnOk result (frames_bytes waiting.new.items ++ bytes.new.items
        ≡ frames_bytes waiting.old.items ++ bytes.old.items) }
    ensures each { AllByRecursion IsFrame waiting.old.items → AllByRecursion IsFrame waiting.new.items }
    ensures rest { OnOk result (IsRest bytes.new.items) }
    ensures refused { OnErr result ((bytes.new.items ≡ bytes.old.items) × (waiting.new.items ≡ waiting.old.items)) }
{
    let alloc = *bytes.allocator();
    let (mut frames, taken) = frames_of(alloc, bytes.as_slice())?;
    waiting.append(&mut frames)?;
    remove_front(bytes, taken);
    Ok(())
}
