//! What an operation came to, by how the bodies of its pieces ended.

ghost use Rattle.std.specs.Prelude.{◌≡◌, ◌++◌, [], IfOk, OnOk, map, option_map, slice_get};
ghost use Rattle.std.specs.List.{AllByRecursion};
ghost use Rattle.masked_fields.specs.Field.{field};
ghost use Rattle.script_plans.specs.Plan.{IsWithinBody};
ghost use Rattle.transcript.specs.Ends.{answer_result, late_at, late_of, piece_result, piece_place};
ghost use Rattle.transcript.specs.Results as spec;
ghost use Rattle.transcript.specs.Steps.{not_done_in, or_value};

use crate::body_end::{BodyEnd, Told};
use crate::line::{LateAnswer, OpResult};
use ipb_base::{NoMemory, Words};
use masked_fields::extract;
use reply_join::{Answer, Answers};
use script_plans::PieceAt;
use script_steps::{RegOp, Verb};
use std::alloc::Global;

/// Adds the values of a transaction's answer. Where it failed, what it came to.
fn answer_fault(
    answers: &[Answer],
    index: u16,
    words: &mut Vec<u32>,
) -> Result<Option<OpResult>, NoMemory>
    ensures fault { IfOk result (λ fault. fault ≡ not_done_in (answer_result (slice_get answers.now index))) }
    ensures values { let came_to = answer_result (slice_get answers.now index) in
        OnOk result (words.new.items ≡ words.old.items ++ spec.values_in came_to) }
{
    match answers.get(index as usize) {
        Some(Answer::Values(values)) => {
            words.extend_from_slice(values.as_slice())?;
            Ok(None)
        }
        Some(Answer::Done) => Ok(None),
        Some(Answer::Fault { code, after }) => Ok(Some(OpResult::Error {
            code: *code,
            after: *after,
        })),
        Some(Answer::Skipped) => Ok(Some(OpResult::Skipped)),
        None => Ok(Some(OpResult::Garbled)),
    }
}

/// The field of a word under a mask; under no bits there is nothing of it.
fn shown_word(word: u32, mask: u32) -> u32
    ensures { result ≡ field word mask }
{
    if mask == 0 { 0 } else { extract(word, mask) }
}

/// Each word becomes its field under a mask.
fn show_fields(words: &mut [u32], mask: u32)
    ensures { words.new ≡ map (λ word. field word mask) words.old }
{
    for at in 0..words.len() {
        words[at] = shown_word(words[at], mask);
    }
}

/// The word before a read-modify-write.
fn word_before(words: &[u32]) -> OpResult
    ensures { result ≡ spec.word_before words.now }
{
    match words {
        [] => OpResult::Garbled,
        [word, ..] => OpResult::Was(*word),
    }
}

/// What an operation that was done shows of the words that its pieces gave, unless that is the words as they stand
/// then.
fn shown(verb: Verb, mask: u32, words: &mut Vec<u32>) -> Option<OpResult>
    ensures { or_value result words.new.items ≡ spec.shown_result verb mask words.old.items }
{
    match verb {
        Verb::Read => {
            show_fields(words.as_mut_slice(), mask);
            None
        }
        Verb::Write | Verb::WriteBlock => Some(OpResult::Done),
        Verb::ReadBlock => None,
        Verb::RmwBits | Verb::RmwSum => Some(word_before(words.as_slice())),
    }
}

/// This, or else the value of the words. It takes no memory.
pub(crate) fn or_value(told: Option<OpResult>, words: Vec<u32>) -> OpResult
    ensures { result ≡ or_value told words.items }
{
    match told {
        Some(told) => told,
        None => OpResult::Value(Words::from_vec(words)),
    }
}

/// What a result is as a late answer; no transaction is answered by the others.
fn late_of(came_to: OpResult) -> LateAnswer
    ensures { result ≡ late_of came_to }
{
    match came_to {
        OpResult::Value(words) => LateAnswer::Value(words),
        OpResult::Done => LateAnswer::Done,
        OpResult::Was(word) => LateAnswer::Was(word),
        OpResult::Error { code, after } => LateAnswer::Error { code, after },
        OpResult::Skipped => LateAnswer::Skipped,
        _ => LateAnswer::Garbled,
    }
}

/// What an operation shows of the late answer to one of its pieces: what it would show of this piece alone.
fn shown_late(
    alloc: Global,
    op: &RegOp,
    answers: &Option<Answers>,
    index: u16,
) -> Result<LateAnswer, NoMemory>
    ensures { IfOk result (λ answer.
        answer ≡ spec.shown_late op.now.verb op.now.mask (late_at answers.now index)) }
{
    let Some(answers) = answers else {
        return Ok(LateAnswer::Garbled);
    };
    let mut words = Vec::new(alloc);
    if let Some(fault) = answer_fault(answers.as_slice(), index, &mut words)? {
        return Ok(late_of(fault));
    }
    let told = shown(op.verb, op.mask, &mut words);
    Ok(late_of(or_value(told, words)))
}

/// Adds the values of a piece. Where it failed, or was answered late, what the operation shows of it.
fn piece_fault(
    op: &RegOp,
    ends: &[BodyEnd],
    piece: PieceAt,
    words: &mut Vec<u32>,
) -> Result<Option<OpResult>, NoMemory>
    ensures fault { IfOk result (λ fault. fault
        ≡ option_map (spec.shown_not_done op.now.verb op.now.mask) (not_done_in (piece_result ends.now piece))) }
    ensures values { OnOk result (words.new.items
        ≡ words.old.items ++ spec.values_in (piece_result ends.now piece)) }
{
    let Some(end) = ends.get(piece.body) else {
        return Ok(Some(OpResult::Unsent));
    };
    match &end.told {
        Told::Answered(answers) => answer_fault(answers.as_slice(), piece.index, words),
        Told::Garbled => Ok(Some(OpResult::Garbled)),
        Told::TimedOut { rounds } => Ok(Some(OpResult::TimedOut { rounds: *rounds })),
        Told::Late { rounds, answers } => Ok(Some(OpResult::Late {
            rounds: *rounds,
            answer: shown_late(*words.allocator(), op, answers, piece.index)?,
        })),
        Told::Unsent => Ok(Some(OpResult::Unsent)),
        Told::LinkLost => Ok(Some(OpResult::LinkLost)),
    }
}

/// What an operation came to, unless that is the words that are added to none.
pub(crate) fn op_result(
    words: &mut Vec<u32>,
    ends: &[BodyEnd],
    op: &RegOp,
    pieces: &[PieceAt],
) -> Result<Option<OpResult>, NoMemory>
    requires { words.old.items ≡ [] }
    ensures { IfOk result (λ told. or_value told words.new.items ≡ spec.op_result ends.now op.now pieces.now) }
{
    for piece in pieces {
        if let Some(fault) = piece_fault(op, ends, *piece, words)? {
            return Ok(Some(fault));
        }
    }
    Ok(shown(op.verb, op.mask, words))
}

/// Adds the place of a piece, where its body has one.
fn push_place(
    places: &mut Vec<(u64, u16)>,
    ends: &[BodyEnd],
    piece: PieceAt,
) -> Result<(), NoMemory>
    requires { IsWithinBody piece }
    ensures { OnOk result (places.new.items ≡ places.old.items ++ piece_place ends.now piece) }
{
    let Some(found) = ends.get(piece.body) else {
        return Ok(());
    };
    match found.place {
        Some(place) => Ok(places.push((place, piece.index + 1))?),
        None => Ok(()),
    }
}

/// Adds the places of the pieces whose bodies have one.
pub(crate) fn push_op_places(
    places: &mut Vec<(u64, u16)>,
    ends: &[BodyEnd],
    pieces: &[PieceAt],
) -> Result<(), NoMemory>
    requires { AllByRecursion IsWithinBody pieces.now }
    ensures { OnOk result (places.new.items ≡ places.old.items ++ spec.op_places ends.now pieces.now) }
{
    places.reserve_exact(pieces.len())?;
    for piece in pieces {
        push_place(places, ends, *piece)?;
    }
    Ok(())
}
