//! Whether a result that a line shows agrees with what its operation came to in the replay.

ghost use Rattle.std.specs.Prelude.{◌≡◌, ◌↔◌, ◌++◌, IfOk, IfSome, IsTrue, None, OnOk, [], false, map, option_map, slice_get};
ghost use Rattle.std.specs.List.{flat_map};
ghost use Rattle.masked_fields.specs.Field.{field};
ghost use Rattle.transaction_codec.specs.Request.{SpellsRequests};
ghost use Rattle.script_plans.specs.Plan.{AreSpelled};
ghost use Rattle.transcript.specs.Ends as ends_spec;
ghost use Rattle.transcript.specs.Results as results_spec;
ghost use Rattle.transcript.specs.declared.line.LateAnswer.TheVariants as late_answer;
ghost use Rattle.transcript.specs.declared.line.OpResult.TheVariants as result_of;
ghost use Rattle.run_audit.specs.Agreeing as spec;
ghost use Rattle.run_audit.specs.Results.{IsLateAnswer, fate_in};

use crate::fate::Fate;
use ipb_base::{NoMemory, Words};
use lane_record::Outcome;
use masked_fields::extract;
use reply_join::Answer;
use script_plans::PieceAt;
use script_steps::{RegOp, Verb};
use std::alloc::Global;
use transcript::{BodyEnd, LateAnswer, OpResult, Told, answers_in, told_by};

/// What a result tells of the body of its operation.
pub(crate) fn fate_in(told: &OpResult) -> Fate
    ensures { result ≡ fate_in told.now }
{
    match told {
        OpResult::Value(_)
        | OpResult::Done
        | OpResult::Was(_)
        | OpResult::Error { .. }
        | OpResult::Skipped
        | OpResult::Garbled => Fate::Answered,
        OpResult::TimedOut { .. } => Fate::TimedOut,
        OpResult::Late { .. } => Fate::AnsweredLate,
        OpResult::Unsent | OpResult::Denied { .. } => Fate::Unsent,
        OpResult::LinkLost => Fate::LinkLost,
    }
}

/// Whether a result shows these words.
fn is_value(told: &OpResult, words: &[u32]) -> bool
    ensures { IsTrue result ↔ (told.now ≡ result_of.Value words.now) }
{
    match told {
        OpResult::Value(others) => others.as_slice() == words,
        _ => false,
    }
}

/// Whether it shows the fields of words under a mask.
fn is_field_value(told: &OpResult, words: &[u32], mask: u32) -> bool
    ensures { IsTrue result ↔ (told.now ≡ result_of.Value (map (λ word. field word mask) words.now)) }
{
    match told {
        OpResult::Value(others) => are_fields(others.as_slice(), words, mask),
        _ => false,
    }
}

/// Whether it shows that the operation was done, and nothing else.
fn is_done(told: &OpResult) -> bool
    ensures { IsTrue result ↔ (told.now ≡ result_of.Done) }
{
    match told {
        OpResult::Done => true,
        _ => false,
    }
}

/// Whether it shows this word as the one before.
fn is_was(told: &OpResult, word: u32) -> bool
    ensures { IsTrue result ↔ (told.now ≡ result_of.Was word) }
{
    match told {
        OpResult::Was(other) => *other == word,
        _ => false,
    }
}

/// Whether it shows this info code after so many words.
fn is_error(told: &OpResult, code: u8, after: u8) -> bool
    ensures { IsTrue result ↔ (told.now ≡ result_of.Error code after) }
{
    match told {
        OpResult::Error {
            code: other,
            after: words,
        } => *other == code && *words == after,
        _ => false,
    }
}

/// Whether it shows that the operation was not executed, since an earlier transaction of its body failed.
fn is_skipped(told: &OpResult) -> bool
    ensures { IsTrue result ↔ (told.now ≡ result_of.Skipped) }
{
    match told {
        OpResult::Skipped => true,
        _ => false,
    }
}

/// Whether it shows the first of some words as the one before a read-modify-write.
fn is_word_before(told: &OpResult, words: &[u32]) -> bool
    requires { spec.IsAnswer told.now }
    ensures { IsTrue result ↔ (told.now ≡ results_spec.word_before words.now) }
{
    let [word, ..] = words else {
        return false;
    };
    is_was(told, *word)
}

/// Whether a result that a reply tells is what an operation that was done shows of the words that its pieces gave.
fn is_shown(op: &RegOp, words: &[u32], told: &OpResult) -> bool
    requires { spec.IsAnswer told.now }
    ensures { IsTrue result ↔ (told.now ≡ results_spec.shown_result op.now.verb op.now.mask words.now) }
{
    match op.verb {
        Verb::Read => is_field_value(told, words, op.mask),
        Verb::Write | Verb::WriteBlock => is_done(told),
        Verb::ReadBlock => is_value(told, words),
        Verb::RmwBits | Verb::RmwSum => is_word_before(told, words),
    }
}

/// Whether words are those that a late answer shows.
fn is_late_value(answer: &LateAnswer, words: &[u32]) -> bool
    ensures { IsTrue result ↔ (answer.now ≡ late_answer.Value words.now) }
{
    match answer {
        LateAnswer::Value(told) => told.as_slice() == words,
        _ => false,
    }
}

/// Whether a late answer shows the fields of words under a mask.
fn is_late_field(answer: &LateAnswer, words: &[u32], mask: u32) -> bool
    ensures { IsTrue result ↔ (answer.now ≡ late_answer.Value (map (λ word. field word mask) words.now)) }
{
    match answer {
        LateAnswer::Value(told) => are_fields(told.as_slice(), words, mask),
        _ => false,
    }
}

/// The field of a word under a mask; under no bits there is nothing of it.
fn shown_word(word: u32, mask: u32) -> u32
    ensures { result ≡ field word mask }
{
    if mask == 0 { 0 } else { extract(word, mask) }
}

/// Whether these are the fields of words under a mask.
fn are_fields(told: &[u32], words: &[u32], mask: u32) -> bool
    ensures { IsTrue result ↔ (told.now ≡ map (λ word. field word mask) words.now) }
{
    if told.len() != words.len() {
        return false;
    }
    for (i, word) in words.iter().enumerate() {
        if told[i] != shown_word(*word, mask) {
            return false;
        }
    }
    true
}

fn is_late_done(answer: &LateAnswer) -> bool
    ensures { IsTrue result ↔ (answer.now ≡ late_answer.Done) }
{
    match answer {
        LateAnswer::Done => true,
        _ => false,
    }
}

fn is_late_error(answer: &LateAnswer, code: u8, after: u8) -> bool
    ensures { IsTrue result ↔ (answer.now ≡ late_answer.Error code after) }
{
    match answer {
        LateAnswer::Error {
            code: other,
            after: words,
        } => *other == code && *words == after,
        _ => false,
    }
}

fn is_late_skipped(answer: &LateAnswer) -> bool
    ensures { IsTrue result ↔ (answer.now ≡ late_answer.Skipped) }
{
    match answer {
        LateAnswer::Skipped => true,
        _ => false,
    }
}

fn is_late_garbled(answer: &LateAnswer) -> bool
    ensures { IsTrue result ↔ (answer.now ≡ late_answer.Garbled) }
{
    match answer {
        LateAnswer::Garbled => true,
        _ => false,
    }
}

/// Whether a late answer shows the first of some words as the one before a read-modify-write.
fn is_late_was(answer: &LateAnswer, words: &[u32]) -> bool
    ensures { IsTrue result ↔ (answer.now ≡ ends_spec.late_of (results_spec.word_before words.now)) }
{
    let [word, ..] = words else {
        return is_late_garbled(answer);
    };
    match answer {
        LateAnswer::Was(told) => *told == *word,
        _ => false,
    }
}

/// Whether a late answer is what an operation shows of a piece alone that gave these words.
fn shows_words(op: &RegOp, words: &[u32], answer: &LateAnswer) -> bool
    ensures { IsTrue result ↔
        (answer.now ≡ ends_spec.late_of (results_spec.shown_result op.now.verb op.now.mask words.now)) }
{
    match op.verb {
        Verb::Read => is_late_field(answer, words, op.mask),
        Verb::Write | Verb::WriteBlock => is_late_done(answer),
        Verb::ReadBlock => is_late_value(answer, words),
        Verb::RmwBits | Verb::RmwSum => is_late_was(answer, words),
    }
}

/// Whether a late answer is what an operation shows of the answer at an index.
fn is_answer_at(op: &RegOp, answers: &[Answer], index: u16, answer: &LateAnswer) -> bool
    ensures { IsTrue result ↔
        (answer.now ≡ spec.shown_of op.now (ends_spec.answer_result (slice_get answers.now index))) }
{
    match answers.get(index as usize) {
        Some(Answer::Values(words)) => shows_words(op, words.as_slice(), answer),
        Some(Answer::Done) => shows_words(op, &[], answer),
        Some(Answer::Fault { code, after }) => is_late_error(answer, *code, *after),
        Some(Answer::Skipped) => is_late_skipped(answer),
        None => is_late_garbled(answer),
    }
}

/// Whether a late answer is that to a piece.
fn answers_piece(ends: &[BodyEnd], op: &RegOp, piece: PieceAt, answer: &LateAnswer) -> bool
    requires { spec.HaveNoLate ends.now }
    ensures { IsTrue result ↔ (answer.now ≡ spec.shown_of op.now (ends_spec.piece_result ends.now piece)) }
{
    let Some(end) = ends.get(piece.body) else {
        return is_late_garbled(answer);
    };
    match &end.told {
        Told::Answered(answers) => is_answer_at(op, answers.as_slice(), piece.index, answer),
        _ => is_late_garbled(answer),
    }
}

/// Whether a piece was done.
fn is_piece_done(ends: &[BodyEnd], piece: PieceAt) -> bool
    ensures { result ≡ results_spec.is_good (ends_spec.piece_result ends.now piece) }
{
    let Some(end) = ends.get(piece.body) else {
        return false;
    };
    let Told::Answered(answers) = &end.told else {
        return false;
    };
    match answers.as_slice().get(piece.index as usize) {
        Some(Answer::Values(_) | Answer::Done) => true,
        _ => false,
    }
}

/// Whether a late answer is that to one of these pieces before which all are done.
fn answers_one(ends: &[BodyEnd], op: &RegOp, pieces: &[PieceAt], answer: &LateAnswer) -> bool
    requires { spec.HaveNoLate ends.now }
    ensures { IsTrue result ↔ spec.AnswersOne ends.now op.now answer.now pieces.now }
{
    for piece in pieces {
        if answers_piece(ends, op, *piece, answer) {
            return true;
        }
        if !is_piece_done(ends, *piece) {
            return false;
        }
    }
    false
}

/// Whether an answer that came late is one that the replay gives.
pub(crate) fn is_late_answer(
    ends: &[BodyEnd],
    op: &RegOp,
    pieces: &[PieceAt],
    answer: &LateAnswer,
) -> bool
    requires { spec.HaveNoLate ends.now }
    ensures { IsTrue result ↔ IsLateAnswer ends.now op.now pieces.now answer.now }
{
    if is_late_garbled(answer) {
        return false;
    }
    answers_one(ends, op, pieces, answer)
}

/// The words that a piece gave; none where it was not done.
fn values_of(ends: &[BodyEnd], piece: PieceAt) -> &[u32]
    ensures { result.now ≡ results_spec.values_in (ends_spec.piece_result ends.now piece) }
{
    let Some(end) = ends.get(piece.body) else {
        return &[];
    };
    let Told::Answered(answers) = &end.told else {
        return &[];
    };
    match answers.as_slice().get(piece.index as usize) {
        Some(Answer::Values(words)) => words.as_slice(),
        _ => &[],
    }
}

/// Adds the words that pieces gave.
fn push_values(words: &mut Vec<u32>, ends: &[BodyEnd], pieces: &[PieceAt]) -> Result<(), NoMemory>
    ensures { OnOk result (words.new.items ≡ words.old.items
        ++ flat_map results_spec.values_in (map (ends_spec.piece_result ends.now) pieces.now)) }
{
    for piece in pieces {
        words.extend_from_slice(values_of(ends, *piece))?;
    }
    Ok(())
}

/// The first of these pieces that was not done.
fn first_not_done(ends: &[BodyEnd], pieces: &[PieceAt]) -> Option<PieceAt>
    ensures first { results_spec.first_not_done (map (ends_spec.piece_result ends.now) pieces.now)
        ≡ option_map (ends_spec.piece_result ends.now) result }
    ensures not_done { IfSome result (λ piece.
        results_spec.is_good (ends_spec.piece_result ends.now piece) ≡ false) }
{
    for piece in pieces {
        if !is_piece_done(ends, *piece) {
            return Some(*piece);
        }
    }
    None
}

/// Whether a result that a reply tells is what became of a piece that was not done.
fn is_fault_of(ends: &[BodyEnd], piece: PieceAt, told: &OpResult) -> bool
    requires answer { spec.IsAnswer told.now }
    requires not_done { results_spec.is_good (ends_spec.piece_result ends.now piece) ≡ false }
    ensures { IsTrue result ↔ (told.now ≡ ends_spec.piece_result ends.now piece) }
{
    let Some(end) = ends.get(piece.body) else {
        return false;
    };
    let Told::Answered(answers) = &end.told else {
        return false;
    };
    match answers.as_slice().get(piece.index as usize) {
        Some(Answer::Fault { code, after }) => is_error(told, *code, *after),
        Some(Answer::Skipped) => is_skipped(told),
        _ => false,
    }
}

/// Whether a result that a reply tells is what an operation of these pieces came to. The words that they gave are put
/// into `words`, which serves many operations.
pub(crate) fn came_to(
    words: &mut Vec<u32>,
    ends: &[BodyEnd],
    op: &RegOp,
    pieces: &[PieceAt],
    told: &OpResult,
) -> Result<bool, NoMemory>
    requires { spec.IsAnswer told.now }
    ensures { IfOk result (λ is. IsTrue is ↔ (told.now ≡ results_spec.op_result ends.now op.now pieces.now)) }
{
    if let Some(piece) = first_not_done(ends, pieces) {
        return Ok(is_fault_of(ends, piece, told));
    }
    words.clear();
    push_values(words, ends, pieces)?;
    Ok(is_shown(op, words.as_slice(), told))
}

/// How a body ended that has this outcome, and no late answer.
fn end_of(alloc: Global, body: &[u32], outcome: &Outcome) -> Result<BodyEnd, NoMemory>
    requires { SpellsRequests body.now }
    ensures { IfOk result (λ end. end ≡ ends_spec.end_of body.now outcome.now None) }
{
    let (place, told) = match outcome {
        Outcome::Replied { place, words } => {
            let answers = answers_in(alloc, body, words.as_slice())?;
            (Some(*place), told_by(answers))
        }
        Outcome::TimedOut { place, rounds } => (Some(*place), Told::TimedOut { rounds: *rounds }),
        Outcome::Unsent => (None, Told::Unsent),
        Outcome::LinkLost { place } => (*place, Told::LinkLost),
    };
    Ok(BodyEnd { place, told })
}

/// How bodies ended that have these outcomes, and no late answers. Each reply is joined to its body once.
pub(crate) fn ends_of(
    alloc: Global,
    bodies: &[Words],
    outcomes: &[Outcome],
) -> Result<Vec<BodyEnd>, NoMemory>
    requires { AreSpelled bodies.now }
    ensures ends { IfOk result (λ ends. ends.items ≡ ends_spec.ends_with bodies.now outcomes.now []) }
    ensures in_time { IfOk result (λ ends. spec.HaveNoLate ends.items) }
{
    let mut ends = Vec::with_capacity(alloc, bodies.len())?;
    for (i, body) in bodies.iter().enumerate() {
        let Some(outcome) = outcomes.get(i) else {
            return Ok(ends);
        };
        ends.push(end_of(alloc, body.as_slice(), outcome)?)?;
    }
    Ok(ends)
}
