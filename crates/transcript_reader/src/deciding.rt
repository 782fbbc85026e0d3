//! Whether an operation on a live board can show what its line shows.

ghost use Rattle.std.specs.Prelude.{◌≡◌, ◌↔◌, ◌≤◌, ℕ, IsTrue};
ghost use Rattle.std.specs.List.{AllByRecursion};
ghost use Rattle.ipb_base.specs.Word.{IsWord};
ghost use Rattle.masked_fields.specs.Field.{field};
ghost use Rattle.mtu_packer.specs.Cutting.{CanBeCut};
ghost use Rattle.mtu_packer.specs.declared.packing.TheConstants.{MIN_PAYLOAD};
ghost use Rattle.transcript.specs.Claims.{IsPrinted, IsPrintedLate, IsPrintedPlace};
ghost use Rattle.transcript.specs.declared.line.OpResult.TheVariants.{Unsent};
ghost use Rattle.transcript_reader.specs.Results as spec;

use crate::pieces::{can_fail, can_read, piece_count};
use crate::shown::ShownOp;
use masked_fields::laws::what_fits_is_a_field;
use masked_fields::terms;
use script_steps::{RegOp, Verb};
use transcript::{LateAnswer, OpResult};

/// Whether a number is the field of some word under a mask.
fn is_field(mask: u32, shown: u32) -> bool
    ensures { IsTrue result ↔ ((word : ℕ) × IsWord word × (shown ≡ field word mask)) }
{
    what_fits_is_a_field();
    if mask == 0 {
        return shown == 0;
    }
    terms(mask, shown).is_ok()
}

/// Whether the line of a verb can show this word among those that were read.
fn shows_word(verb: Verb, mask: u32, shown: u32) -> bool
    ensures { IsTrue result ↔ spec.ShowsWord verb mask shown }
{
    match verb {
        Verb::Read => is_field(mask, shown),
        Verb::ReadBlock => true,
        Verb::Write | Verb::WriteBlock | Verb::RmwBits | Verb::RmwSum => false,
    }
}

/// Whether a verb can show each of some words.
fn shows_words(verb: Verb, mask: u32, words: &[u32]) -> bool
    ensures { IsTrue result ↔ AllByRecursion (spec.ShowsWord verb mask) words.now }
{
    for word in words {
        if !shows_word(verb, mask, *word) {
            return false;
        }
    }
    true
}

fn reads_words(verb: Verb) -> bool
    ensures { IsTrue result ↔ spec.ReadsWords verb }
{
    matches!(verb, Verb::Read | Verb::ReadBlock)
}

fn shows_done(verb: Verb) -> bool
    ensures { IsTrue result ↔ spec.ShowsDone verb }
{
    matches!(verb, Verb::Write | Verb::WriteBlock)
}

fn shows_before(verb: Verb) -> bool
    ensures { IsTrue result ↔ spec.ShowsBefore verb }
{
    matches!(verb, Verb::RmwBits | Verb::RmwSum)
}

/// Whether the operation can show this late answer.
fn can_be_late(payload: u32, op: &RegOp, answer: &LateAnswer) -> bool
    requires payload { MIN_PAYLOAD ≤ payload }
    requires sound { CanBeCut op.now.op }
    ensures { IsTrue result ↔ spec.CanBeLate payload op.now answer.now }
{
    match answer {
        LateAnswer::Value(words) => {
            let words = words.as_slice();
            reads_words(op.verb)
                && can_read(&op.op, payload, words.len())
                && shows_words(op.verb, op.mask, words)
        }
        LateAnswer::Done => shows_done(op.verb),
        LateAnswer::Was(_) => shows_before(op.verb),
        LateAnswer::Error { code, after } => can_fail(&op.op, payload, *code, *after),
        LateAnswer::Skipped | LateAnswer::Garbled => true,
    }
}

/// Whether the operation can come to this.
fn can_come_to(payload: u32, op: &RegOp, came_to: &OpResult) -> bool
    requires payload { MIN_PAYLOAD ≤ payload }
    requires sound { CanBeCut op.now.op }
    ensures { IsTrue result ↔ spec.CanComeTo payload op.now came_to.now }
{
    match came_to {
        OpResult::Value(words) => {
            let words = words.as_slice();
            reads_words(op.verb)
                && words.len() == op.op.as_op_ref().values_done() as usize
                && shows_words(op.verb, op.mask, words)
        }
        OpResult::Done => shows_done(op.verb),
        OpResult::Was(_) => shows_before(op.verb),
        OpResult::Error { code, after } => can_fail(&op.op, payload, *code, *after),
        OpResult::Late { answer, .. } => can_be_late(payload, op, answer),
        OpResult::Skipped
        | OpResult::TimedOut { .. }
        | OpResult::Unsent
        | OpResult::LinkLost
        | OpResult::Garbled => true,
        OpResult::Denied { .. } => false,
    }
}

/// Whether this can be shown without a place.
fn is_placeless(came_to: &OpResult) -> bool
    ensures { IsTrue result ↔ spec.IsPlaceless came_to.now }
{
    matches!(came_to, OpResult::Unsent | OpResult::LinkLost)
}

fn is_unsent(came_to: &OpResult) -> bool
    ensures { IsTrue result ↔ (came_to.now ≡ Unsent) }
{
    matches!(came_to, OpResult::Unsent)
}

/// Whether an operation on a live board that takes packets of `payload` words can show this.
pub(crate) fn can_show_live(payload: u32, op: &RegOp, shown: &ShownOp) -> bool
    requires payload { MIN_PAYLOAD ≤ payload }
    requires sound { CanBeCut op.now.op }
    requires printed { IsPrinted shown.now.0 }
    requires places { AllByRecursion IsPrintedPlace shown.now.1 }
    ensures { IsTrue result ↔ spec.CanShowLive payload op.now shown.now }
{
    let places = shown.places.as_slice().len();
    let pieces = piece_count(&op.op, payload);
    can_come_to(payload, op, &shown.result)
        && places <= pieces
        && (places > 0 || is_placeless(&shown.result))
        && !(places == pieces && is_unsent(&shown.result))
}
