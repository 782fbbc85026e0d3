//! How much the lines of scripts are together.

ghost use Rattle.std.specs.Prelude.{◌≡◌, false};
ghost use Rattle.script_lang.specs.Scripts as spec;
ghost use Rattle.script_lang.specs.Tallies.{with_step, within};
ghost use Rattle.transaction_codec.specs.Request.{op_count};

use crate::script_refusal::MAX_LINES;
use script_steps::{MAX_BLOCK_WORDS, MAX_OPERATIONS, Step, Verb};
use transaction_codec::Op;

/// What the lines of some scripts are together.
#[derive(Clone, Copy, PartialEq, Eq)]
pub(crate) struct Tally {
    pub lines: u64,
    pub operations: u64,
    /// The words in block operations.
    pub words: u64,
}

/// How many words an operation reads or writes.
fn word_count(op: &Op) -> u64
    ensures { result ≡ op_count op.now }
{
    match op {
        Op::Read { base: _, count } | Op::ReadPort { base: _, count } => u64::from(*count),
        Op::Write { base: _, words } | Op::WritePort { base: _, words } => words.len() as u64,
        Op::RmwBits { .. } | Op::RmwSum { .. } => 1,
    }
}

fn is_block(verb: Verb) -> bool
    ensures { result ≡ spec.is_block verb }
{
    matches!(verb, Verb::ReadBlock | Verb::WriteBlock)
}

fn operations_in(step: &Option<Step>) -> u64
    ensures { result ≡ spec.operations_in step.now }
{
    match step {
        Some(Step::Do(_) | Step::Denied { .. }) => 1,
        Some(Step::Dispatch) | None => 0,
    }
}

fn block_words_in(step: &Option<Step>) -> u64
    ensures { result ≡ spec.block_words_in step.now }
{
    match step {
        Some(Step::Do(op) | Step::Denied { rule: _, op }) => {
            if is_block(op.verb) {
                word_count(&op.op)
            } else {
                0
            }
        }
        Some(Step::Dispatch) | None => 0,
    }
}

/// Whether this is more than a session may have.
fn is_over(tally: Tally) -> bool
    ensures { result ≡ spec.is_over tally }
{
    tally.lines > MAX_LINES || tally.operations > MAX_OPERATIONS || tally.words > MAX_BLOCK_WORDS
}

/// A tally with one line more, unless that is more than a session may have.
pub(crate) fn with_step(tally: Tally, step: &Option<Step>) -> Option<Tally>
    requires { spec.is_over tally ≡ false }
    ensures { result ≡ within (with_step tally step.now) }
{
    let next = Tally {
        lines: tally.lines + 1,
        operations: tally.operations + operations_in(step),
        words: tally.words.saturating_add(block_words_in(step)),
    };
    if is_over(next) { None } else { Some(next) }
}
