//! What a body's outcome and its late answer tell of its transactions.

ghost use Rattle.std.specs.Prelude.{◌≡◌, None, IfOk, get_or};
ghost use Rattle.transaction_codec.specs.Request.{SpellsRequests};
ghost use Rattle.reply_join.specs.ByWords.{answers};
ghost use Rattle.script_plans.specs.Plan.{AreSpelled};
ghost use Rattle.transcript.specs.Ends as spec;

use ipb_base::{NoMemory, Words};
use lane_record::Outcome;
use reply_join::laws::joining_is_a_function;
use reply_join::{Answers, JoinRefusal, join_reply};
use std::alloc::Global;

/// What is told of the transactions of a body: the answer to each, or one thing of all.
#[derive(Drop)]
pub enum Told {
    Answered(Answers),
    /// The words of the reply are none to the body.
    Garbled,
    TimedOut {
        rounds: u8,
    },
    /// The body was timed out after so many rounds, and its late answer tells the answer to each; none where the words
    /// are no reply to the body.
    Late {
        rounds: u8,
        answers: Option<Answers>,
    },
    Unsent,
    LinkLost,
}

/// How a body ended: its place in the order of its board, where it has one, and what is told of its transactions.
#[derive(Drop)]
pub struct BodyEnd {
    pub place: Option<u64>,
    pub told: Told,
}

/// The answers to a body's transactions that these words tell; none where they are no reply to it.
pub fn answers_in(alloc: Global, body: &[u32], words: &[u32]) -> Result<Option<Answers>, NoMemory>
    requires { SpellsRequests body.now }
    ensures { IfOk result (λ found. found ≡ answers body.now words.now) }
{
    joining_is_a_function();
    match join_reply(alloc, body, words) {
        Ok(list) => Ok(Some(list)),
        Err(JoinRefusal::Garbled { .. }) => Ok(None),
        Err(JoinRefusal::NoMemory) => Err(NoMemory),
    }
}

/// What is told of a body that was replied to with these answers, or with none.
pub fn told_by(answers: Option<Answers>) -> Told
    ensures { result ≡ spec.told_by answers }
{
    match answers {
        Some(answers) => Told::Answered(answers),
        None => Told::Garbled,
    }
}

/// What is told of body `i`, which was timed out, by its late answer where it has one.
fn told_timed_out(
    alloc: Global,
    body: &[u32],
    rounds: u8,
    lates: &[Option<Words>],
    i: usize,
) -> Result<Told, NoMemory>
    requires { SpellsRequests body.now }
    ensures { IfOk result (λ told. told ≡ spec.told_timed_out body.now rounds (get_or lates.now i None)) }
{
    match lates.get(i) {
        Some(Some(words)) => Ok(Told::Late {
            rounds,
            answers: answers_in(alloc, body, words.as_slice())?,
        }),
        _ => Ok(Told::TimedOut { rounds }),
    }
}

/// How body `i` ended, which has this outcome.
fn end_of(
    alloc: Global,
    body: &[u32],
    outcome: &Outcome,
    lates: &[Option<Words>],
    i: usize,
) -> Result<BodyEnd, NoMemory>
    requires { SpellsRequests body.now }
    ensures { IfOk result (λ end. end ≡ spec.end_of body.now outcome.now (get_or lates.now i None)) }
{
    match outcome {
        Outcome::Replied { place, words } => Ok(BodyEnd {
            place: Some(*place),
            told: told_by(answers_in(alloc, body, words.as_slice())?),
        }),
        Outcome::TimedOut { place, rounds } => Ok(BodyEnd {
            place: Some(*place),
            told: told_timed_out(alloc, body, *rounds, lates, i)?,
        }),
        Outcome::Unsent => Ok(BodyEnd {
            place: None,
            told: Told::Unsent,
        }),
        Outcome::LinkLost { place } => Ok(BodyEnd {
            place: *place,
            told: Told::LinkLost,
        }),
    }
}

/// How bodies ended that have these outcomes and late answers, in the same order; those behind the last late answer
/// have none. Each reply, in time or late, is joined to its body once.
pub(crate) fn ends_of(
    alloc: Global,
    bodies: &[Words],
    outcomes: &[Outcome],
    lates: &[Option<Words>],
) -> Result<Vec<BodyEnd>, NoMemory>
    requires { AreSpelled bodies.now }
    ensures { IfOk result (λ ends. ends.items ≡ spec.ends_with bodies.now outcomes.now lates.now) }
{
    let mut ends = Vec::with_capacity(alloc, bodies.len())?;
    for (i, body) in bodies.iter().enumerate() {
        let Some(outcome) = outcomes.get(i) else {
            return Ok(ends);
        };
        ends.push_reserved(end_of(alloc, body.as_slice(), outcome, lates, i)?);
    }
    Ok(ends)
}
