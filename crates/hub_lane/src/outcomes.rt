//! How outcomes come, from fates and from a link that failed; and how many of each kind there are.

ghost use Rattle.std.specs.Prelude.{◌≡◌, ◌+◌, ◌<◌, ◌≤◌, ◌^◌, ℕ, IfOk, IfSome, IfNone, length, count_by};
ghost use Rattle.std.specs.Prelude.{List, None, Some};
ghost use Rattle.std.specs.List.{slice_get};
ghost use Rattle.lane_record.specs.declared.outcome.Outcome.TheVariants.{LinkLost, Replied};
ghost use Rattle.lane_record.specs.Bounds.{has_timed_out, timeouts};
ghost use Rattle.lane_record.specs.Lates.{put_lates};
ghost use Rattle.lane_record.specs.Offers.{all_lost, outcome_of, put_all};
ghost use Rattle.hub_lane.specs.Hearing.{give_ups_of};
ghost use Rattle.hub_lane.specs.Calls.{IsReplyAt, IsReplyOf, is_lost_at_place, is_replied};
ghost use Rattle.hub_lane.specs.Sends.{without_fates, without_lates};
ghost use Rattle.world_model.specs.Hub.{after_handing_out};
ghost use Rattle.packet_codec.specs.declared.packet.TheConstants.{MAX_BODY_WORDS};
ghost use Rattle.world_model.specs.Facts.{IsSendable};

use crate::answers::Pumped;
use ipb_base::{NoMemory, Words};
use lane_record::Outcome;
use lane_tables::OutcomeTable;
use reliable_engine::{Engine, Fate};
use std::alloc::Global;

/// A copy of some words, which shares no memory with them. A packet can carry them, where they are not too many.
pub(crate) fn copy_words(alloc: Global, words: &[u32]) -> Result<Words, NoMemory>
    ensures copied { IfOk result (λ copied. copied ≡ words.now) }
    ensures sendable { length words.now ≤ MAX_BODY_WORDS → IsSendable words.now }
{
    Ok(Words::from_vec(Vec::from_slice(alloc, words)?))
}

/// A copy of an outcome, which shares no memory with it.
pub(crate) fn copy_outcome(alloc: Global, outcome: &Outcome) -> Result<Outcome, NoMemory>
    ensures { IfOk result (λ copied. copied ≡ outcome.now) }
{
    match outcome {
        Outcome::Replied { place, words } => Ok(Outcome::Replied {
            place: *place,
            words: copy_words(alloc, words.as_slice())?,
        }),
        Outcome::TimedOut { place, rounds } => Ok(Outcome::TimedOut {
            place: *place,
            rounds: *rounds,
        }),
        Outcome::Unsent => Ok(Outcome::Unsent),
        Outcome::LinkLost { place } => Ok(Outcome::LinkLost { place: *place }),
    }
}

/// The outcome that a fate is.
fn outcome_of(fate: Fate) -> Outcome
    ensures { result ≡ outcome_of fate }
{
    match fate {
        Fate::Replied { place, words } => Outcome::Replied { place, words },
        Fate::TimedOut { place, rounds } => Outcome::TimedOut { place, rounds },
        Fate::Unsent => Outcome::Unsent,
    }
}

/// The hub hands out all its fates.
fn settle_all(hub: &mut Engine, outcomes: &mut OutcomeTable)
    ensures hub { hub.new ≡ without_fates hub.old }
    ensures outcomes { outcomes.new.items ≡ put_all hub.old.fates outcomes.old.items }
    ensures lates { outcomes.new.lates ≡ outcomes.old.lates }
{
    while let Some(fate) = hub.settled() {
        outcomes.put(fate.0, outcome_of(fate.1));
    }
}

/// The hub hands out all its late answers.
fn keep_lates(hub: &mut Engine, outcomes: &mut OutcomeTable)
    ensures hub { hub.new ≡ without_lates hub.old }
    ensures lates { outcomes.new.lates ≡ put_lates hub.old.lates outcomes.old.lates }
    ensures outcomes { outcomes.new.items ≡ outcomes.old.items }
{
    while let Some(late) = hub.late() {
        outcomes.put_late(late.0, late.1);
    }
}

/// The link failed: what has no outcome is lost, with its place where it was sent.
pub(crate) fn lose_all(outcomes: &mut OutcomeTable, sent: u64)
    ensures outcomes { outcomes.new.items ≡ all_lost sent outcomes.old.items }
    ensures lates { outcomes.new.lates ≡ outcomes.old.lates }
{
    let mut place = 0;
    for ask in 0..outcomes.len() {
        if let Some(outcome) = outcomes.of_ask(ask) {
            if outcome.is_sent() {
                place += 1;
            }
        } else if place < sent {
            place += 1;
            outcomes.put(ask as u64, Outcome::LinkLost { place: Some(place) });
        } else {
            outcomes.put(ask as u64, Outcome::LinkLost { place: None });
        }
    }
}

/// What an event of the hub settles: its fates and its late answers are handed out, and a quiet receive after which
/// nobody waits was a give-up.
pub(crate) fn settle(
    hub: &mut Engine,
    outcomes: &mut OutcomeTable,
    give_ups: &mut u64,
    pumped: Pumped,
)
    requires { give_ups.old < 2 ^ 63 }
    ensures hub { hub.new ≡ after_handing_out hub.old }
    ensures outcomes { outcomes.new.items ≡ put_all hub.old.fates outcomes.old.items }
    ensures lates { outcomes.new.lates ≡ put_lates hub.old.lates outcomes.old.lates }
    ensures give_ups { give_ups.new ≡ give_ups_of pumped hub.old give_ups.old }
{
    if pumped == Pumped::Quiet && !hub.waiting() {
        *give_ups += 1;
    }
    settle_all(hub, outcomes);
    keep_lates(hub, outcomes);
}

/// The reply under the number of an Ask, where it came at this place.
pub(crate) fn reply_under(outcomes: &OutcomeTable, ask: u64, place: u64) -> Option<&[u32]>
    ensures some { IfSome result (λ words. IsReplyAt outcomes.now.items place words.now) }
    ensures none { IfNone result ((words : List ℕ)
        → ¬ (slice_get outcomes.now.items ask ≡ Some (Some (Replied place words)))) }
{
    if ask >= outcomes.len() as u64 {
        return None;
    }
    reply_of(outcomes.of_ask(ask as usize), place)
}

/// The reply that an outcome is, where it is that of this place.
fn reply_of(outcome: &Option<Outcome>, place: u64) -> Option<&[u32]>
    ensures some { IfSome result (λ words. IsReplyOf outcome.now place words.now) }
    ensures none { IfNone result ((words : List ℕ) → ¬ IsReplyOf outcome.now place words) }
{
    match outcome {
        Some(Outcome::Replied { place: at, words }) if *at == place => Some(words.as_slice()),
        _ => None,
    }
}

/// How many were replied, timed out, and lost with a place.
pub(crate) fn count_of(outcomes: &OutcomeTable) -> (u64, u64, u64)
    ensures replied { result.0 ≡ count_by is_replied outcomes.now.items }
    ensures timed_out { result.1 ≡ timeouts outcomes.now.items }
    ensures lost { result.2 ≡ count_by is_lost_at_place outcomes.now.items }
{
    let mut replied = 0;
    let mut timed_out = 0;
    let mut lost = 0;
    for ask in 0..outcomes.len() {
        let outcome = outcomes.of_ask(ask);
        replied += u64::from(is_replied(outcome));
        timed_out += u64::from(has_timed_out(outcome));
        lost += u64::from(is_lost_at_place(outcome));
    }
    (replied, timed_out, lost)
}

/// Whether a body was replied to.
fn is_replied(outcome: &Option<Outcome>) -> bool
    ensures { result ≡ is_replied outcome.now }
{
    matches!(outcome, Some(Outcome::Replied { .. }))
}

/// Whether a body was timed out.
fn has_timed_out(outcome: &Option<Outcome>) -> bool
    ensures { result ≡ has_timed_out outcome.now }
{
    matches!(outcome, Some(Outcome::TimedOut { .. }))
}

/// Whether a body was lost with the link after it was sent.
fn is_lost_at_place(outcome: &Option<Outcome>) -> bool
    ensures { result ≡ is_lost_at_place outcome.now }
{
    matches!(outcome, Some(Outcome::LinkLost { place: Some(_) }))
}
