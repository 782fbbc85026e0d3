//! What came late on a lane, put into the parts of its clients.

ghost use Rattle.std.specs.Prelude.{◌≡◌, None, Some, map, is_some, IfOk, IfSome, MatchOption, OnOk};
ghost use Rattle.std.specs.List.{list_any};
ghost use Rattle.std.specs.Option.{IsSomeAnd};
ghost use Rattle.board_history.specs.Lates.{late_for, lates_of};
ghost use Rattle.session_run.specs.Parts.{with_lates};

use hub_lane::Lane;
use ipb_base::{NoMemory, Words};
use lane_record::Outcome;
use links::Link;
use script_plans::{ClientPart, ClientParts, Lates};
use std::alloc::Global;

/// What came late for a body of which this became: only one that was timed out has a late answer.
fn late_answer<'a, L: Link>(lane: &'a Lane<L>, outcome: &Outcome) -> Option<&'a [u32]>
    ensures { MatchOption result (late_for lane.now.lates outcome.now ≡ None)
        (λ words. late_for lane.now.lates outcome.now ≡ Some words.now) }
{
    match outcome {
        Outcome::TimedOut { place, rounds: _ } => lane.late_at(*place),
        Outcome::Replied { place: _, words: _ } => None,
        Outcome::Unsent => None,
        Outcome::LinkLost { place: _ } => None,
    }
}

/// Whether something came late for it.
fn is_late<L: Link>(lane: &Lane<L>, outcome: &Outcome) -> bool
    ensures { result ≡ is_some (late_for lane.now.lates outcome.now) }
{
    late_answer(lane, outcome).is_some()
}

/// Whether anything came late for one of these bodies.
fn came_late<L: Link>(lane: &Lane<L>, outcomes: &[Outcome]) -> bool
    ensures { result ≡ list_any (λ outcome. is_some (late_for lane.now.lates outcome)) outcomes.now }
{
    for outcome in outcomes {
        if is_late(lane, outcome) {
            return true;
        }
    }
    false
}

/// A copy of what came late for it.
fn copy_late<L: Link>(
    alloc: Global,
    lane: &Lane<L>,
    outcome: &Outcome,
) -> Result<Option<Words>, NoMemory>
    ensures { IfOk result (λ late. late ≡ late_for lane.now.lates outcome.now) }
{
    match late_answer(lane, outcome) {
        Some(words) => Ok(Some(Words::from_vec(words.to_vec(alloc)?))),
        None => Ok(None),
    }
}

/// Copies of what came late for each of these bodies, in their order.
fn copy_lates<L: Link>(
    alloc: Global,
    lane: &Lane<L>,
    outcomes: &[Outcome],
) -> Result<Vec<Option<Words>>, NoMemory>
    ensures { IfOk result (λ lates. lates.items ≡ map (late_for lane.now.lates) outcomes.now) }
{
    let mut lates = Vec::with_capacity(alloc, outcomes.len())?;
    for outcome in outcomes {
        lates.push_reserved(copy_late(alloc, lane, outcome)?);
    }
    Ok(lates)
}

/// What came late for each of these bodies; where nothing did there is no list.
fn late_list<L: Link>(
    alloc: Global,
    lane: &Lane<L>,
    outcomes: &[Outcome],
) -> Result<Lates, NoMemory>
    ensures { IfOk result (λ lates. lates ≡ lates_of lane.now.lates outcomes.now) }
{
    if came_late(lane, outcomes) {
        Ok(Lates::from_vec(copy_lates(alloc, lane, outcomes)?))
    } else {
        Ok(Lates::from_vec(Vec::new(alloc)))
    }
}

/// Puts what came late for the bodies of each client into its part.
fn complete_each<L: Link>(
    alloc: Global,
    lane: &Lane<L>,
    parts: &mut [ClientPart],
) -> Result<(), NoMemory>
    ensures { OnOk result (parts.new ≡ map (with_lates lane.now.lates) parts.old) }
{
    for at in 0..parts.len() {
        parts[at].lates = late_list(alloc, lane, parts[at].outcomes.as_slice())?;
    }
    Ok(())
}

/// The parts of all clients, with what came late for their bodies.
fn complete_parts<L: Link>(
    alloc: Global,
    lane: &Lane<L>,
    parts: ClientParts,
) -> Result<ClientParts, NoMemory>
    ensures { IfOk result (λ whole. whole ≡ map (with_lates lane.now.lates) parts) }
{
    let mut parts = parts.into_vec();
    complete_each(alloc, lane, &mut parts)?;
    Ok(ClientParts::from_vec(parts))
}

/// Puts late answers into the parts of a client, where there is memory for them.
pub(crate) fn with_late_answers<L: Link>(
    alloc: Global,
    lane: &Lane<L>,
    parts: Option<ClientParts>,
) -> Option<ClientParts>
    ensures { IfSome result (λ whole. IsSomeAnd parts (λ old. whole ≡ map (with_lates lane.now.lates) old)) }
{
    complete_parts(alloc, lane, parts?).ok()
}
