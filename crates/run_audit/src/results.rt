//! The results that lines show.

ghost use Rattle.std.specs.Prelude.{ℕ, IfOk, List, map};
ghost use Rattle.std.specs.List.{AllByRecursion};
ghost use Rattle.transcript_reader.specs.declared.shown.Shown.{Shown};
ghost use Rattle.transcript_reader.specs.Entries.{IsHere};
ghost use Rattle.transcript_reader.specs.Shown.{IsShownBy};
ghost use Rattle.run_audit.specs.Replaying.{HasShortBodies};
ghost use Rattle.run_audit.specs.Results.{IsWrongAt};
ghost use Rattle.run_audit.specs.Steps.{AreOf, IsFirstBroken, asking};

use crate::apart::first_apart;
use crate::asking::AskedOp;
use crate::places::earliest;
use crate::plans::BoardPlans;
use crate::replaying::replayed_runs;
use crate::unreplayed::first_unreplayed;
use ipb_base::NoMemory;
use script_lang::Session;
use script_steps::Steps;
use std::alloc::Global;

/// The first line whose result is not the one of the replay, or that tells another thing of its body than a line before
/// it.
pub(crate) fn first_wrong(
    alloc: Global,
    session: &Session,
    scripts: &[Steps],
    plans: Vec<BoardPlans>,
    asked: &[AskedOp],
) -> Result<Option<u32>, NoMemory>
    requires boards { AllByRecursion IsHere session.now.boards }
    requires short { AllByRecursion (AllByRecursion HasShortBodies) plans.items }
    ensures { (text : List ℕ) (shown : Shown) → IsShownBy session.now.boards scripts.now text shown →
        AreOf session.now.boards scripts.now shown plans.items (map asking asked.now) →
        IfOk result (IsFirstBroken (IsWrongAt session.now.settings.rounds session.now.boards scripts.now shown)) }
{
    let runs = replayed_runs(alloc, session.boards.as_slice(), plans, asked)?;
    let unreplayed = first_unreplayed(alloc, session, scripts, runs.as_slice(), asked)?;
    let apart = first_apart(alloc, session, scripts, runs.as_slice(), asked)?;
    Ok(earliest(unreplayed, apart))
}
