//! The audit of a transcript.

ghost use Rattle.std.specs.Prelude.{ℕ, ◌+◌, ◌<◌, ◌^◌, IfOk, List, length, map};
ghost use Rattle.std.specs.List.{AllByRecursion};
ghost use Rattle.transcript_reader.specs.Entries.{IsHere, clients_from};
ghost use Rattle.transcript_reader.specs.Shown.{IsShownBy};
ghost use Rattle.run_audit.specs.Replaying.{HasShortBodies};
ghost use Rattle.run_audit.specs.Steps.{AreOf, asking};
ghost use Rattle.run_audit.specs.Verdicts.{CanBeAudited, IsVerdict};

use crate::asking::{AskedOp, asked_ops};
use crate::counts::first_miscounted;
use crate::places::{first_misplaced, first_partial};
use crate::plans::{BoardPlans, plans_of};
use crate::results::first_wrong;
use crate::verdict::{AuditWhy, Verdict};
use ipb_base::NoMemory;
use script_lang::Session;
use script_steps::Steps;
use std::alloc::Global;
use transcript_reader::{Shown, Unshown, read_transcript};

/// The verdict on a text that shows this, by what the clients ask of each board, and by their operations with what their
/// lines show.
fn verdict_by(
    alloc: Global,
    session: &Session,
    scripts: &[Steps],
    shown: &Shown,
    plans: Vec<BoardPlans>,
    asked: &[AskedOp],
) -> Result<Verdict, NoMemory>
    requires boards { AllByRecursion IsHere session.now.boards }
    requires lines { length (clients_from 1 scripts.now) + length shown.now.boards < 2 ^ 32 }
    requires short { AllByRecursion (AllByRecursion HasShortBodies) plans.items }
    requires asked { AreOf session.now.boards scripts.now shown.now plans.items (map asking asked.now) }
    ensures { (text : List ℕ) → IsShownBy session.now.boards scripts.now text shown.now →
        IfOk result (IsVerdict session.now scripts.now text) }
{
    let made = plans.as_slice();
    if let Some(line) = first_partial(made, asked) {
        let why = AuditWhy::Partial;
        return Ok(Verdict::No { line, why });
    }
    if let Some(line) = first_misplaced(alloc, made, asked, shown)? {
        let why = AuditWhy::Place;
        return Ok(Verdict::No { line, why });
    }
    let miscounted = first_miscounted(alloc, made, asked, scripts, shown)?;
    if let Some(line) = first_wrong(alloc, session, scripts, plans, asked)? {
        let why = AuditWhy::Result;
        return Ok(Verdict::No { line, why });
    }
    match miscounted {
        Some(line) => Ok(Verdict::No {
            line,
            why: AuditWhy::Count,
        }),
        None => Ok(Verdict::Yes),
    }
}

/// The verdict on a text that shows this.
fn verdict_on(
    alloc: Global,
    session: &Session,
    scripts: &[Steps],
    shown: &Shown,
) -> Result<Verdict, NoMemory>
    requires can { CanBeAudited session.now scripts.now }
    requires shown { (text : List ℕ) × IsShownBy session.now.boards scripts.now text shown.now }
    ensures { (text : List ℕ) → IsShownBy session.now.boards scripts.now text shown.now →
        IfOk result (IsVerdict session.now scripts.now text) }
{
    let asked = asked_ops(alloc, scripts, shown)?;
    let plans = plans_of(alloc, session.boards.as_slice(), scripts)?;
    verdict_by(alloc, session, scripts, shown, plans, asked.as_slice())
}

/// Whether a text is a transcript that fits a session, by the steps of each client, under the policy of the session
/// (profile). Else the first rule that it breaks, at its first line.
pub fn audit(
    alloc: Global,
    session: &Session,
    scripts: &[Steps],
    text: &[u8],
) -> Result<Verdict, NoMemory>
    requires { CanBeAudited session.now scripts.now }
    ensures { IfOk result (IsVerdict session.now scripts.now text.now) }
{
    match read_transcript(alloc, session.boards.as_slice(), scripts, text) {
        Ok(shown) => verdict_on(alloc, session, scripts, &shown),
        Err(Unshown::At { line }) => Ok(Verdict::No {
            line,
            why: AuditWhy::Form,
        }),
        Err(Unshown::NoMemory) => Err(NoMemory),
    }
}
