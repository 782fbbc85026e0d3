//! What the line of an operation would show, had its board replied in time.

ghost use Rattle.std.specs.Prelude.{◌≡◌, ◌⊎◌, ◌&&◌, ◌==◌, ℕ, IfOk, IfSome, List, None, is_none, option_map};
ghost use Rattle.std.specs.Prelude.{MatchOption, position, slice_get};
ghost use Rattle.std.specs.List.{flat_map};
ghost use Rattle.transcript.specs.Lines.{lines_from};
ghost use Rattle.transcript.specs.declared.line.OpLine.{OpLine as LineValue};
ghost use Rattle.transcript.specs.declared.line.OpResult.{OpResult as ResultValue};
ghost use Rattle.transcript_reader.specs.declared.shown.Shown.{Shown as ShownValue};
ghost use Rattle.transcript_reader.specs.Faults.{IsFaultAt};
ghost use Rattle.transcript_reader.specs.Shown.{IsShownBy};
ghost use Rattle.run_audit.specs.declared.asking.AskedOp.{AskedOp as AskedValue};
ghost use Rattle.run_audit.specs.Results.{IsInTime};
ghost use Rattle.run_audit.specs.Verdicts.{CanBeAudited};

use crate::asking::{AskedOp, asked_ops};
use crate::plans::plans_of;
use crate::replaying::replayed_runs;
use ipb_base::NoMemory;
use script_lang::Session;
use script_plans::BoardRun;
use script_steps::Steps;
use std::alloc::Global;
use transcript::{OpLine, OpResult, client_lines};
use transcript_reader::{Shown, Unshown, read_transcript};

/// Where the operation of a line stands, if no rule denies it.
fn allowed_at(asked: &[AskedOp], line: u32) -> Option<usize>
    ensures { result ≡ position (λ (op : AskedValue). op.line == line && is_none op.denied) asked.now }
{
    asked
        .iter()
        .position(|op| op.line == line && op.denied.is_none())
}

/// The lines that the clients would show, had the boards replied in time, one client behind the other.
fn replayed_lines(
    alloc: Global,
    runs: &[BoardRun],
    scripts: &[Steps],
) -> Result<Vec<OpLine>, NoMemory>
    ensures { IfOk result (λ all.
        all.items ≡ flat_map (λ lines. lines) (lines_from runs.now 0 scripts.now)) }
{
    let mut all = Vec::new(alloc);
    for (client, steps) in scripts.iter().enumerate() {
        let mut lines = client_lines(alloc, runs, client, steps.as_slice())?;
        all.append(&mut lines)?;
    }
    Ok(all)
}

/// What the line at an index shows.
fn result_at(mut lines: Vec<OpLine>, at: usize) -> Option<OpResult>
    ensures { result ≡ option_map (λ (line : LineValue). line.result) (slice_get lines.items at) }
{
    if at >= lines.len() {
        return None;
    }
    let OpLine { result, .. } = lines.swap_remove(at);
    Some(result)
}

/// What the line of an operation would show, by what a text shows.
fn shown_in_time(
    alloc: Global,
    session: &Session,
    scripts: &[Steps],
    shown: &Shown,
    line: u32,
) -> Result<Option<OpResult>, NoMemory>
    requires can { CanBeAudited session.now scripts.now }
    requires shown { (text : List ℕ) × IsShownBy session.now.boards scripts.now text shown.now }
    ensures { IfOk result (λ found. MatchOption found
        ((result : ResultValue) → ¬ IsInTime session.now.boards scripts.now shown.now line result)
        (IsInTime session.now.boards scripts.now shown.now line)) }
{
    let asked = asked_ops(alloc, scripts, shown)?;
    let Some(at) = allowed_at(asked.as_slice(), line) else {
        return Ok(None);
    };
    let boards = session.boards.as_slice();
    let plans = plans_of(alloc, boards, scripts)?;
    let runs = replayed_runs(alloc, boards, plans, asked.as_slice())?;
    let lines = replayed_lines(alloc, runs.as_slice(), scripts)?;
    Ok(result_at(lines, at))
}

/// What the line of an operation would show, had its board replied in time to each body that the text shows with a place
/// (profile). None where the text is no transcript of the session, or the line is not that of an operation that no rule
/// denies.
pub fn result_in_time(
    alloc: Global,
    session: &Session,
    scripts: &[Steps],
    text: &[u8],
    line: u32,
) -> Result<Option<OpResult>, NoMemory>
    requires { CanBeAudited session.now scripts.now }
    ensures found { IfOk result (λ found. IfSome found (λ result. (shown : ShownValue)
        × IsShownBy session.now.boards scripts.now text.now shown
        × IsInTime session.now.boards scripts.now shown line result)) }
    ensures none { IfOk result (λ found. found ≡ None →
        ((at : ℕ) × IsFaultAt session.now.boards scripts.now text.now at)
        ⊎ ((shown : ShownValue) × IsShownBy session.now.boards scripts.now text.now shown
        × ((result : ResultValue) → ¬ IsInTime session.now.boards scripts.now shown line result))) }
{
    match read_transcript(alloc, session.boards.as_slice(), scripts, text) {
        Ok(shown) => shown_in_time(alloc, session, scripts, &shown, line),
        Err(Unshown::At { .. }) => Ok(None),
        Err(Unshown::NoMemory) => Err(NoMemory),
    }
}
