//! The lines of a run's operations.

ghost use Rattle.std.specs.Prelude.{◌≡◌, ◌+◌, ◌-◌, ◌++◌, ◌^◌, ◌<◌, ◌∷◌, [], IfOk, OnOk, length, map, option_to_list};
ghost use Rattle.std.specs.Prelude.{option_map, slice_get, slice_index};
ghost use Rattle.transcript.specs.Lines as spec;
ghost use Rattle.transcript.specs.Steps.{ends_on, denied_line, line_on, one_more_at, AreBelow};

use crate::body_end::{BodyEnd, ends_of};
use crate::counting::Counts;
use crate::line::OpLine;
use crate::showing::Shown;
use ipb_base::{NoMemory, Text};
use script_plans::BoardRun;
use script_steps::{RegOp, Step, Steps};
use std::alloc::Global;

/// How a client's bodies on a board ended.
fn ends_on(alloc: Global, run: &BoardRun, client: usize) -> Result<Vec<BodyEnd>, NoMemory>
    ensures { IfOk result (λ ends. ends.items ≡ ends_on client run.now) }
{
    match run.parts.as_slice().get(client) {
        Some(part) => {
            let bodies = part.planned.bodies();
            ends_of(
                alloc,
                bodies,
                part.outcomes.as_slice(),
                part.lates.as_slice(),
            )
        }
        None => Ok(Vec::new(alloc)),
    }
}

/// The ends of the pieces on every board, in board order.
pub(crate) fn all_ends(
    alloc: Global,
    runs: &[BoardRun],
    client: usize,
) -> Result<Vec<Vec<BodyEnd>>, NoMemory>
    ensures { IfOk result (λ all. map (λ ends. ends.items) all.items ≡ map (ends_on client) runs.now) }
{
    let mut all = Vec::with_capacity(alloc, runs.len())?;
    for run in runs {
        all.push_reserved(ends_on(alloc, run, client)?);
    }
    Ok(all)
}

/// The lines of a client so far, and how many operations they are of.
#[derive(Drop)]
struct Progress {
    lines: Vec<OpLine>,
    counts: Counts,
}

/// Adds the line of an operation on a board, of which this is told. It has the number that was counted last.
fn add_shown(
    alloc: Global,
    run: &BoardRun,
    op: &RegOp,
    shown: Shown,
    progress: &mut Progress,
) -> Result<(), NoMemory>
    ensures counts { OnOk result (progress.new.counts ≡ progress.old.counts) }
    ensures lines { OnOk result (progress.new.lines.items ≡ progress.old.lines.items
        ++ (spec.line_with progress.old.counts.number op.now run.now.name shown ∷ [])) }
{
    let board = Text::copy_of(alloc, run.name.as_str())?;
    let name = Text::copy_of(alloc, op.name.as_str())?;
    let line = shown.into_line(progress.counts.number, op.verb, board, name);
    Ok(progress.lines.push(line)?)
}

/// Adds the line of a client's next operation.
fn add_line(
    alloc: Global,
    runs: &[BoardRun],
    client: usize,
    ends: &[Vec<BodyEnd>],
    op: &RegOp,
    progress: &mut Progress,
) -> Result<(), NoMemory>
    requires ends { map (λ e. e.items) ends.now ≡ map (ends_on client) runs.now }
    requires below { AreBelow progress.old.counts.number progress.old.counts.on_boards.items }
    ensures number { OnOk result (progress.new.counts.number ≡ progress.old.counts.number + 1) }
    ensures counts { OnOk result (progress.new.counts.on_boards.items
        ≡ one_more_at op.now.board progress.old.counts.on_boards.items) }
    ensures lines { let number = progress.old.counts.number + 1 in
        let k = slice_index progress.old.counts.on_boards.items op.now.board in
        OnOk result (progress.new.lines.items ≡ progress.old.lines.items
        ++ option_to_list (option_map (line_on client number k op.now) (slice_get runs.now op.now.board))) }
{
    let board = op.board as usize;
    let k = progress.counts.add(board)?;
    let Some(run) = runs.get(board) else {
        return Ok(());
    };
    let mut shown = Shown::new(alloc);
    shown.tell(run, client, ends[board].as_slice(), k, op)?;
    add_shown(alloc, run, op, shown, progress)
}

/// Adds the line of a client's next operation, which this rule denies. It has the next number and is counted on no
/// board.
fn add_denied_line(
    alloc: Global,
    runs: &[BoardRun],
    op: &RegOp,
    rule: u32,
    progress: &mut Progress,
) -> Result<(), NoMemory>
    ensures number { OnOk result (progress.new.counts.number ≡ progress.old.counts.number + 1) }
    ensures counts { OnOk result (progress.new.counts.on_boards.items ≡ progress.old.counts.on_boards.items) }
    ensures lines { let number = progress.old.counts.number + 1 in
        OnOk result (progress.new.lines.items ≡ progress.old.lines.items
        ++ option_to_list (option_map (denied_line number op.now rule) (slice_get runs.now op.now.board))) }
{
    progress.counts.raise_number()?;
    let Some(run) = runs.get(op.board as usize) else {
        return Ok(());
    };
    let mut shown = Shown::new(alloc);
    shown.tell_denied(rule);
    add_shown(alloc, run, op, shown, progress)
}

/// The lines of a client, counted from 0, in the order of its operations: by its steps, and by what became of each
/// board. A denied operation has its number and its line as the others. Each reply is joined to its body once. More
/// than 2^32 - 1 operations are answered by `NoMemory` too.
pub fn client_lines(
    alloc: Global,
    runs: &[BoardRun],
    client: usize,
    steps: &[Step],
) -> Result<Vec<OpLine>, NoMemory>
    ensures { IfOk result (λ lines. lines.items ≡ spec.client_lines runs.now client steps.now) }
{
    let ends = all_ends(alloc, runs, client)?;
    let mut progress = Progress {
        lines: Vec::with_capacity(alloc, steps.len())?,
        counts: Counts::new(alloc, runs.len())?,
    };
    for step in steps {
        match step {
            Step::Do(op) => add_line(alloc, runs, client, ends.as_slice(), op, &mut progress)?,
            Step::Denied { rule, op } => add_denied_line(alloc, runs, op, *rule, &mut progress)?,
            Step::Dispatch => {}
        }
    }
    Ok(progress.lines)
}

/// The lines of all clients, client 1 first, by the steps of each.
pub fn lines_of_clients(
    alloc: Global,
    runs: &[BoardRun],
    scripts: &[Steps],
) -> Result<Vec<Vec<OpLine>>, NoMemory>
    ensures { IfOk result (λ all. map (λ lines. lines.items) all.items ≡ spec.lines_from runs.now 0 scripts.now) }
{
    let mut all = Vec::with_capacity(alloc, scripts.len())?;
    for (client, steps) in scripts.iter().enumerate() {
        all.push_reserved(client_lines(alloc, runs, client, steps.as_slice())?);
    }
    Ok(all)
}
