//! The operations of a session with what their lines show.

ghost use Rattle.std.specs.Prelude.{◌≡◌, ℕ, ◌+◌, ◌++◌, ◌<◌, ◌^◌, ◌==◌, if◌then◌else◌, [], Some, None};
ghost use Rattle.std.specs.Prelude.{IfOk, MatchOption, OnOk, length, map, slice_index};
ghost use Rattle.script_steps.specs.Rulings.{asked_operations, asked_in};
ghost use Rattle.transcript_reader.specs.Entries.{clients_from};
ghost use Rattle.run_audit.specs.AskedLines.{asked_lines, asked_behind};
ghost use Rattle.run_audit.specs.Steps.{asking};

use ipb_base::NoMemory;
use script_steps::{RegOp, Step, Steps};
use std::alloc::Global;
use transcript_reader::{Shown, ShownOp};

/// An operation of a session, and what its line shows.
#[derive(Clone, Copy)]
pub(crate) struct AskedOp<'a> {
    /// The number of the line in the text, from 1.
    pub(crate) line: u32,
    /// The client, from 0.
    pub(crate) client: usize,
    /// The number of the operation, from 0, among those of its client on its board that no rule denies.
    pub(crate) number: usize,
    pub(crate) op: &'a RegOp,
    /// The rule that denies it.
    pub(crate) denied: Option<u32>,
    pub(crate) shown: &'a ShownOp,
}

/// The operation of a step, and the rule that denies it; a dispatch has none.
fn op_of(step: &Step) -> Option<(&RegOp, Option<u32>)>
    ensures { MatchOption result (asked_in step.now ≡ None)
        (λ found. asked_in step.now ≡ Some (record { op = found.0.now; denied = found.1 })) }
{
    match step {
        Step::Do(op) => Some((op, None)),
        Step::Denied { rule, op } => Some((op, Some(*rule))),
        Step::Dispatch => None,
    }
}

/// How many operations were counted on a board.
fn count_at(counts: &[usize], board: usize) -> usize
    ensures { result ≡ slice_index counts.now board }
{
    match counts.get(board) {
        Some(count) => *count,
        None => 0,
    }
}

/// Makes room for the count of a board, at which nothing was counted yet where there was none.
fn make_room(counts: &mut Vec<usize>, board: usize) -> Result<(), NoMemory>
    ensures room { OnOk result (board < length counts.new.items) }
    ensures same { OnOk result ((b : ℕ) → slice_index counts.new.items b ≡ slice_index counts.old.items b) }
{
    for _ in counts.len()..=board {
        counts.push(0)?;
    }
    Ok(())
}

/// Counts an operation on a board.
fn count_one(counts: &mut Vec<usize>, board: usize) -> Result<(), NoMemory>
    ensures { OnOk result ((b : ℕ) → slice_index counts.new.items b
        ≡ slice_index counts.old.items b + (if board == b then 1 else 0)) }
{
    make_room(counts, board)?;
    let Some(count) = counts[board].checked_add(1) else {
        return Err(NoMemory);
    };
    counts[board] = count;
    Ok(())
}

/// Adds the operations of a client, the first of which has this line, and tells which line is behind them.
fn push_client<'a>(
    alloc: Global,
    all: &mut Vec<AskedOp<'a>>,
    client: usize,
    first: u32,
    steps: &'a [Step],
    shows: &'a [ShownOp],
) -> Result<u32, NoMemory>
    requires { first + length (asked_operations steps.now) < 2 ^ 32 }
    ensures lines { OnOk result (map asking all.new.items
        ≡ map asking all.old.items ++ asked_behind first client [] (asked_operations steps.now) shows.now) }
    ensures next { IfOk result (λ next. next ≡ first + length (asked_operations steps.now)) }
{
    let mut counts = Vec::new(alloc);
    let mut line = first;
    for step in steps {
        let Some((op, denied)) = op_of(step) else {
            continue;
        };
        let board = op.board as usize;
        if let Some(shown) = shows.get((line - first) as usize) {
            let number = count_at(counts.as_slice(), board);
            all.push(AskedOp {
                line,
                client,
                number,
                op,
                denied,
                shown,
            })?;
        }
        if denied.is_none() {
            count_one(&mut counts, board)?;
        }
        line += 1;
    }
    Ok(line)
}

/// All operations of a session, in the order of the text.
pub(crate) fn asked_ops<'a>(
    alloc: Global,
    scripts: &'a [Steps],
    shown: &'a Shown,
) -> Result<Vec<AskedOp<'a>>, NoMemory>
    requires { length (clients_from 1 scripts.now) + 1 < 2 ^ 32 }
    ensures { IfOk result (λ all. map asking all.items ≡ asked_lines scripts.now shown.now) }
{
    let clients = shown.clients.as_slice();
    let mut all = Vec::new(alloc);
    let mut heading = 1;
    for (client, steps) in scripts.iter().enumerate() {
        let Some(shows) = clients.get(client) else {
            return Ok(all);
        };
        let first = heading + 1;
        heading = push_client(
            alloc,
            &mut all,
            client,
            first,
            steps.as_slice(),
            shows.as_slice(),
        )?;
    }
    Ok(all)
}
