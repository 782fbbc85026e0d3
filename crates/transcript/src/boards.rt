//! The lines of a run's boards.

ghost use Rattle.std.specs.Prelude.{◌≡◌, IfOk, map, count_by};
ghost use Rattle.transcript.specs.Lines as spec;
ghost use Rattle.script_plans.specs.Runs.{outcomes_in};
ghost use Rattle.transcript.specs.Steps.{is_of};

use crate::line::BoardLine;
use ipb_base::{NoMemory, Text};
use lane_record::Outcome;
use script_plans::{BoardRun, ClientPart, Greeting};
use std::alloc::Global;

/// What a board's line counts.
#[derive(Clone, Copy)]
enum Kind {
    Sent,
    Replied,
    TimedOut,
    Lost,
}

/// Whether this is the outcome of a body that is counted.
fn is_of(kind: Kind, outcome: &Outcome) -> bool
    ensures { result ≡ is_of kind outcome.now }
{
    match kind {
        Kind::Sent => outcome.is_sent(),
        Kind::Replied => matches!(outcome, Outcome::Replied { .. }),
        Kind::TimedOut => matches!(outcome, Outcome::TimedOut { .. }),
        Kind::Lost => matches!(outcome, Outcome::LinkLost { place: Some(_) }),
    }
}

fn count_in(outcomes: &[Outcome], kind: Kind) -> usize
    ensures { result ≡ count_by (is_of kind) outcomes.now }
{
    outcomes
        .iter()
        .filter(|outcome| is_of(kind, outcome))
        .count()
}

/// How many bodies of the clients on a board are of a kind.
fn count(parts: &[ClientPart], kind: Kind) -> Result<u64, NoMemory>
    ensures { IfOk result (λ total. total ≡ count_by (is_of kind) (outcomes_in parts.now)) }
{
    let mut total = 0u64;
    for part in parts {
        let more = count_in(part.outcomes.as_slice(), kind) as u64;
        let Some(sum) = total.checked_add(more) else {
            return Err(NoMemory);
        };
        total = sum;
    }
    Ok(total)
}

/// The line of a board.
fn board_line(alloc: Global, run: &BoardRun) -> Result<BoardLine, NoMemory>
    ensures { IfOk result (λ line. line ≡ spec.board_line run.now) }
{
    let name = Text::copy_of(alloc, run.name.as_str())?;
    let parts = run.parts.as_slice();
    match run.greeting {
        Greeting::Live { .. } => Ok(BoardLine::Live {
            name,
            sent: count(parts, Kind::Sent)?,
            replied: count(parts, Kind::Replied)?,
            timed_out: count(parts, Kind::TimedOut)?,
            lost: count(parts, Kind::Lost)?,
        }),
        Greeting::Silent => Ok(BoardLine::Silent { name }),
        Greeting::Down => Ok(BoardLine::Down { name }),
    }
}

/// The lines of the boards, in their order: for each live one the first sends, and what became of them. More bodies of
/// a board than 64 bits count are answered by `NoMemory` too.
pub fn board_lines(alloc: Global, runs: &[BoardRun]) -> Result<Vec<BoardLine>, NoMemory>
    ensures { IfOk result (λ lines. lines.items ≡ map spec.board_line runs.now) }
{
    let mut lines = Vec::with_capacity(alloc, runs.len())?;
    for run in runs {
        lines.push_reserved(board_line(alloc, run)?);
    }
    Ok(lines)
}
