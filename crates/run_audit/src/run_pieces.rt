//! Where the pieces of operations stand, by the runs of their boards.

ghost use Rattle.std.specs.Prelude.{◌≡◌, [], MatchOption, None, Some, slice_get, unwrap_or};
ghost use Rattle.script_plans.specs.Plan.{no_bodies};
ghost use Rattle.run_audit.specs.Apart.{plans_in};
ghost use Rattle.run_audit.specs.Steps.{asking, plan_at, planned_pieces};
ghost use Rattle.run_audit.specs.Unreplayed.{sent_in};

use crate::asking::AskedOp;
use script_plans::{BoardRun, Greeting, PieceAt, Planned};

/// What a client asked of a board; none where one of them is not there.
fn planned_at(runs: &[BoardRun], board: usize, client: usize) -> Option<&Planned>
    ensures { MatchOption result (plan_at (plans_in runs.now) board client ≡ no_bodies)
        (λ planned. plan_at (plans_in runs.now) board client ≡ planned.now) }
{
    let run = runs.get(board)?;
    let part = run.parts.as_slice().get(client)?;
    Some(&part.planned)
}

/// Where the pieces of an operation that no rule denies stand in the bodies of its client on its board.
fn pieces_of(runs: &[BoardRun], board: usize, client: usize, number: usize) -> &[PieceAt]
    ensures { result.now ≡ unwrap_or (slice_get (plan_at (plans_in runs.now) board client).pieces number) [] }
{
    let Some(planned) = planned_at(runs, board, client) else {
        return &[];
    };
    match planned.pieces(number) {
        Some(pieces) => pieces,
        None => &[],
    }
}

/// Where the pieces of an operation stand in the bodies of its client on its board; one that is denied has none.
pub(crate) fn pieces_in<'a>(runs: &'a [BoardRun], asked: &AskedOp) -> &'a [PieceAt]
    ensures { result.now ≡ planned_pieces (plans_in runs.now) (asking asked.now) }
{
    match asked.denied {
        Some(_) => &[],
        None => pieces_of(runs, asked.op.board as usize, asked.client, asked.number),
    }
}

/// The pieces of an operation that its client asks of a live board. None where it asks for none of that number.
pub(crate) fn sent_pieces<'a>(runs: &'a [BoardRun], asked: &AskedOp) -> Option<&'a [PieceAt]>
    ensures { MatchOption result (sent_in runs.now (asking asked.now) ≡ None)
        (λ pieces. sent_in runs.now (asking asked.now) ≡ Some pieces.now) }
{
    let run = runs.get(asked.op.board as usize)?;
    let Greeting::Live { .. } = run.greeting else {
        return None;
    };
    let part = run.parts.as_slice().get(asked.client)?;
    part.planned.pieces(asked.number)
}
