//! What the clients of a session ask of its boards.

ghost use Rattle.std.specs.Prelude.{◌≡◌, ◌<◌, ◌^◌, [], IfOk, List, MatchOption, length, slice_get, unwrap_or};
ghost use Rattle.std.specs.List.{AllByRecursion};
ghost use Rattle.board_specs.specs.declared.spec.BoardSpec.{BoardSpec as SpecValue};
ghost use Rattle.board_history.specs.Runs.{greeting_of};
ghost use Rattle.script_plans.specs.Plan.{no_bodies, plans_on};
ghost use Rattle.script_steps.specs.Packing.{CanBePacked, HaveFewPieces};
ghost use Rattle.script_steps.specs.declared.operation.Step.{Step};
ghost use Rattle.transcript_reader.specs.Entries.{IsHere, IsLinkHere};
ghost use Rattle.run_audit.specs.AskedLines as spec;
ghost use Rattle.run_audit.specs.Steps.{asking, plan_at, planned_pieces, plans_from};
ghost use Rattle.run_audit.specs.Replaying.{HasShortBodies};

use crate::asking::AskedOp;
use board_specs::{BoardSpec, LinkSpec};
use ipb_base::NoMemory;
use script_plans::{PieceAt, Planned, plan_on};
use script_steps::Steps;
use std::alloc::Global;
use std::marker::Model;
use transcript_reader::greeting_of;

/// What each client asks of one board. Contracts see that list.
#[derive(Drop)]
pub(crate) struct BoardPlans {
    items: Vec<Planned>,
}

impl Model for BoardPlans {
    ghost use Rattle.std.specs.Prelude.{List};
    ghost use Rattle.script_plans.specs.Plan.{ClientBodies};

    ghost Value = { List ClientBodies };

    ghost view = { λ plans. plans.items.items };
}

impl BoardPlans {
    /// The plans, client by client.
    pub(crate) fn as_slice(&self) -> &[Planned]
        ensures { result.now ≡ self.now }
    {
        self.items.as_slice()
    }

    /// The vector of the plans. It takes no memory.
    pub(crate) fn into_vec(self) -> Vec<Planned>
        ensures { result.items ≡ self }
    {
        let BoardPlans { items } = self;
        items
    }
}

/// What each client asks of the board at a position.
fn plans_on(
    alloc: Global,
    link: &LinkSpec,
    board: u32,
    scripts: &[Steps],
) -> Result<BoardPlans, NoMemory>
    requires link { IsLinkHere link.now }
    requires packed { AllByRecursion (AllByRecursion CanBePacked) scripts.now }
    requires few { AllByRecursion HaveFewPieces scripts.now }
    ensures plans { IfOk result (λ plans. plans ≡ plans_on board (greeting_of link.now) scripts.now) }
    ensures short { IfOk result (λ plans. AllByRecursion HasShortBodies plans) }
{
    let greeting = greeting_of(link);
    let mut items = Vec::with_capacity(alloc, scripts.len())?;
    for steps in scripts {
        items.push(plan_on(alloc, steps.as_slice(), board, greeting)?)?;
    }
    Ok(BoardPlans { items })
}

/// What each client asks of each board.
pub(crate) fn plans_of(
    alloc: Global,
    boards: &[BoardSpec],
    scripts: &[Steps],
) -> Result<Vec<BoardPlans>, NoMemory>
    requires boards { AllByRecursion IsHere boards.now }
    requires count { length boards.now < 2 ^ 32 }
    requires packed { AllByRecursion (AllByRecursion CanBePacked) scripts.now }
    requires few { AllByRecursion HaveFewPieces scripts.now }
    ensures plans { IfOk result (λ plans. plans.items ≡ plans_from 0 boards.now scripts.now) }
    ensures short { IfOk result (λ plans. AllByRecursion (AllByRecursion HasShortBodies) plans.items) }
{
    let mut plans = Vec::with_capacity(alloc, boards.len())?;
    for (board, spec) in boards.iter().enumerate() {
        plans.push(plans_on(alloc, &spec.link, board as u32, scripts)?)?;
    }
    Ok(plans)
}

/// What a client asks of a board; none where one of them is not there.
fn plan_at<'a>(plans: &'a [BoardPlans], board: usize, client: usize) -> Option<&'a Planned>
    ensures { MatchOption result (plan_at plans.now board client ≡ no_bodies)
        (λ planned. plan_at plans.now board client ≡ planned.now) }
{
    plans.get(board)?.as_slice().get(client)
}

/// Where the pieces of an operation that no rule denies stand in the bodies of its client on its board.
fn pieces_of<'a>(
    plans: &'a [BoardPlans],
    board: usize,
    client: usize,
    number: usize,
) -> &'a [PieceAt]
    ensures { result.now ≡ unwrap_or (slice_get (plan_at plans.now board client).pieces number) [] }
{
    let Some(planned) = plan_at(plans, board, client) else {
        return &[];
    };
    match planned.pieces(number) {
        Some(pieces) => pieces,
        None => &[],
    }
}

/// Where the pieces of an operation stand in the bodies of its client on its board; one that is denied has none.

pub(crate) fn pieces_at<'a>(plans: &'a [BoardPlans], asked: &AskedOp) -> &'a [PieceAt]
    ensures planned { result.now ≡ planned_pieces plans.now (asking asked.now) }
    ensures pieces { (boards : List SpecValue) (scripts : List (List Step)) → plans.now ≡ plans_from 0 boards scripts →
        result.now ≡ spec.pieces_of boards scripts (asking asked.now) }
{
    match asked.denied {
        Some(_) => &[],
        None => pieces_of(plans, asked.op.board as usize, asked.client, asked.number),
    }
}
