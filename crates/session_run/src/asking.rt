//! What each client asks of the lanes of a hub, dispatch by dispatch.

ghost use Rattle.std.specs.Prelude.{◌≡◌, ◌+◌, ◌<◌, ◌^◌, ◌++◌, length, IfOk, OnOk};
ghost use Rattle.std.specs.List.{AllByRecursion};
ghost use Rattle.client_threads.specs.Clients.{AreOfClientsFrom, IsPlanFor};
ghost use Rattle.session_run.specs.Plans.{ArePlansOnBoard, AskAllFrom, HasFewBodies};
ghost use Rattle.session_run.specs.Plans as spec;
ghost use Rattle.script_plans.specs.Plan.{dispatches};

use crate::board_plans::BoardPlans;
use client_threads::{Asks, ClientPlan, Dispatch, Dispatches};
use ipb_base::NoMemory;
use script_plans::Planned;
use script_steps::{Step, Steps};
use std::alloc::Global;
use std::slice::Iter;

/// How many bodies a client, from 0, has in a dispatch on a board.
fn count_at(planned: &[Planned], client: usize, dispatch: usize) -> usize
    ensures { result ≡ spec.count_at client dispatch planned.now }
{
    let Some(plan) = planned.get(client) else {
        return 0;
    };
    plan.counts().get(dispatch).copied().unwrap_or(0)
}

/// Adds a lane with a number of bodies, unless there are none.
fn add_pair(asks: &mut Asks, lane: u32, count: u32) -> Result<(), NoMemory>
    ensures { OnOk result (asks.new ≡ asks.old ++ spec.pair_of lane count) }
{
    if count > 0 {
        asks.push(lane, count)?;
    }
    Ok(())
}

/// What a client, from 0, asks of all lanes in a dispatch.
fn dispatch_over(
    alloc: Global,
    boards: &[BoardPlans],
    client: usize,
    dispatch: usize,
    operations: u32,
) -> Result<Dispatch, NoMemory>
    requires few_boards { length boards.now < 2 ^ 32 }
    requires few_bodies { AllByRecursion (AllByRecursion HasFewBodies) boards.now }
    ensures { IfOk result (λ made. made ≡ spec.dispatch_over boards.now client dispatch) }
{
    let mut asks = Asks::new(alloc, operations);
    for (lane, board) in boards.iter().enumerate() {
        let count = count_at(board.as_slice(), client, dispatch);
        add_pair(&mut asks, lane as u32, count as u32)?;
    }
    Ok(Dispatch { asks })
}

/// How many operations are left before the next dispatch, and no more than 32 bits can say. It goes past them.
fn operations_ahead(steps: &mut Iter<'_, Step>) -> u32 {
    let mut count = 0u32;
    for step in steps {
        match step {
            Step::Do(_) => count = count.saturating_add(1),
            Step::Denied { .. } => {}
            Step::Dispatch => return count,
        }
    }
    count
}

/// What a client, from 0, asks of all lanes for these steps, in so many dispatches.
fn plan_over(
    alloc: Global,
    boards: &[BoardPlans],
    client: usize,
    steps: &[Step],
    many: usize,
) -> Result<ClientPlan, NoMemory>
    requires few_boards { length boards.now < 2 ^ 32 }
    requires few_bodies { AllByRecursion (AllByRecursion HasFewBodies) boards.now }
    requires client { client + 1 < 2 ^ 32 }
    ensures { IfOk result (λ plan. plan ≡ spec.plan_over boards.now client many) }
{
    let mut all = Vec::with_capacity(alloc, many)?;
    let mut steps = steps.iter();
    for dispatch in 0..many {
        let operations = operations_ahead(&mut steps);
        all.push_reserved(dispatch_over(alloc, boards, client, dispatch, operations)?);
    }
    Ok(ClientPlan {
        client: client as u32 + 1,
        dispatches: Dispatches::from_vec(all),
    })
}

/// How many dispatches a step ends.
fn ends_in(step: &Step) -> usize
    ensures { result ≡ spec.ends_in step.now }
{
    match step {
        Step::Do(_) | Step::Denied { .. } => 0,
        Step::Dispatch => 1,
    }
}

/// How many dispatches a script has: its end is one.
fn dispatch_count(steps: &[Step]) -> usize
    ensures { result ≡ length (dispatches steps.now) }
{
    let mut count = 1;
    for step in steps {
        count += ends_in(step);
    }
    count
}

/// The plans of all clients, client 1 first, by what each has planned on each board.
pub fn client_plans(
    alloc: Global,
    scripts: &[Steps],
    boards: &[BoardPlans],
) -> Result<Vec<ClientPlan>, NoMemory>
    requires few_clients { length scripts.now < 2 ^ 32 }
    requires few_boards { length boards.now < 2 ^ 32 }
    requires few_bodies { AllByRecursion (AllByRecursion HasFewBodies) boards.now }
    requires planned { AllByRecursion (ArePlansOnBoard scripts.now) boards.now }
    ensures clients { IfOk result (λ plans. AreOfClientsFrom 1 plans.items) }
    ensures all { IfOk result (λ plans. length plans.items ≡ length scripts.now) }
    ensures lanes { IfOk result (λ plans. AllByRecursion (IsPlanFor (length boards.now)) plans.items) }
    ensures counts { IfOk result (λ plans. AskAllFrom 0 plans.items boards.now) }
{
    let mut plans = Vec::with_capacity(alloc, scripts.len())?;
    for (client, steps) in scripts.iter().enumerate() {
        let many = dispatch_count(steps.as_slice());
        plans.push_reserved(plan_over(alloc, boards, client, steps.as_slice(), many)?);
    }
    Ok(plans)
}
