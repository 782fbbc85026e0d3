//! All lanes of a session, taken from the places of their boards: the clients are planned on each, and then they run at
//! a hub.

ghost use Rattle.std.specs.Prelude.{◌≡◌, ◌<◌, ◌^◌, length, IfOk, IsOkAnd};
ghost use Rattle.std.specs.List.{AllByRecursion};
ghost use Rattle.client_threads.specs.Clients.{AreOfClientsFrom, IsPlanFor};
ghost use Rattle.session_run.specs.Scripts.{CanBeRun};
ghost use Rattle.session_run.specs.Parts.{HasClients, HasLanes, parts_from};
ghost use Rattle.session_run.specs.Plans.{AskAllFrom};
ghost use Rattle.board_greeting.specs.Boards.{HasNoEntry};
ghost use Rattle.board_greeting.specs.Standings.{positions_at_hub};
ghost use Rattle.session_run.specs.Lanes.{AllFour, AllThree, HasGoneOn, IsPlannedOn, IsRunOn};

use crate::asking::client_plans;
use crate::board_plans::BoardPlans;
use crate::hub::run_at_hub;
use crate::parts::client_parts;
use crate::planning::plan_clients;
use board_greeting::{Standing, is_at_hub};
use board_history::building::a_record_is_partly_planned_on_its_way;
use client_history::clients::{
    a_hub_left_at_any_moment_is_partly_planned, a_lane_comes_back_with_its_record,
    clients_of_a_hub_leave_a_clients_record,
};
use client_threads::{ClientPlan, ClientResult, Gate};
use hub_lane::Lane;
use hub_lane::laws::a_record_tells_its_lane;
use ipb_base::NoMemory;
use links::Link;
use script_plans::ClientParts;
use script_steps::Steps;
use std::alloc::Global;
use std::marker::{Send, Sync};
use std::sync::Wait;
use std::thread::Threads;

/// Plans the clients on each lane. These are the lanes of the boards at a hub, in board order.
fn plan_lanes<L: Link>(
    alloc: Global,
    lanes: &mut Vec<Lane<L>>,
    boards: &[Standing<L>],
    scripts: &[Steps],
) -> Result<Vec<BoardPlans>, NoMemory>
    requires few_boards { length boards.now < 2 ^ 32 }
    requires can { CanBeRun scripts.now }
    requires positions { length (positions_at_hub 0 boards.now) ≡ length lanes.old.items }
    requires unused { AllByRecursion HasNoEntry lanes.old.items }
    ensures planned { IfOk result (λ made. AllFour (IsPlannedOn scripts.now) (positions_at_hub 0 boards.now) lanes.old.items
        lanes.new.items made.items) }
    ensures gone_on { AllThree (HasGoneOn L.telling scripts.now) (positions_at_hub 0 boards.now) lanes.old.items lanes.new.items }
{
    a_record_is_partly_planned_on_its_way();
    let mut made = Vec::with_capacity(alloc, lanes.len())?;
    for (position, board) in boards.iter().enumerate() {
        if !is_at_hub(board) {
            continue;
        }
        let at = made.len();
        let planned = plan_clients(alloc, &mut lanes[at], position as u32, scripts)?;
        made.push_reserved(BoardPlans::from_vec(planned));
    }
    Ok(made)
}

/// Plans the clients on each lane, and what each then asks of all lanes.
fn plan_all<L: Link>(
    alloc: Global,
    lanes: &mut Vec<Lane<L>>,
    boards: &[Standing<L>],
    scripts: &[Steps],
) -> Result<(Vec<BoardPlans>, Vec<ClientPlan>), NoMemory>
    requires few_boards { length boards.now < 2 ^ 32 }
    requires can { CanBeRun scripts.now }
    requires positions { length (positions_at_hub 0 boards.now) ≡ length lanes.old.items }
    requires unused { AllByRecursion HasNoEntry lanes.old.items }
    ensures planned { IfOk result (λ made. AllFour (IsPlannedOn scripts.now) (positions_at_hub 0 boards.now) lanes.old.items
        lanes.new.items made.0.items) }
    ensures clients { IfOk result (λ made. AreOfClientsFrom 1 made.1.items) }
    ensures all { IfOk result (λ made. length made.1.items ≡ length scripts.now) }
    ensures for_hub { IfOk result (λ made. AllByRecursion (IsPlanFor (length lanes.new.items)) made.1.items) }
    ensures counts { IfOk result (λ made. AskAllFrom 0 made.1.items made.0.items) }
    ensures gone_on { AllThree (HasGoneOn L.telling scripts.now) (positions_at_hub 0 boards.now) lanes.old.items lanes.new.items }
{
    let plans = plan_lanes(alloc, lanes, boards, scripts)?;
    let clients = client_plans(alloc, scripts, &plans)?;
    Ok((plans, clients))
}

/// The parts of the clients on each board, where they ran to their end.
fn parts_if_ran(
    alloc: Global,
    boards: Vec<BoardPlans>,
    results: Result<Vec<ClientResult>, NoMemory>,
) -> Result<Vec<ClientParts>, NoMemory>
    requires lanes { IfOk results (λ there. AllByRecursion (HasLanes (length boards.items)) there.items) }
    requires clients { IfOk results (λ there. AllByRecursion (HasClients (length there.items)) boards.items) }
    ensures { IfOk result (λ parts. IsOkAnd results (λ there.
        parts.items ≡ parts_from 0 boards.items there.items)) }
{
    client_parts(alloc, boards, results?)
}

/// Runs the scripts of all clients on lanes that nobody asked anything of, each client in a thread of its own, and
/// hands the lanes back. They are the lanes of the boards at a hub, in board order.
pub(crate) fn run_lanes<L: Link + Send + Drop, T: Threads + Wait + Sync, G: Gate>(
    rt: &T,
    alloc: Global,
    mut lanes: Vec<Lane<L>>,
    boards: &[Standing<L>],
    scripts: &[Steps],
    gate: &G,
) -> (Vec<Lane<L>>, Result<Vec<ClientParts>, NoMemory>)
    requires few_boards { length boards.now < 2 ^ 32 }
    requires can { CanBeRun scripts.now }
    requires positions { length (positions_at_hub 0 boards.now) ≡ length lanes.items }
    requires unused { AllByRecursion HasNoEntry lanes.items }
    ensures ran { IfOk result.1 (λ parts. AllThree (IsRunOn scripts.now) (positions_at_hub 0 boards.now) result.0.items parts.items) }
    ensures gone_on { AllThree (HasGoneOn L.telling scripts.now) (positions_at_hub 0 boards.now) lanes.items result.0.items }
{
    a_record_tells_its_lane();
    a_lane_comes_back_with_its_record();
    clients_of_a_hub_leave_a_clients_record();
    a_hub_left_at_any_moment_is_partly_planned();
    match plan_all(alloc, &mut lanes, boards, scripts) {
        Ok((plans, clients)) => {
            let (lanes, results) = run_at_hub(rt, alloc, lanes, &clients, gate);
            (lanes, parts_if_ran(alloc, plans, results))
        }
        Err(NoMemory) => (lanes, Err(NoMemory)),
    }
}
