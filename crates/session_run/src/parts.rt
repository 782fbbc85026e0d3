//! The part of each client on each board.

ghost use Rattle.std.specs.Prelude.{◌≡◌, [], length, map, IfOk, OnOk};
ghost use Rattle.std.specs.List.{AllByRecursion};
ghost use Rattle.client_threads.specs.declared.result.ClientResult.{ClientResult};
ghost use Rattle.board_history.specs.Runs.{parts_with};
ghost use Rattle.session_run.specs.Parts.{HasClients, HasLanes, HasNext, next_of, others_of, parts_from};

use crate::board_plans::BoardPlans;
use crate::rest::RestOutcomes;
use client_threads::ClientResult;
use ipb_base::NoMemory;
use script_plans::{ClientPart, ClientParts, Lates};
use std::alloc::Global;

/// The parts of the clients on a board, by what became of their bodies on the next lane. What came late is put into
/// them when the lane is back.
fn parts_on_next(
    alloc: Global,
    planned: BoardPlans,
    clients: &mut [RestOutcomes],
) -> Result<ClientParts, NoMemory>
    requires all { HasClients (length clients.old) planned }
    requires next { AllByRecursion HasNext clients.old }
    ensures parts { IfOk result (λ parts. parts ≡ parts_with planned (map next_of clients.old) []) }
    ensures others { OnOk result (clients.new ≡ map others_of clients.old) }
{
    let mut parts = Vec::with_capacity(alloc, clients.len())?;
    let mut plans = planned.into_vec().into_iter();
    for client in clients.iter_mut() {
        let Some(planned) = plans.next() else {
            unreachable!()
        };
        let outcomes = client.next();
        let lates = Lates::from_vec(Vec::new(alloc));
        parts.push_reserved(ClientPart {
            planned,
            outcomes,
            lates,
        });
    }
    Ok(ClientParts::from_vec(parts))
}

/// What became of each client's bodies, lane by lane.
fn all_lanes(alloc: Global, results: Vec<ClientResult>) -> Result<Vec<RestOutcomes>, NoMemory>
    ensures { IfOk result (λ rests. rests.items ≡ map (λ (r : ClientResult). r.lanes) results.items) }
{
    let mut rests = Vec::with_capacity(alloc, results.len())?;
    for client in results {
        rests.push_reserved(RestOutcomes::of(client));
    }
    Ok(rests)
}

/// The parts of all clients on each board, in the order of the lanes.
pub fn client_parts(
    alloc: Global,
    boards: Vec<BoardPlans>,
    results: Vec<ClientResult>,
) -> Result<Vec<ClientParts>, NoMemory>
    requires lanes { AllByRecursion (HasLanes (length boards.items)) results.items }
    requires clients { AllByRecursion (HasClients (length results.items)) boards.items }
    ensures { IfOk result (λ parts. parts.items ≡ parts_from 0 boards.items results.items) }
{
    let mut parts = Vec::with_capacity(alloc, boards.len())?;
    let mut clients = all_lanes(alloc, results)?;
    for planned in boards {
        parts.push_reserved(parts_on_next(alloc, planned, &mut clients)?);
    }
    Ok(parts)
}
