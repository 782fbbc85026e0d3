//! Clients at a hub of all lanes.

ghost use Rattle.std.specs.Prelude.{◌≡◌, ◌<◌, ◌^◌, length, IfOk};
ghost use Rattle.std.specs.List.{AllByRecursion};
ghost use Rattle.client_threads.specs.Clients.{AreOfClientsFrom, IsPlanFor, OnLanesFrom};
ghost use Rattle.session_run.specs.Parts.{HasLanes};
ghost use Rattle.session_run.specs.Hubs.{CameBack, HoldsAll, RanAtHub};

use client_history::clients::sealed_plans_await_their_clients;
use client_threads::{ClientPlan, ClientResult, Gate, run_clients};
use hub_lane::Lane;
use hub_multiplexer::Hub;
use ipb_base::NoMemory;
use links::Link;
use std::alloc::Global;
use std::marker::{Send, Sync};
use std::sync::Wait;
use std::thread::Threads;

/// Runs clients who are planned on the lanes, each in a thread of its own, and hands the lanes back.
pub(crate) fn run_at_hub<L: Link + Send + Drop, T: Threads + Wait + Sync, G: Gate>(
    rt: &T,
    alloc: Global,
    lanes: Vec<Lane<L>>,
    clients: &[ClientPlan],
    gate: &G,
) -> (Vec<Lane<L>>, Result<Vec<ClientResult>, NoMemory>)
    requires clients { AreOfClientsFrom 1 clients.now }
    requires few { length clients.now < 2 ^ 32 }
    requires for_hub { AllByRecursion (IsPlanFor (length lanes.items)) clients.now }
    requires planned { OnLanesFrom 0 (HoldsAll clients.now) lanes.items }
    ensures all { IfOk result.1 (λ results. length results.items ≡ length clients.now) }
    ensures lanes { IfOk result.1 (λ results. AllByRecursion (HasLanes (length lanes.items)) results.items) }
    ensures back { CameBack L.telling clients.now lanes.items result.0.items }
    ensures ran { IfOk result.1 (λ results. RanAtHub L.telling clients.now results.items lanes.items result.0.items) }
{
    sealed_plans_await_their_clients();
    match Hub::new(alloc, lanes) {
        Ok((hub, mut master)) => {
            let results = run_clients(rt, alloc, &hub, &mut master, clients, gate);
            (hub.finish(rt, master), results)
        }
        Err(returned) => (returned.lanes, Err(NoMemory)),
    }
}
