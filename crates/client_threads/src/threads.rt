//! A thread for each client.

ghost use Rattle.std.specs.Prelude.{◌≡◌, ◌<◌, ◌≤◌, ◌+◌, ◌^◌, [], length, map, take, IfOk, OnOk};
ghost use Rattle.std.specs.List.{AllByRecursion};
ghost use Rattle.std.specs.Vec.{vec_capacity};
ghost use Rattle.hub_multiplexer.specs.Ends.{HasTakenIn};
ghost use Rattle.hub_multiplexer.specs.Seats.{IsMasterOf};
ghost use Rattle.client_threads.specs.Clients.{AreOfClientsFrom, AreResultsFor, AwaitClients, HaveRun, IsPlanFor};
ghost use Rattle.client_threads.specs.Clients.{WereTakenIn};
ghost use Rattle.client_threads.specs.Jobs.{HasEnded, IsSeated, made_more, plans_of};

use crate::context::Context;
use crate::gate::Gate;
use crate::job::{Job, join_all, run_job, seat_all};
use crate::plan::ClientPlan;
use crate::result::ClientResult;
use hub_multiplexer::{Hub, Link, Master, NoMemory};
use std::alloc::Global;
use std::marker::{Send, Sync};
use std::sync::Wait;
use std::thread;
use std::thread::Threads;

/// Tells the gate what each client is to ask.
fn tell_plans<G: Gate>(gate: &G, plans: &[ClientPlan]) {
    for plan in plans {
        gate.planned(plan.client, plan.asking(), plan.bodies(), plan.operations());
    }
}

/// Runs all clients at once, with as many threads as clients. A client whose thread cannot be started is run on the
/// thread of the call.
fn run_all<R: Threads + Wait + Sync, L: Link + Send, G: Gate>(
    context: &Context<'_, R, L, G>,
    jobs: &mut [Job<'_>],
)
    requires { AllByRecursion (IsSeated context.now.hub.now.turns) jobs.old }
    ensures ended { AllByRecursion (HasEnded context.now.hub.now.turns) jobs.new }
    ensures plans { plans_of jobs.new ≡ plans_of jobs.old }
{
    let threads = jobs.len();
    if threads == 0 {
        return;
    }
    thread::for_each_mut(
        context.rt,
        jobs,
        threads,
        &|_i: usize, job: &mut Job<'_>|
            requires { IsSeated context.now.hub.now.turns job.old }
            ensures ended { HasEnded context.entry.now.hub.now.turns job.new }
            ensures plan { job.new.plan ≡ job.old.plan }
        { run_job(context, job) },
    );
}

/// Gives each client a seat, and then runs them all. Where memory runs out for a seat, none is run.
fn seat_and_run<'a, R: Threads + Wait + Sync, L: Link + Send, G: Gate>(
    context: &Context<'_, R, L, G>,
    master: &mut Master,
    plans: &'a [ClientPlan],
    jobs: &mut Vec<Job<'a>>,
) -> Result<(), NoMemory>
    requires hub { IsMasterOf context.now.hub.now master.old }
    requires clients { AreOfClientsFrom (master.old.seats + 1) plans.now }
    requires few { master.old.seats + length plans.now < 2 ^ 32 }
    requires plans { AllByRecursion (IsPlanFor (length context.now.hub.now.turns)) plans.now }
    requires awaited { AwaitClients plans.now master.old.knows }
    requires empty { jobs.old.items ≡ [] }
    requires room { length plans.now ≤ vec_capacity jobs.old }
    ensures few { length jobs.new.items ≤ length plans.now }
    ensures all { OnOk result (length jobs.new.items ≡ length plans.now) }
    ensures plans { plans_of jobs.new.items ≡ take (length jobs.new.items) plans.now }
    ensures ended { AllByRecursion (HasEnded context.now.hub.now.turns) jobs.new.items }
    ensures master { master.new ≡ record master.old {
      seats = master.old.seats + length jobs.new.items;
      knows = map (made_more (length jobs.new.items)) master.old.knows;
    } }
    ensures taken_in { (n : _) → HasTakenIn n master.old → HasTakenIn n master.new }
{
    seat_all(context.alloc, context.hub, master, plans, jobs)?;
    run_all(context, jobs.as_mut_slice());
    Ok(())
}

/// Runs the clients of these plans at once, under the next seats of the master, with as many threads as clients. A
/// client whose thread cannot be started is run on the thread of the call. A client does its dispatches one after
/// another: all Asks, `Gate::between`, all Tooks, each with `Gate::took`, `Gate::answered`. Before the first of them
/// `Gate::planned` is called for each client. The results are in the order of the plans. On
/// return no seat is left out of the master's account, also where memory ran out; where it ran out the clients may
/// have asked and taken some of their bodies. Profile.
pub fn run_clients<R: Threads + Wait + Sync, L: Link + Send, G: Gate>(
    rt: &R,
    alloc: Global,
    hub: &Hub<L>,
    master: &mut Master,
    plans: &[ClientPlan],
    gate: &G,
) -> Result<Vec<ClientResult>, NoMemory>
    requires hub { IsMasterOf hub.now master.old }
    requires clients { AreOfClientsFrom (master.old.seats + 1) plans.now }
    requires few { master.old.seats + length plans.now < 2 ^ 32 }
    requires plans { AllByRecursion (IsPlanFor (length hub.now.turns)) plans.now }
    requires awaited { AwaitClients plans.now master.old.knows }
    ensures ran { IfOk result (λ results. HaveRun plans.now results.items master.old master.new) }
    ensures results { IfOk result (λ results. AreResultsFor (length hub.now.turns) plans.now results.items) }
    ensures taken_in { WereTakenIn plans.now master.old master.new }
    ensures all_joined { HasTakenIn (master.old.seats + 1) master.old → HasTakenIn (master.new.seats + 1) master.new }
{
    master.knows_each_turn();
    tell_plans(gate, plans);
    let mut results = Vec::with_capacity(alloc, plans.len())?;
    let mut jobs = Vec::with_capacity(alloc, plans.len())?;
    let context = Context {
        rt,
        alloc,
        hub,
        gate,
    };
    let seated = seat_and_run(&context, master, plans, &mut jobs);
    let ran = join_all(hub, master, jobs, &mut results);
    seated?;
    if ran { Ok(results) } else { Err(NoMemory) }
}
