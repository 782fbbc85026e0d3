//! A client from its seat's making to its joining.

ghost use Rattle.std.specs.Prelude.{◌≡◌, ◌<◌, ◌≤◌, ◌+◌, ◌^◌, ℕ, [], true, length, map, take, IfOk, OnOk};
ghost use Rattle.std.specs.List.{AllByRecursion};
ghost use Rattle.std.specs.Vec.{vec_capacity};
ghost use Rattle.hub_multiplexer.specs.Ends.{HasTakenIn};
ghost use Rattle.hub_multiplexer.specs.Seats.{IsMasterOf};
ghost use Rattle.client_threads.specs.Clients.{AreOfClientsFrom, AwaitClients, IsPlanFor};
ghost use Rattle.client_threads.specs.Jobs.{AreJoined, HasEnded, IsSeated, made_more, plans_of};

use crate::context::Context;
use crate::gate::Gate;
use crate::plan::ClientPlan;
use crate::result::{ClientResult, LaneOutcomes};
use crate::run::run_client;
use hub_multiplexer::{Hub, Link, Master, NoMemory, Seat};
use lane_record::Outcomes;
use std::alloc::Global;
use std::sync::Wait;

/// A client with its plan, its seat, what became of its bodies so far, and whether it did all that it planned.
#[derive(Drop)]
pub(crate) struct Job<'a> {
    pub(crate) plan: &'a ClientPlan,
    pub(crate) seat: Seat,
    pub(crate) lanes: Vec<Outcomes>,
    pub(crate) ran: bool,
}

/// No outcomes, for so many lanes.
fn no_outcomes(alloc: Global, lanes: usize) -> Result<Vec<Outcomes>, NoMemory>
    ensures long { IfOk result (λ made. length made.items ≡ lanes) }
    ensures none { IfOk result (λ made. AllByRecursion (λ outcomes. outcomes ≡ []) made.items) }
{
    let mut made = Vec::with_capacity(alloc, lanes)?;
    for _ in 0..lanes {
        made.push_reserved(Outcomes::from_vec(Vec::new(alloc)));
    }
    Ok(made)
}

/// A seat for each plan, in order. Where memory runs out there are seats for the first of them.
pub(crate) fn seat_all<'a, L: Link + Send>(
    alloc: Global,
    hub: &Hub<L>,
    master: &mut Master,
    plans: &'a [ClientPlan],
    jobs: &mut Vec<Job<'a>>,
) -> Result<(), NoMemory>
    requires hub { IsMasterOf hub.now master.old }
    requires clients { AreOfClientsFrom (master.old.seats + 1) plans.now }
    requires few { master.old.seats + length plans.now < 2 ^ 32 }
    requires plans { AllByRecursion (IsPlanFor (length hub.now.turns)) plans.now }
    requires awaited { AwaitClients plans.now master.old.knows }
    requires empty { jobs.old.items ≡ [] }
    requires room { length plans.now ≤ vec_capacity jobs.old }
    ensures few { length jobs.new.items ≤ length plans.now }
    ensures all { OnOk result (length jobs.new.items ≡ length plans.now) }
    ensures plans { plans_of jobs.new.items ≡ take (length jobs.new.items) plans.now }
    ensures seated { AllByRecursion (IsSeated hub.now.turns) jobs.new.items }
    ensures master { master.new ≡ record master.old {
      seats = master.old.seats + length jobs.new.items;
      knows = map (made_more (length jobs.new.items)) master.old.knows;
    } }
    ensures taken_in { (n : ℕ) → HasTakenIn n master.old → HasTakenIn n master.new }
{
    for plan in plans {
        let lanes = no_outcomes(alloc, hub.boards())?;
        let seat = master.seat(alloc, hub)?;
        seat.is_of_its_client();
        jobs.push_reserved(Job {
            plan,
            seat,
            lanes,
            ran: false,
        });
    }
    Ok(())
}

/// Runs the script of one client under its seat, dispatch by dispatch.
pub(crate) fn run_job<R: Wait, L: Link + Send, G: Gate>(
    context: &Context<'_, R, L, G>,
    job: &mut Job<'_>,
)
    requires { IsSeated context.now.hub.now.turns job.old }
    ensures ended { HasEnded context.now.hub.now.turns job.new }
    ensures plan { job.new.plan ≡ job.old.plan }
{
    let ran = run_client(context, &mut job.seat, job.plan, job.lanes.as_mut_slice());
    job.ran = ran.is_ok();
}

/// Takes in the seats of clients, in order, and answers whether all did all that they planned.
pub(crate) fn join_all<L: Link + Send>(
    hub: &Hub<L>,
    master: &mut Master,
    jobs: Vec<Job<'_>>,
    results: &mut Vec<ClientResult>,
) -> bool
    requires hub { IsMasterOf hub.now master.old }
    requires ended { AllByRecursion (HasEnded hub.now.turns) jobs.items }
    requires known { length master.old.knows ≡ length hub.now.turns }
    requires empty { results.old.items ≡ [] }
    requires room { length jobs.items ≤ vec_capacity results.old }
    ensures { AreJoined hub.now.turns master.old master.new jobs.entry.items results.new.items result }
{
    let mut all = true;
    for job in jobs {
        let Job {
            plan,
            seat,
            lanes,
            ran,
        } = job;
        master.join(hub, seat);
        results.push_reserved(ClientResult {
            client: plan.client,
            lanes: LaneOutcomes::from_vec(lanes),
        });
        all = all && ran;
    }
    all
}
