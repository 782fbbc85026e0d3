//! The bodies of all clients, planned on a lane.

ghost use Rattle.std.specs.Prelude.{◌≡◌, ◌≤◌, ◌++◌, ◌∷◌, [], false, IfOk, OnErr, OnOk};
ghost use Rattle.std.specs.List.{AllByRecursion};
ghost use Rattle.ipb_base.specs.Numbers.{payload_of};
ghost use Rattle.mtu_packer.specs.Packed.{FitsPackets};
ghost use Rattle.lane_record.specs.Items.{is_sealed, planned_count};
ghost use Rattle.lane_record.specs.NextEntry.{the_seal};
ghost use Rattle.script_plans.specs.declared.greeting.Greeting.TheVariants.{Live};
ghost use Rattle.script_plans.specs.Plan.{plans_on};
ghost use Rattle.lane_record.specs.Dispatches.{all_plans_from, plans_from};
ghost use Rattle.board_history.specs.Records.{IsPartlyPlanned};
ghost use Rattle.session_run.specs.Scripts.{CanBeRun};
ghost use Rattle.session_run.specs.Plans.{HasFewBodies};
ghost use Rattle.session_run.specs.Clients.{KeepsLane, PlannedSome, bodies_of_plans, with_items};
ghost use Rattle.session_run.specs.Room.{HasRoomFor};

use board_history::building::{
    a_record_is_partly_planned_on_its_way, one_more_entry_stands_behind,
};
use hub_lane::{Lane, PlanRefusal};
use ipb_base::{NoMemory, Words};
use links::Link;
use script_plans::laws::plans_are_short;
use script_plans::{Greeting, Planned, plan_on};
use script_steps::Steps;
use std::alloc::Global;
use transaction_codec::reply_room;

/// Plans one body of a client. The lane has room for it.
#[tactic(auto, using(crate::proofs::RoomLeft::not_full))]
fn plan_body<L: Link>(
    alloc: Global,
    lane: &mut Lane<L>,
    client: u32,
    body: &Words,
) -> Result<(), NoMemory>
    requires client { 1 ≤ client }
    requires unsealed { is_sealed lane.old.items ≡ false }
    requires fits { FitsPackets (payload_of lane.old.status.mtu) body.now }
    requires room { HasRoomFor lane.old.items (body.now ∷ []) }
    ensures planned { OnOk result (lane.new
        ≡ with_items lane.old (plans_from client (planned_count client lane.old.items) (body.now ∷ []))) }
    ensures unchanged { OnErr result (lane.new ≡ lane.old) }
{
    lane.is_sound();
    let words = Words::from_vec(body.as_slice().to_vec(alloc)?);
    let reply_words = reply_room(words.as_slice());
    match lane.plan(client, words, reply_words) {
        Ok(_) => Ok(()),
        Err(PlanRefusal::NoMemory) => Err(NoMemory),
        Err(
            PlanRefusal::Sealed
            | PlanRefusal::TooLong
            | PlanRefusal::ReplyTooLong
            | PlanRefusal::Overfull,
        ) => unreachable!(),
    }
}

/// Plans the bodies of a client that planned none so far, in order.
fn plan_bodies<L: Link>(
    alloc: Global,
    lane: &mut Lane<L>,
    client: u32,
    bodies: &[Words],
) -> Result<(), NoMemory>
    requires client { 1 ≤ client }
    requires unsealed { is_sealed lane.old.items ≡ false }
    requires none { planned_count client lane.old.items ≡ 0 }
    requires fit { AllByRecursion (FitsPackets (payload_of lane.old.status.mtu)) bodies.now }
    requires room { HasRoomFor lane.old.items bodies.now }
    ensures planned { OnOk result (lane.new ≡ with_items lane.old (plans_from client 0 bodies.now)) }
    ensures some { PlannedSome client bodies.now lane.old lane.new }
{
    one_more_entry_stands_behind();
    for body in bodies {
        plan_body(alloc, lane, client, body)?;
    }
    Ok(())
}

/// Packs the operations of each client for the board at a position, from 0, by what its packets carry, and plans the
/// bodies, client by client. Then planning is closed.
pub(crate) fn plan_clients<L: Link>(
    alloc: Global,
    lane: &mut Lane<L>,
    position: u32,
    scripts: &[Steps],
) -> Result<Vec<Planned>, NoMemory>
    requires can { CanBeRun scripts.now }
    requires unused { lane.old.items ≡ [] }
    ensures plans { IfOk result (λ plans. plans.items
        ≡ plans_on position (Live (payload_of lane.old.status.mtu)) scripts.now) }
    ensures few { IfOk result (λ plans. AllByRecursion HasFewBodies plans.items) }
    ensures planned { IfOk result (λ plans. lane.new
        ≡ with_items lane.old (all_plans_from 1 (bodies_of_plans plans.items) ++ the_seal ∷ [])) }
    ensures some { IsPartlyPlanned (bodies_of_plans (plans_on position (Live (payload_of lane.old.status.mtu)) scripts.now))
        lane.new.items }
    ensures keeps { KeepsLane lane.old lane.new (L.telling lane.old.link) (L.telling lane.new.link) }
{
    a_record_is_partly_planned_on_its_way();
    plans_are_short();
    lane.is_sound();
    let payload = lane.payload();
    let mut plans = Vec::with_capacity(alloc, scripts.len())?;
    for steps in scripts {
        let client = plans.len() as u32 + 1;
        let planned = plan_on(
            alloc,
            steps.as_slice(),
            position,
            Greeting::Live { payload },
        )?;
        plan_bodies(alloc, lane, client, planned.bodies())?;
        plans.push_reserved(planned);
    }
    lane.seal();
    Ok(plans)
}
