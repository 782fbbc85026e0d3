//! One client at its seat, dispatch after dispatch: first all Asks, then all Tooks.

ghost use Rattle.std.specs.Prelude.{◌≡◌, ◌<◌, ◌∷◌, [], sum, length, OnOk};
ghost use Rattle.hub_multiplexer.specs.Seats.{IsSeatOf};
ghost use Rattle.client_threads.specs.Clients.{AreRisingFrom, IsPlanFor, bodies_on, counts_on};
ghost use Rattle.client_threads.specs.Running.{AddNoPlans, AskedOnEach, AtEach, CanAsk, CanTake, DispatchedOnEach};
ghost use Rattle.client_threads.specs.Running.{HasRun, IsSameSeat, OfEach, TookOn, TookOnEach};

use crate::context::Context;
use crate::gate::Gate;
use crate::plan::{ClientPlan, Dispatch};
use hub_multiplexer::{Asked, Link, NoMemory, Performed, Seat};
use lane_record::{Outcome, Outcomes};
use std::mem;
use std::sync::Wait;

/// Asks for so many of the client's next bodies on a lane.
fn ask_on<R: Wait, L: Link + Send, G>(
    context: &Context<'_, R, L, G>,
    seat: &mut Seat,
    lane: usize,
    count: u32,
) -> Result<(), NoMemory>
    requires lane { lane < length context.now.hub.now.turns }
    requires seat { IsSeatOf context.now.hub.now seat.old }
    requires planned { OfEach seat.old.knows (λ on. CanAsk (bodies_on on ((lane, count) ∷ []))) }
    ensures seat { IsSameSeat seat.old seat.new }
    ensures asked { OnOk result (AskedOnEach (λ on. bodies_on on ((lane, count) ∷ [])) seat.old.knows seat.new.knows) }
    ensures no_plan { AddNoPlans seat.old.knows seat.new.knows }
{
    for _ in 0..count {
        match context.hub.ask(context.rt, seat, lane)? {
            Asked::Asked(_seq) => {}
            Asked::Nothing => unreachable!(),
        }
    }
    Ok(())
}

/// Takes what becomes of so many of the client's oldest asked bodies on a lane, behind the outcomes that it has.
fn take_on<R: Wait, L: Link + Send, G: Gate>(
    context: &Context<'_, R, L, G>,
    client: u32,
    seat: &mut Seat,
    lane: usize,
    count: u32,
    outcomes: &mut Vec<Outcome>,
) -> Result<(), NoMemory>
    requires lane { lane < length context.now.hub.now.turns }
    requires seat { IsSeatOf context.now.hub.now seat.old }
    requires asked { OfEach seat.old.knows (λ on. CanTake (bodies_on on ((lane, count) ∷ []))) }
    ensures seat { IsSameSeat seat.old seat.new }
    ensures took { OnOk result
        (TookOn lane count outcomes.old.items outcomes.new.items seat.old.knows seat.new.knows) }
    ensures no_plan { AddNoPlans seat.old.knows seat.new.knows }
{
    for _ in 0..count {
        match context.hub.perform(context.rt, seat, lane)? {
            Performed::Ready(outcome) => {
                context.gate.took(client, lane, &outcome);
                outcomes.push(outcome)?;
            }
            Performed::Nothing => unreachable!(),
        }
    }
    Ok(())
}

/// Takes what becomes of so many of the client's oldest asked bodies on a lane, behind the outcomes of that lane.
fn take_into<R: Wait, L: Link + Send, G: Gate>(
    context: &Context<'_, R, L, G>,
    client: u32,
    seat: &mut Seat,
    lane: usize,
    count: u32,
    lanes: &mut [Outcomes],
) -> Result<(), NoMemory>
    requires lane { lane < length context.now.hub.now.turns }
    requires seat { IsSeatOf context.now.hub.now seat.old }
    requires lanes { length lanes.old ≡ length context.now.hub.now.turns }
    requires asked { OfEach seat.old.knows (λ on. CanTake (bodies_on on ((lane, count) ∷ []))) }
    ensures seat { IsSameSeat seat.old seat.new }
    ensures lanes { length lanes.new ≡ length lanes.old }
    ensures took { OnOk result (TookOnEach (λ on. bodies_on on ((lane, count) ∷ []))
        lanes.old lanes.new seat.old.knows seat.new.knows) }
    ensures no_plan { AddNoPlans seat.old.knows seat.new.knows }
{
    let before = mem::replace(
        &mut lanes[lane],
        Outcomes::from_vec(Vec::new(context.alloc)),
    );
    let mut outcomes = before.into_vec();
    let taken = take_on(context, client, seat, lane, count, &mut outcomes);
    lanes[lane] = Outcomes::from_vec(outcomes);
    taken
}

/// Asks for all bodies of a dispatch, lane by lane.
fn ask_all<R: Wait, L: Link + Send, G>(
    context: &Context<'_, R, L, G>,
    seat: &mut Seat,
    asks: &[(u32, u32)],
) -> Result<(), NoMemory>
    requires lanes { AreRisingFrom 0 (length context.now.hub.now.turns) asks.now }
    requires seat { IsSeatOf context.now.hub.now seat.old }
    requires planned { OfEach seat.old.knows (λ on. CanAsk (bodies_on on asks.now)) }
    ensures seat { IsSameSeat seat.old seat.new }
    ensures asked { OnOk result (AskedOnEach (λ on. bodies_on on asks.now) seat.old.knows seat.new.knows) }
    ensures no_plan { AddNoPlans seat.old.knows seat.new.knows }
{
    for ask in asks {
        ask_on(context, seat, ask.0 as usize, ask.1)?;
    }
    Ok(())
}

/// Takes what becomes of all bodies of a dispatch, lane by lane, behind the outcomes of each lane.
fn take_all<R: Wait, L: Link + Send, G: Gate>(
    context: &Context<'_, R, L, G>,
    client: u32,
    seat: &mut Seat,
    asks: &[(u32, u32)],
    lanes: &mut [Outcomes],
) -> Result<(), NoMemory>
    requires asks { AreRisingFrom 0 (length context.now.hub.now.turns) asks.now }
    requires seat { IsSeatOf context.now.hub.now seat.old }
    requires lanes { length lanes.old ≡ length context.now.hub.now.turns }
    requires known { length lanes.old ≡ length seat.old.knows }
    requires asked { OfEach seat.old.knows (λ on. CanTake (bodies_on on asks.now)) }
    ensures seat { IsSameSeat seat.old seat.new }
    ensures lanes { length lanes.new ≡ length lanes.old }
    ensures took { OnOk result
        (TookOnEach (λ on. bodies_on on asks.now) lanes.old lanes.new seat.old.knows seat.new.knows) }
    ensures no_plan { AddNoPlans seat.old.knows seat.new.knows }
{
    for ask in asks {
        take_into(context, client, seat, ask.0 as usize, ask.1, lanes)?;
    }
    Ok(())
}

/// Does a dispatch: all Asks, and then all that becomes of them.
fn do_dispatch<R: Wait, L: Link + Send, G: Gate>(
    context: &Context<'_, R, L, G>,
    client: u32,
    seat: &mut Seat,
    dispatch: &Dispatch,
    lanes: &mut [Outcomes],
) -> Result<(), NoMemory>
    requires asks { AreRisingFrom 0 (length context.now.hub.now.turns) dispatch.now.asks }
    requires seat { IsSeatOf context.now.hub.now seat.old }
    requires lanes { length lanes.old ≡ length context.now.hub.now.turns }
    requires known { length lanes.old ≡ length seat.old.knows }
    requires planned { OfEach seat.old.knows (λ on. CanAsk (bodies_on on dispatch.now.asks)) }
    ensures seat { IsSameSeat seat.old seat.new }
    ensures lanes { length lanes.new ≡ length lanes.old }
    ensures did { OnOk result (DispatchedOnEach (λ on. bodies_on on dispatch.now.asks)
        lanes.old lanes.new seat.old.knows seat.new.knows) }
    ensures no_plan { AddNoPlans seat.old.knows seat.new.knows }
{
    let asks = &dispatch.asks;
    ask_all(context, seat, asks.as_slice())?;
    context
        .gate
        .between(client, asks.bodies(), asks.operations());
    take_all(context, client, seat, asks.as_slice(), lanes)?;
    context.gate.answered(client);
    Ok(())
}

/// Does all dispatches of a client's plan, one after another.
pub(crate) fn run_client<R: Wait, L: Link + Send, G: Gate>(
    context: &Context<'_, R, L, G>,
    seat: &mut Seat,
    plan: &ClientPlan,
    lanes: &mut [Outcomes],
) -> Result<(), NoMemory>
    requires plan { IsPlanFor (length context.now.hub.now.turns) plan.now }
    requires seat { IsSeatOf context.now.hub.now seat.old }
    requires lanes { length lanes.old ≡ length context.now.hub.now.turns }
    requires first { AtEach seat.old.knows lanes.old
        (λ on. HasRun plan.now.client (sum (counts_on on plan.now)) []) }
    ensures seat { IsSameSeat seat.old seat.new }
    ensures ran { OnOk result (AtEach seat.new.knows lanes.new
        (λ on. HasRun plan.now.client (sum (counts_on on plan.now)) (counts_on on plan.now))) }
    ensures no_plan { AddNoPlans seat.old.knows seat.new.knows }
{
    for dispatch in plan.dispatches.as_slice() {
        do_dispatch(context, plan.client, seat, dispatch, lanes)?;
    }
    Ok(())
}
