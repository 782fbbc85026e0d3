//! What the hub comes to for a body.

ghost use Rattle.std.specs.Prelude.{◌≡◌, ◌≤◌, ◌<◌, length, IfOk, IfSome, OnOk, OnErr};
ghost use Rattle.std.specs.List.{AllByRecursion, slice_get};
ghost use Rattle.transaction_codec.specs.declared.room.TheConstants.{LONGEST_BODY};
ghost use Rattle.hub_lane.specs.declared.answers.PlanRefusal.TheVariants as refusals;
ghost use Rattle.hub_multiplexer.specs.Calls.{IsNone, MadeInTime, PerformMeans};
ghost use Rattle.hub_multiplexer.specs.declared.answers.Performed.TheVariants as performs;
ghost use Rattle.hub_multiplexer.specs.OwnItems.{HasTakenAllOf};
ghost use Rattle.hub_multiplexer.specs.Seats.{ChangesAt, IsSeatOf};
ghost use Rattle.hub_session.specs.Exchanges.{ExchangesFor, plan_refusal, request_to};
ghost use Rattle.hub_session.specs.Serving.{IsLaneBelow, Reached, ReachesFor};
ghost use Rattle.hub_session.specs.Inside.{IsSameSeat, IsSettled};

use crate::got::{BodyRefusal, Got};
use hub_lane::BoardState;
use hub_multiplexer::{Hub, Link, NoMemory, Outcome, Performed, PlanRefusal, Seat, Words};
use std::sync::Wait;
use transaction_codec::reply_room;

/// Takes what becomes of the seat's oldest asked and untaken body on a lane, which it has.
fn take<R: Wait, L: Link + Send>(
    rt: &R,
    hub: &Hub<L>,
    seat: &mut Seat,
    lane: usize,
) -> Result<Outcome, NoMemory>
    requires lane { lane < length hub.now.turns }
    requires seat { IsSeatOf hub.now seat.old }
    requires asked { IfSome (slice_get seat.old.knows lane) (λ k. ¬ HasTakenAllOf k) }
    ensures took { IfOk result (λ outcome.
        ChangesAt lane seat.old seat.new
        (λ k. MadeInTime k (PerformMeans k (performs.Ready outcome)))) }
    ensures looked { OnErr result (ChangesAt lane seat.old seat.new (λ k. MadeInTime k IsNone)) }
{
    match hub.perform(rt, seat, lane)? {
        Performed::Ready(outcome) => Ok(outcome),
        Performed::Nothing => unreachable!(),
    }
}

/// The rule by which a body may not be planned, unless memory ran out.
fn rule_of(why: PlanRefusal) -> Result<BodyRefusal, NoMemory>
    ensures rule { IfOk result (λ rule. plan_refusal rule ≡ why) }
    ensures memory { OnErr result (why ≡ refusals.NoMemory) }
{
    match why {
        PlanRefusal::Sealed => Ok(BodyRefusal::Sealed),
        PlanRefusal::TooLong => Ok(BodyRefusal::TooLong),
        PlanRefusal::ReplyTooLong => Ok(BodyRefusal::ReplyTooLong),
        PlanRefusal::Overfull => Ok(BodyRefusal::Overfull),
        PlanRefusal::NoMemory => Err(NoMemory),
    }
}

/// Submits a body to a lane, and takes what becomes of it.
fn submit<R: Wait, L: Link + Send>(
    rt: &R,
    hub: &Hub<L>,
    seat: &mut Seat,
    lane: usize,
    body: Words,
) -> Result<Got, NoMemory>
    requires lane { lane < length hub.now.turns }
    requires seat { IsSeatOf hub.now seat.old }
    requires settled { AllByRecursion IsSettled seat.old.knows }
    requires body { length body ≤ LONGEST_BODY }
    ensures same { IsSameSeat seat.old seat.new }
    ensures got { IfOk result (λ got. ExchangesFor (Some (record { lane = lane; body = body })) got seat.old seat.new) }
    ensures settled { OnOk result (AllByRecursion IsSettled seat.new.knows) }
    ensures reached { OnErr result ((reached : Reached)
        × ReachesFor (Some (record { lane = lane; body = body })) reached seat.old seat.new) }
{
    let reply_words = reply_room(body.as_slice());
    match hub.submit(rt, seat, lane, body, reply_words) {
        Ok(_seq) => Ok(Got::Came(take(rt, hub, seat, lane)?)),
        Err(why) => Ok(Got::Refused(rule_of(why)?)),
    }
}

/// Asks the hub for a body where its board has a lane.
pub(crate) fn ask_board<R: Wait, L: Link + Send>(
    rt: &R,
    hub: &Hub<L>,
    seat: &mut Seat,
    board: Option<BoardState>,
    body: Words,
) -> Result<Got, NoMemory>
    requires lane { IfSome board (IsLaneBelow (length hub.now.turns)) }
    requires seat { IsSeatOf hub.now seat.old }
    requires settled { AllByRecursion IsSettled seat.old.knows }
    requires body { length body ≤ LONGEST_BODY }
    ensures same { IsSameSeat seat.old seat.new }
    ensures got { IfOk result (λ got. ExchangesFor (request_to body board) got seat.old seat.new) }
    ensures settled { OnOk result (AllByRecursion IsSettled seat.new.knows) }
    ensures reached { OnErr result ((reached : Reached)
        × ReachesFor (request_to body board) reached seat.old seat.new) }
{
    match board {
        Some(BoardState::Lane(lane)) => submit(rt, hub, seat, lane as usize, body),
        Some(BoardState::Silent) => Ok(Got::NotAsked),
        Some(BoardState::Down) => Ok(Got::NotAsked),
        None => Ok(Got::NotAsked),
    }
}

/// Whether what becomes of a body for a board may have to be waited for, since its link has what waits.
pub(crate) fn may_wait<L: Link + Send>(hub: &Hub<L>, board: Option<BoardState>) -> bool
    requires lane { IfSome board (IsLaneBelow (length hub.now.turns)) }
{
    match board {
        Some(BoardState::Lane(lane)) => hub.has_waiter(lane as usize),
        Some(BoardState::Silent) => false,
        Some(BoardState::Down) => false,
        None => false,
    }
}
