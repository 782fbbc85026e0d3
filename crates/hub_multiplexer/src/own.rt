//! What a call on a lane means to a pass of the client.

ghost use Rattle.std.specs.Prelude.{◌≡◌, ◌≤◌, ◌<◌, IfOk, IfErr, OnErr, Some, None, ℕ};
ghost use Rattle.transaction_codec.specs.Answer.{reply_room};
ghost use Rattle.lane_record.specs.Items.{asked_count, planned_count};
ghost use Rattle.turn_pass.specs.Pass.{Knowledge, Told};
ghost use Rattle.lane_record.specs.Legal.{IsLegal};
ghost use Rattle.hub_multiplexer.specs.Calls.{AskMeans, HasSubmitted, IsNone, StepMeans, SubmitRefused};
ghost use Rattle.hub_multiplexer.specs.AnyCalls.{BeginsAs};
ghost use Rattle.hub_multiplexer.specs.Calls.{lane_manner};
ghost use Rattle.hub_multiplexer.specs.Lanes.{IsAskedNext, Means, shown_record};
ghost use Rattle.hub_lane.specs.Lanes.{opening_of};
ghost use Rattle.hub_lane.specs.declared.answers.PlanRefusal.TheVariants as refusals;
ghost use Rattle.hub_multiplexer.specs.OwnItems.{of_client, own_items};
ghost use Rattle.hub_multiplexer.specs.Waiting.{FindMeans};

use crate::answers::Performed;
use hub_lane::{Asked, Lane, Link, Looked, NoMemory, PlanRefusal, Stepped, Waiter, Words};
use lane_record::laws::coding::an_entry_is_spelled_by_numbers;
use lane_record::laws::entries::an_ask_is_of_its_plan;

/// A lane's record is legal, and whoever takes the lane finds there the entries of its own client that it knows, and no
/// others. It does nothing when it runs.
pub(crate) fn tells_its_own<L: Link>(lane: &Lane<L>)
    ensures legal { IsLegal lane.now.items lane.now.outcomes }
    ensures own { (k : Knowledge) → Told k (shown_record L.telling lane.now)
        → own_items k ≡ of_client k.number lane.now.items }
{
    lane.is_sound();
    an_entry_is_spelled_by_numbers();
}

/// Asks the client's next planned body.
pub(crate) fn ask_on<L: Link>(lane: &mut Lane<L>, client: u32) -> Result<Asked, NoMemory>
    requires client { 1 ≤ client }
    ensures asked { IfOk result (λ asked.
        Means client (shown_record L.telling lane.old) (λ k. AskMeans k asked) (shown_record L.telling lane.new)) }
    ensures looked { OnErr result (Means client (shown_record L.telling lane.old) (λ _. IsNone) (shown_record L.telling lane.new)) }
{
    tells_its_own(lane);
    an_ask_is_of_its_plan();
    let asked = lane.ask(client);
    tells_its_own(lane);
    asked
}

/// Pumps once at most, and takes what became of the client's oldest asked and untaken body.
pub(crate) fn step_on<L: Link>(lane: &mut Lane<L>, client: u32) -> Result<Stepped, NoMemory>
    requires client { 1 ≤ client }
    ensures stepped { IfOk result (λ stepped.
        Means client (shown_record L.telling lane.old) (λ k. StepMeans k stepped) (shown_record L.telling lane.new)) }
    ensures looked { OnErr result (Means client (shown_record L.telling lane.old) (λ _. IsNone) (shown_record L.telling lane.new)) }
{
    tells_its_own(lane);
    let stepped = lane.step(client);
    tells_its_own(lane);
    stepped
}

/// Sends what waits to be sent, and takes what became of the client's oldest asked and untaken body, if anything did. A
/// lane that has stopped is stepped: it tells at once what came, also that memory ran out.
pub(crate) fn look_on<L: Link>(
    lane: &mut Lane<L>,
    client: u32,
) -> Result<Option<Performed>, NoMemory>
    requires client { 1 ≤ client }
    ensures found { IfOk result (λ found.
        Means client (shown_record L.telling lane.old) (λ k. FindMeans k found) (shown_record L.telling lane.new)) }
    ensures looked { OnErr result (Means client (shown_record L.telling lane.old) (λ _. IsNone) (shown_record L.telling lane.new)) }
{
    send_on(lane);
    if lane.is_stopped() {
        return step_found(lane, client);
    }
    found_on(lane, client)
}

/// Sends what waits to be sent.
fn send_on<L: Link>(lane: &mut Lane<L>)
    ensures { shown_record L.telling lane.new ≡ shown_record L.telling lane.old }
{
    lane.send_wanted();
}

/// Takes what became of the client's oldest asked and untaken body, if anything did.
fn found_on<L: Link>(lane: &mut Lane<L>, client: u32) -> Result<Option<Performed>, NoMemory>
    requires client { 1 ≤ client }
    ensures found { IfOk result (λ found.
        Means client (shown_record L.telling lane.old) (λ k. FindMeans k found) (shown_record L.telling lane.new)) }
    ensures looked { OnErr result (Means client (shown_record L.telling lane.old) (λ _. IsNone) (shown_record L.telling lane.new)) }
{
    tells_its_own(lane);
    let looked = lane.look(client);
    tells_its_own(lane);
    match looked? {
        Looked::Ready(outcome) => Ok(Some(Performed::Ready(outcome))),
        Looked::NotYet => Ok(None),
        Looked::Nothing => Ok(Some(Performed::Nothing)),
    }
}

/// Pumps once at most, and takes what became of the body.
fn step_found<L: Link>(lane: &mut Lane<L>, client: u32) -> Result<Option<Performed>, NoMemory>
    requires client { 1 ≤ client }
    ensures found { IfOk result (λ found.
        Means client (shown_record L.telling lane.old) (λ k. FindMeans k found) (shown_record L.telling lane.new)) }
    ensures looked { OnErr result (Means client (shown_record L.telling lane.old) (λ _. IsNone) (shown_record L.telling lane.new)) }
{
    Ok(Performed::found_by(step_on(lane, client)?))
}

/// Plans a body of the client, and asks it. The client has asked all bodies that it planned before.
pub(crate) fn submit_on<L: Link>(
    lane: &mut Lane<L>,
    client: u32,
    body: Words,
    reply_words: u32,
) -> Result<u64, PlanRefusal>
    requires client { 1 ≤ client }
    requires reply { reply_words ≡ reply_room body }
    requires all_asked { asked_count client lane.old.items ≡ planned_count client lane.old.items }
    ensures submitted { IfOk result (λ seq.
        Means client (shown_record L.telling lane.old) (λ k. HasSubmitted k body seq) (shown_record L.telling lane.new)) }
    ensures refused { IfErr result (λ why.
        Means client (shown_record L.telling lane.old) (λ k. SubmitRefused k body why) (shown_record L.telling lane.new)) }
{
    tells_its_own(lane);
    an_ask_is_of_its_plan();
    let planned = lane.plan(client, body, reply_words);
    tells_its_own(lane);
    match planned {
        Ok(seq) => {
            let asked = ask_planned(lane, client, seq);
            tells_its_own(lane);
            asked
        }
        Err(why) => Err(why),
    }
}

/// Asks the body of this number, which is the client's next planned one.
fn ask_planned<L: Link>(lane: &mut Lane<L>, client: u32, seq: u64) -> Result<u64, PlanRefusal>
    requires client { 1 ≤ client }
    requires next { asked_count client lane.old.items < planned_count client lane.old.items }
    ensures asked { IfOk result (λ number. (number ≡ seq) × IsAskedNext lane.old client lane.new) }
    ensures refused { IfErr result (λ why. (why ≡ refusals.NoMemory) × (lane.new ≡ lane.old)) }
    ensures opening { opening_of (L.telling lane.new.link) ≡ opening_of (L.telling lane.old.link) }
{
    match lane.ask(client) {
        Ok(Asked::Asked(_seq)) => Ok(seq),
        Ok(Asked::Nothing) => unreachable!(),
        Err(NoMemory) => Err(PlanRefusal::NoMemory),
    }
}

/// What waits beside the lane, where its link has such. What the lane shows stays.
pub(crate) fn waiter_of<L: Link>(lane: &mut Lane<L>) -> Option<Waiter>
    ensures { shown_record L.telling lane.new ≡ shown_record L.telling lane.old }
{
    lane.waiter()
}

/// A lane is greeted once, so what it shows is as if no greeting was due. It does nothing when it runs.
pub(crate) fn is_greeted_once<L: Link>(lane: &Lane<L>)
    ensures { (client : ℕ)
        → BeginsAs lane_manner client (shown_record L.telling lane.now) (shown_record L.telling lane.now) }
{
    tells_its_own(lane);
}
