//! What a call on a berth means to a pass of the client.

ghost use Rattle.std.specs.Prelude.{◌≡◌, ◌<◌, ◌≤◌, IfOk, IfErr, OnErr};
ghost use Rattle.transaction_codec.specs.Answer.{reply_room};
ghost use Rattle.lane_record.specs.Items.{asked_count, planned_count};
ghost use Rattle.hub_lane.specs.declared.answers.PlanRefusal.TheVariants as refusals;
ghost use Rattle.hub_multiplexer.specs.AnyCalls.{AskMeansAs, BeginsAs, FindMeansAs, HasSubmittedAs, IsNone};
ghost use Rattle.hub_multiplexer.specs.AnyCalls.{MeansAs, StepMeansAs};
ghost use Rattle.hub_multiplexer.specs.Manner.{IsAllAsked};
ghost use Rattle.board_berth.specs.declared.answers.BerthRefusal.TheVariants as refuses;
ghost use Rattle.board_berth.specs.Berths.{berth_record};
ghost use Rattle.board_berth.specs.Calls.{Calls, IsAskedIn, LaneGrows};
ghost use Rattle.board_berth.specs.Greetings.{items_in};
ghost use Rattle.board_berth.specs.Manner.{BerthRefused, berth_manner};

use crate::answers::BerthRefusal;
use crate::berth::Berth;
use hub_lane::{Asked, Link, Looked, NoMemory, PlanRefusal, Stepped, Waiter, Words};
use hub_multiplexer::Performed;
use lane_record::laws::coding::an_entry_is_spelled_by_numbers;
use lane_record::laws::entries::an_ask_is_of_its_plan;

/// Asks the client's next planned body.
pub(crate) fn ask_for<L: Link>(berth: &mut Berth<L>, client: u32) -> Result<Asked, NoMemory>
    requires client { 1 ≤ client }
    ensures asked { IfOk result (λ asked. MeansAs berth_manner client (berth_record L.telling berth.old)
        (λ k. AskMeansAs berth_manner k asked) (berth_record L.telling berth.new)) }
    ensures looked { OnErr result (MeansAs berth_manner client (berth_record L.telling berth.old)
        (λ _. IsNone) (berth_record L.telling berth.new)) }
{
    berth.is_sound();
    an_ask_is_of_its_plan();
    let asked = berth.ask(client);
    berth.is_sound();
    asked
}

/// Pumps once at most, and takes what became of the client's oldest asked and untaken body.
pub(crate) fn step_for<L: Link>(berth: &mut Berth<L>, client: u32) -> Result<Stepped, NoMemory>
    requires client { 1 ≤ client }
    ensures stepped { IfOk result (λ stepped. MeansAs berth_manner client (berth_record L.telling berth.old)
        (λ k. StepMeansAs berth_manner k stepped) (berth_record L.telling berth.new)) }
    ensures looked { OnErr result (MeansAs berth_manner client (berth_record L.telling berth.old)
        (λ _. IsNone) (berth_record L.telling berth.new)) }
{
    berth.is_sound();
    let stepped = berth.step(client);
    berth.is_sound();
    stepped
}

/// Sends what waits to be sent, and takes what became of the client's oldest asked and untaken body, if anything did. A
/// berth that has stopped is stepped: it tells at once what came, also that memory ran out.
pub(crate) fn look_for<L: Link>(
    berth: &mut Berth<L>,
    client: u32,
) -> Result<Option<Performed>, NoMemory>
    requires client { 1 ≤ client }
    ensures found { IfOk result (λ found. MeansAs berth_manner client (berth_record L.telling berth.old)
        (λ k. FindMeansAs berth_manner k found) (berth_record L.telling berth.new)) }
    ensures looked { OnErr result (MeansAs berth_manner client (berth_record L.telling berth.old)
        (λ _. IsNone) (berth_record L.telling berth.new)) }
{
    send_for_all(berth);
    if berth.is_stopped() {
        return step_found(berth, client);
    }
    found_for(berth, client)
}

/// Sends what waits to be sent.
fn send_for_all<L: Link>(berth: &mut Berth<L>)
    ensures { berth_record L.telling berth.new ≡ berth_record L.telling berth.old }
{
    berth.send_wanted();
}

/// Takes what became of the client's oldest asked and untaken body, if anything did.
fn found_for<L: Link>(berth: &mut Berth<L>, client: u32) -> Result<Option<Performed>, NoMemory>
    requires client { 1 ≤ client }
    ensures found { IfOk result (λ found. MeansAs berth_manner client (berth_record L.telling berth.old)
        (λ k. FindMeansAs berth_manner k found) (berth_record L.telling berth.new)) }
    ensures looked { OnErr result (MeansAs berth_manner client (berth_record L.telling berth.old)
        (λ _. IsNone) (berth_record L.telling berth.new)) }
{
    berth.is_sound();
    let looked = berth.look(client);
    berth.is_sound();
    match looked? {
        Looked::Ready(outcome) => Ok(Some(Performed::Ready(outcome))),
        Looked::NotYet => Ok(None),
        Looked::Nothing => Ok(Some(Performed::Nothing)),
    }
}

/// Pumps once at most, and takes what became of the body.
fn step_found<L: Link>(berth: &mut Berth<L>, client: u32) -> Result<Option<Performed>, NoMemory>
    requires client { 1 ≤ client }
    ensures found { IfOk result (λ found. MeansAs berth_manner client (berth_record L.telling berth.old)
        (λ k. FindMeansAs berth_manner k found) (berth_record L.telling berth.new)) }
    ensures looked { OnErr result (MeansAs berth_manner client (berth_record L.telling berth.old)
        (λ _. IsNone) (berth_record L.telling berth.new)) }
{
    match step_for(berth, client)? {
        Stepped::Ready(outcome) => Ok(Some(Performed::Ready(outcome))),
        Stepped::NotYet(_turned) => Ok(None),
        Stepped::Nothing => Ok(Some(Performed::Nothing)),
    }
}

/// Plans a body of the client, and asks it. The client has asked all bodies that stand planned for it.
pub(crate) fn submit_for<L: Link>(
    berth: &mut Berth<L>,
    client: u32,
    body: Words,
    reply_words: u32,
) -> Result<u64, BerthRefusal>
    requires client { 1 ≤ client }
    requires reply { reply_words ≡ reply_room body }
    requires all_asked { IsAllAsked client (berth_record L.telling berth.old) }
    ensures submitted { IfOk result (λ seq. MeansAs berth_manner client (berth_record L.telling berth.old)
        (λ k. HasSubmittedAs berth_manner k body seq) (berth_record L.telling berth.new)) }
    ensures refused { IfErr result (λ why. MeansAs berth_manner client (berth_record L.telling berth.old)
        (λ k. BerthRefused k body why) (berth_record L.telling berth.new)) }
{
    an_ask_is_of_its_plan();
    berth.is_sound();
    all_asked_in_present(berth, client);
    let planned = berth.plan(client, body, reply_words);
    berth.is_sound();
    match planned {
        Ok(seq) => {
            let asked = ask_planned(berth, client, seq);
            berth.is_sound();
            asked
        }
        Err(why) => Err(why),
    }
}

/// A client that asked all of its planned bodies asked those of the present greeting. It does nothing when it runs.
fn all_asked_in_present<L: Link>(berth: &Berth<L>, client: u32)
    requires all_asked { IsAllAsked client (berth_record L.telling berth.now) }
    ensures { asked_count client (items_in berth.now.present) ≡ planned_count client (items_in berth.now.present) }
{
    berth.is_sound();
    an_entry_is_spelled_by_numbers();
}

/// Asks the body of this number, which is the client's next planned one.
fn ask_planned<L: Link>(berth: &mut Berth<L>, client: u32, seq: u64) -> Result<u64, BerthRefusal>
    requires client { 1 ≤ client }
    requires next { asked_count client (items_in berth.old.present)
        < planned_count client (items_in berth.old.present) }
    ensures asked { IfOk result (λ number. (number ≡ seq) × IsAskedIn berth.old client berth.new) }
    ensures refused { IfErr result (λ why.
        (why ≡ refuses.ByLane refusals.NoMemory) × (berth.new ≡ berth.old)) }
    ensures on_lane { Calls (LaneGrows L.telling client) (Unit {0}) berth.old berth.new }
{
    match berth.ask(client) {
        Ok(Asked::Asked(_seq)) => Ok(seq),
        Ok(Asked::Nothing) => unreachable!(),
        Err(NoMemory) => Err(BerthRefusal::ByLane(PlanRefusal::NoMemory)),
    }
}

/// What waits beside the berth, where its present link has such. What it shows stays.
pub(crate) fn waiter_of<L: Link>(berth: &mut Berth<L>) -> Option<Waiter>
    ensures { berth_record L.telling berth.new ≡ berth_record L.telling berth.old }
{
    berth.waiter()
}

/// Greets the board anew where that is wanted and nothing is open. Whether a greeting began.
pub(crate) fn begin_for<L: Link + Drop>(berth: &mut Berth<L>, client: u32) -> bool
    requires client { 1 ≤ client }
    ensures { BeginsAs berth_manner client (berth_record L.telling berth.old) (berth_record L.telling berth.new) }
{
    berth.is_sound();
    if !berth.wants_greeting() {
        return false;
    }
    let begun = berth.begin(client);
    berth.is_sound();
    begun.is_ok()
}
