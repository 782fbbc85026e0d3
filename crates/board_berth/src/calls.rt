//! The calls of a lane on a greeting. Where the board did not answer they do nothing.

ghost use Rattle.std.specs.Prelude.{◌≡◌, ◌≤◌, IfOk, IfErr, OnErr};
ghost use Rattle.transaction_codec.specs.Answer.{reply_room};
ghost use Rattle.hub_lane.specs.Calls.{AsksAs, IsSameRecord, SendsAs};
ghost use Rattle.hub_lane.specs.Links.{IsDownByFault, KeepsCounting, ReceivesNothing};
ghost use Rattle.hub_lane.specs.Plans.{Plans};
ghost use Rattle.hub_lane.specs.Step.{LooksAs, RoseInVain, StepsAs, StepsOnce};
ghost use Rattle.hub_lane.specs.declared.answers.Asked.TheVariants as asks;
ghost use Rattle.hub_lane.specs.declared.step.Looked.TheVariants as looks;
ghost use Rattle.hub_lane.specs.declared.step.Stepped.TheVariants as steps;
ghost use Rattle.board_berth.specs.Records.{stretch_of};
ghost use Rattle.board_berth.specs.Calls.{IsRefusedAt, IsRefusedBy, LaneGrows, OnLane};

use crate::answers::BerthRefusal;
use crate::greeting::Greeting;
use hub_lane::{Asked, Lane, Link, Looked, NoMemory, Stepped, Words};

/// So many bodies of a lane are left for those that wait while it drains (profile).
const SPARE_BODIES: u64 = 1000;

/// So many words of bodies and of longest replies are (profile).
const SPARE_WORDS: u64 = 1_000_000;

/// Whether another greeting is wanted: the board did not answer, its link failed, it is out of order, or the lane nears
/// its limits.
pub(crate) fn wants_greeting<L: Link>(greeting: &Greeting<L>) -> bool {
    match greeting {
        Greeting::Answered { by: _, lane } => lane_wants_greeting(lane),
        Greeting::Silent { link: _ } => true,
        Greeting::Down { link: _ } => true,
    }
}

fn lane_wants_greeting<L: Link>(lane: &Lane<L>) -> bool {
    lane.is_down() || lane.is_out_of_order() || !lane.leaves_room(SPARE_BODIES, SPARE_WORDS)
}

/// Plans a body for a client.
pub(crate) fn plan_in<L: Link>(
    greeting: &mut Greeting<L>,
    client: u32,
    body: Words,
    reply_words: u32,
) -> Result<u64, BerthRefusal>
    requires client { 1 ≤ client }
    requires reply { reply_words ≡ reply_room body }
    ensures planned { IfOk result (λ seq.
        OnLane (λ lane after. Plans lane client body after seq) ⊥ greeting.old greeting.new) }
    ensures refused { IfErr result (IsRefusedAt greeting.old body) }
    ensures unchanged { OnErr result (greeting.new ≡ greeting.old) }
    ensures grows { OnLane (LaneGrows L.telling client) (Unit {0}) greeting.old greeting.new }
{
    match greeting {
        Greeting::Answered { by: _, lane } => plan_on(lane, client, body, reply_words),
        Greeting::Silent { link: _ } => Err(BerthRefusal::Silent),
        Greeting::Down { link: _ } => Err(BerthRefusal::Down),
    }
}

fn plan_on<L: Link>(
    lane: &mut Lane<L>,
    client: u32,
    body: Words,
    reply_words: u32,
) -> Result<u64, BerthRefusal>
    requires client { 1 ≤ client }
    requires reply { reply_words ≡ reply_room body }
    ensures planned { IfOk result (Plans lane.old client body lane.new) }
    ensures refused { IfErr result (IsRefusedBy lane.old body) }
    ensures unchanged { OnErr result (lane.new ≡ lane.old) }
{
    if lane_wants_greeting(lane) && !lane.is_all_taken() {
        return Err(BerthRefusal::Later);
    }
    match lane.plan(client, body, reply_words) {
        Ok(seq) => Ok(seq),
        Err(why) => Err(BerthRefusal::ByLane(why)),
    }
}

/// Asks the client's next planned body.
pub(crate) fn ask_in<L: Link>(greeting: &mut Greeting<L>, client: u32) -> Result<Asked, NoMemory>
    requires client { 1 ≤ client }
    ensures asked { IfOk result (λ asked.
        OnLane (λ lane after. AsksAs lane client after asked) (asked ≡ asks.Nothing) greeting.old greeting.new) }
    ensures unchanged { OnErr result (greeting.new ≡ greeting.old) }
    ensures down { OnLane (IsDownByFault L.Link) (Unit {0}) greeting.old greeting.new }
    ensures unreceived { OnLane (λ lane after. ReceivesNothing L.Link lane.link after.link) (Unit {0}) greeting.old
        greeting.new }
    ensures grows { OnLane (LaneGrows L.telling client) (Unit {0}) greeting.old greeting.new }
{
    match greeting {
        Greeting::Answered { by: _, lane } => lane.ask(client),
        Greeting::Silent { link: _ } => Ok(Asked::Nothing),
        Greeting::Down { link: _ } => Ok(Asked::Nothing),
    }
}

/// Sends what waits to be sent.
pub(crate) fn send_in<L: Link>(greeting: &mut Greeting<L>)
    ensures sends { OnLane SendsAs (Unit {0}) greeting.old greeting.new }
    ensures same { OnLane IsSameRecord (Unit {0}) greeting.old greeting.new }
    ensures down { OnLane (IsDownByFault L.Link) (Unit {0}) greeting.old greeting.new }
    ensures unreceived { OnLane (λ lane after. ReceivesNothing L.Link lane.link after.link) (Unit {0}) greeting.old
        greeting.new }
    ensures stretch { stretch_of L.telling greeting.new ≡ stretch_of L.telling greeting.old }
{
    match greeting {
        Greeting::Answered { by: _, lane } => lane.send_wanted(),
        Greeting::Silent { link: _ } => (),
        Greeting::Down { link: _ } => (),
    }
}

/// Takes what became of the client's oldest asked and untaken body, if anything did.
pub(crate) fn look_in<L: Link>(greeting: &mut Greeting<L>, client: u32) -> Result<Looked, NoMemory>
    requires client { 1 ≤ client }
    ensures looked { IfOk result (λ looked.
        OnLane (λ lane after. LooksAs lane client after looked) (looked ≡ looks.Nothing) greeting.old greeting.new) }
    ensures unchanged { OnErr result (greeting.new ≡ greeting.old) }
    ensures link { OnLane (λ lane after. after.link ≡ lane.link) (Unit {0}) greeting.old greeting.new }
    ensures grows { OnLane (LaneGrows L.telling client) (Unit {0}) greeting.old greeting.new }
{
    match greeting {
        Greeting::Answered { by: _, lane } => lane.look(client),
        Greeting::Silent { link: _ } => Ok(Looked::Nothing),
        Greeting::Down { link: _ } => Ok(Looked::Nothing),
    }
}

/// Takes what became of the client's oldest asked and untaken body; where nothing did yet, pumps and looks once more.
pub(crate) fn step_in<L: Link>(greeting: &mut Greeting<L>, client: u32) -> Result<Stepped, NoMemory>
    requires client { 1 ≤ client }
    ensures stepped { IfOk result (λ stepped.
        OnLane (λ lane after. StepsAs lane client after stepped) (stepped ≡ steps.Nothing) greeting.old
        greeting.new) }
    ensures once { IfOk result (λ stepped.
        OnLane (λ lane after. StepsOnce L.Link lane client after stepped) (Unit {0}) greeting.old greeting.new) }
    ensures same { OnErr result (OnLane IsSameRecord ⊥ greeting.old greeting.new) }
    ensures received { IfOk result (λ stepped.
        OnLane (λ lane after. RoseInVain L.Link stepped lane.link after.link) (Unit {0}) greeting.old greeting.new) }
    ensures counts { OnLane (λ lane after. KeepsCounting L.Link lane.link after.link) (Unit {0}) greeting.old
        greeting.new }
    ensures grows { OnLane (LaneGrows L.telling client) (Unit {0}) greeting.old greeting.new }
{
    match greeting {
        Greeting::Answered { by: _, lane } => lane.step(client),
        Greeting::Silent { link: _ } => Ok(Stepped::Nothing),
        Greeting::Down { link: _ } => Ok(Stepped::Nothing),
    }
}
