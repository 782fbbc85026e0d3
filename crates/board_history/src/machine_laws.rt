//! What the run of a live board's machine tells of its link and of what is shown. These functions do nothing when they
//! run: their clauses are what is proved.

ghost use Rattle.std.specs.Prelude.{◌≡◌, ◌↔◌, ℕ, List, length, Some};
ghost use Rattle.std.specs.List.{AllByRecursion, slice_get};
ghost use Rattle.ipb_base.specs.Lists.{IsPrefix};
ghost use Rattle.board_specs.specs.declared.spec.BoardSpec.{BoardSpec};
ghost use Rattle.world_model.specs.declared.offered.Fate.TheVariants as fate;
ghost use Rattle.world_model.specs.Places.{at_place};
ghost use Rattle.world_model.specs.Settings.{Limits};
ghost use Rattle.reliable_engine.specs.MachineRuns.{HasLate, IsBrought, IsBroughtLate};
ghost use Rattle.reliable_engine.specs.ToldFates.{StandsIn};
ghost use Rattle.reliable_engine.specs.Traffic.{IfSent, IsSendWith, SpellPacket, first_sends_in};
ghost use Rattle.lane_record.specs.declared.outcome.Outcome.TheVariants.{Replied, TimedOut, Unsent};
ghost use Rattle.script_steps.specs.declared.operation.Step.{Step};
ghost use Rattle.script_plans.specs.declared.board_run.BoardRun.{BoardRun};
ghost use Rattle.board_history.specs.History.{bodies_by_client, outcomes_by_client};
ghost use Rattle.board_history.specs.LinkRuns.{AreRunsOver};
ghost use Rattle.board_history.specs.Links.{LinkReport};
ghost use Rattle.board_history.specs.Machine.{AskedBody, IsMachineBoard, hub_greeted, offers_of, ordered_bodies, packet_of};
ghost use Rattle.board_history.specs.Machine.{RanAsMachine, packets_of};
ghost use Rattle.board_history.specs.Order.{order};

use reliable_engine::laws::machine_runs::{
    each_late_answer_is_that_of_its_own_body, each_reply_is_that_of_its_own_body,
    first_sends_are_the_packets_of_places, nothing_else_is_sent,
};
use status_packet::laws::each_is_a_packet;

/// The first sends to a live board are the packets of the bodies in its order: the first send of a place is the packet
/// of the body that stands there. So there are as many as bodies with a place.
pub fn first_sends_are_the_order_of_a_board()
    ensures packets { (settings : Limits) (payload : ℕ) (run : BoardRun) (link : LinkReport)
        (is : IsMachineBoard settings payload run link)
        → first_sends_in is.status.next 0 is.traffic ≡ packets_of is.status.next 1 (ordered_bodies run) }
    ensures each { (settings : Limits) (payload : ℕ) (run : BoardRun) (link : LinkReport)
        (is : IsMachineBoard settings payload run link) (place : ℕ) (body : List ℕ)
        → at_place (ordered_bodies run) place ≡ Some body
        → at_place (first_sends_in is.status.next 0 is.traffic) place ≡ Some (packet_of is.status.next place body) }
    ensures count { (settings : Limits) (payload : ℕ) (run : BoardRun) (link : LinkReport)
        (is : IsMachineBoard settings payload run link) → length (first_sends_in is.status.next 0 is.traffic)
        ≡ length (order (bodies_by_client run) (outcomes_by_client run)) }
    // None stands in the greeting. So those of the link are the first of them, and all of them where it never failed.
    ensures on_link { (settings : Limits) (payload : ℕ) (run : BoardRun) (link : LinkReport)
        (is : IsMachineBoard settings payload run link)
        → IsPrefix (first_sends_in is.status.next 0 link.traffic) (packets_of is.status.next 1 (ordered_bodies run)) }
    ensures on_good_link { (settings : Limits) (payload : ℕ) (run : BoardRun) (link : LinkReport)
        (is : IsMachineBoard settings payload run link) → link.faults ≡ 0
        → first_sends_in is.status.next 0 link.traffic ≡ packets_of is.status.next 1 (ordered_bodies run) }
{
    first_sends_are_the_packets_of_places();
}

/// What was sent over the link of a live board, in its greeting and after it, is status requests, re-send requests for
/// places that were sent, and packets of the bodies in its order at their places. Each of those was asked, and they
/// stand in the order of asking, each once. All that was sent is packets.
pub fn nothing_else_goes_to_a_board()
    ensures each { (settings : Limits) (payload : ℕ) (run : BoardRun) (link : LinkReport)
        (is : IsMachineBoard settings payload run link)
        → AllByRecursion (IfSent (IsSendWith is.status.next is.end.sent)) link.traffic }
    ensures packets { (settings : Limits) (payload : ℕ) (run : BoardRun) (link : LinkReport)
        → IsMachineBoard settings payload run link → AllByRecursion (IfSent SpellPacket) link.traffic }
    ensures asked { (settings : Limits) (payload : ℕ) (run : BoardRun) (link : LinkReport)
        (is : IsMachineBoard settings payload run link) → StandsIn is.end.sent (offers_of 0 is.asked) }
{
    nothing_else_is_sent();
    each_is_a_packet();
}

/// A body is shown replied to exactly where the reply of its place was heard while it had no fate. It is shown timed
/// out or unsent exactly where the last round ended while it had none, sent or not.
pub fn each_body_is_shown_its_own_fate()
    ensures replied { (settings : Limits) (payload : ℕ) (run : BoardRun) (link : LinkReport)
        (is : IsMachineBoard settings payload run link) (number : ℕ) (one : AskedBody) (place : ℕ) (words : List ℕ)
        → slice_get is.asked number ≡ Some one → (one.outcome ≡ Replied place words)
        ↔ IsBrought (hub_greeted settings is.status) is.events (number, fate.Replied place words) }
    ensures timed_out { (settings : Limits) (payload : ℕ) (run : BoardRun) (link : LinkReport)
        (is : IsMachineBoard settings payload run link) (number : ℕ) (one : AskedBody) (place rounds : ℕ)
        → slice_get is.asked number ≡ Some one → (one.outcome ≡ TimedOut place rounds)
        ↔ IsBrought (hub_greeted settings is.status) is.events (number, fate.TimedOut place rounds) }
    ensures unsent { (settings : Limits) (payload : ℕ) (run : BoardRun) (link : LinkReport)
        (is : IsMachineBoard settings payload run link) (number : ℕ) (one : AskedBody)
        → slice_get is.asked number ≡ Some one → (one.outcome ≡ Unsent)
        ↔ IsBrought (hub_greeted settings is.status) is.events (number, fate.Unsent) }
{
    each_reply_is_that_of_its_own_body();
}

/// A late answer is that of a place exactly where the reply of that place was heard after the hub gave up on its body.
pub fn late_answers_are_those_heard_late()
    ensures { (settings : Limits) (payload : ℕ) (run : BoardRun) (link : LinkReport)
        (is : IsMachineBoard settings payload run link) (place : ℕ) (words : List ℕ)
        → HasLate place words is.end.lates
        ↔ IsBroughtLate (hub_greeted settings is.status) is.events place words }
{
    each_late_answer_is_that_of_its_own_body();
}

/// Over each link of a run of scripts passed what the machine of the protocol does with the bodies of its clients,
/// where a status was told over it.
pub fn each_link_of_a_run_ran_as_the_machine()
    ensures { (settings : Limits) (board : ℕ) (specs : List BoardSpec) (scripts : List (List Step))
        (runs : List BoardRun) (links : List LinkReport) → AreRunsOver settings board specs scripts runs links
        → AllByRecursion RanAsMachine links }
{}
