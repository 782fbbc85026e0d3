//! Laws of a simulated link, for every list of calls. These functions do nothing when they run: their clauses are what
//! is proved. What a call does is what `SimLink::send` and `SimLink::receive` do.

ghost use Rattle.std.specs.Prelude.{◌≡◌, ◌+◌, ◌-◌, ◌^◌, ◌==◌, ◌++◌, ◌<◌, ◌≤◌, ℕ, true, List, [], length, map, min};
ghost use Rattle.std.specs.Prelude.{Some};
ghost use Rattle.std.specs.List.{AllByRecursion, list_all, list_any, range_with_len};
ghost use Rattle.board_specs.specs.declared.spec.Fates.{Fates};
ghost use Rattle.board_specs.specs.declared.spec.Fates.TheVariants.{Text};
ghost use Rattle.world_model.specs.Air.{LIFETIME as most_further_sends};
ghost use Rattle.world_model.specs.Board.{Board};
ghost use Rattle.world_model.specs.Facts.{IsStart};
ghost use Rattle.world_model.specs.Links.{first_sends};
ghost use Rattle.world_model.specs.World.{start};
ghost use Rattle.links.specs.States.{IsReached};
ghost use Rattle.links.specs.declared.link.Received.TheVariants.{Got, Quiet};
ghost use Rattle.lossy_network.specs.declared.fates.DatagramFate.TheVariants.{Delivered};
ghost use Rattle.lossy_network.specs.Fates.{fate_at};
ghost use Rattle.lossy_network.specs.Network.{Network, fails, new_network, network_receipt};
ghost use Rattle.lossy_network.specs.Receipts.{GotReceipt, QuietReceipt};
ghost use Rattle.lossy_network.specs.Calls.{Call, after_calls, all_takings, copies, drops, held_of, place_taken};
ghost use Rattle.lossy_network.specs.Calls.{failures, times_of};
ghost use Rattle.lossy_network.specs.HubSteps.{HubAndLink, HubStep, IsHubStep, after_steps, new_hub_and_link};

use links::laws::each_event_leads_to_a_state_of_a_run;
use world_model::laws::links::a_link_forgets_nothing;

/// A receive takes datagrams from the front of the queue until one for the hub stands there, which it hands out, or
/// until the queue is at its end, and then it is quiet.
pub fn a_receive_hands_out_the_first_for_the_hub()
    ensures got { (link : Network) → Got ≡ (network_receipt link).answer → GotReceipt link }
    ensures quiet { (link : Network) → Quiet ≡ (network_receipt link).answer → QuietReceipt link }
{}

/// After any calls, those among them for which memory ran out, each datagram was taken from the queue, waits in it or
/// is delayed as often as its fate says: once where it is delivered or delayed, twice where it is repeated, and never
/// where it is lost. Of one that was not sent yet there is none.
pub fn a_datagram_is_taken_as_often_as_its_fate_says()
    ensures sent { (board : Board) (fates : Fates) (fail : List ℕ) (calls : List Call) (place : ℕ)
        → place < length (after_calls (new_network board fates fail) calls).told.air
        → times_of (after_calls (new_network board fates fail) calls)
        (all_takings (new_network board fates fail) calls) place ≡ copies (fate_at fates place) }
    ensures not_sent { (board : Board) (fates : Fates) (fail : List ℕ) (calls : List Call) (place : ℕ)
        → length (after_calls (new_network board fates fail) calls).told.air ≤ place
        → times_of (after_calls (new_network board fates fail) calls)
        (all_takings (new_network board fates fail) calls) place ≡ 0 }
{}

/// After any calls, as many datagrams count as held as were lost, delayed or dropped for age, up to 2^64 - 1.
pub fn held_are_those_lost_delayed_or_dropped()
    ensures { (board : Board) (fates : Fates) (fail : List ℕ) (calls : List Call)
        → (after_calls (new_network board fates fail) calls).traffic.held
        ≡ min (held_of fates (length (after_calls (new_network board fates fail) calls).told.air)
        + drops (all_takings (new_network board fates fail) calls)) (2 ^ 64 - 1) }
{}

/// Where every fate delivers, as those of an empty text or of one of nothing but `d` do, datagrams are taken from the
/// queue in the order of sending, each once, and those that were sent after them wait there. With no more first sends
/// than the lifetime of a datagram nothing counts as held, and none was dropped: so each that was taken was heard.
pub fn where_every_fate_delivers_all_are_taken_in_order()
    ensures text { (text : List ℕ) (place : ℕ) → list_all (λ character. character == 100) text ≡ true
        → fate_at (Text text) place ≡ Delivered }
    ensures in_order { (board : Board) (fates : Fates) (fail : List ℕ) (calls : List Call)
        → ((place : ℕ) → fate_at fates place ≡ Delivered)
        → map place_taken (all_takings (new_network board fates fail) calls)
        ++ (after_calls (new_network board fates fail) calls).traffic.queue
        ≡ range_with_len 0 (length (after_calls (new_network board fates fail) calls).told.air) }
    ensures none_held { (board : Board) (fates : Fates) (fail : List ℕ) (calls : List Call)
        → ((place : ℕ) → fate_at fates place ≡ Delivered)
        → first_sends (after_calls (new_network board fates fail) calls).told ≤ most_further_sends
        → (after_calls (new_network board fates fail) calls).traffic.held ≡ 0 }
    ensures all_heard { (board : Board) (fates : Fates) (fail : List ℕ) (calls : List Call)
        → ((place : ℕ) → fate_at fates place ≡ Delivered)
        → first_sends (after_calls (new_network board fates fail) calls).told ≤ most_further_sends
        → drops (all_takings (new_network board fates fail) calls) ≡ 0 }
{
    a_link_forgets_nothing();
}

/// Calls are counted from 1, and a call fails exactly where its number was named. As many faults are counted as calls
/// failed, up to 2^64 - 1.
pub fn the_named_calls_fail_and_no_others()
    ensures named { (board : Board) (fates : Fates) (fail : List ℕ) (calls : List Call) → length calls + 1 < 2 ^ 64
        → fails (after_calls (new_network board fates fail) calls)
        ≡ list_any (λ number. number == length calls + 1) fail }
    ensures counted { (board : Board) (fates : Fates) (fail : List ℕ) (calls : List Call)
        → (after_calls (new_network board fates fail) calls).faults
        ≡ min (failures (new_network board fates fail) calls) (2 ^ 64 - 1) }
{}

/// No more than nine datagrams are delayed at once, however long a link has run.
pub fn no_more_than_nine_are_delayed()
    ensures { (board : Board) (fates : Fates) (fail : List ℕ) (calls : List Call)
        → length (after_calls (new_network board fates fail) calls).traffic.delayed ≤ 9 }
{}

/// A hub over a simulated link begins where a run of the world begins, and whatever it does leads to a state of one: it
/// takes an offer, sends what it wants to send, receives when nothing is left to send, is told that memory ran out in a
/// receive, and hands out fates and late answers. So the air is that of a run, and the board's executed bodies are.
/// Steps after a call that failed, or after a send that memory ran out for, are not spoken of.
pub fn a_hub_over_a_simulated_link_goes_as_a_run()
    ensures { (window rounds : ℕ) (board : Board) (fates : Fates) (fail : List ℕ) (steps : List HubStep)
        (after : HubAndLink) → IsStart window board [] → AllByRecursion IsHubStep steps
        → after_steps (new_hub_and_link window rounds (new_network board fates fail)) steps ≡ Some after
        → IsReached (start window rounds board []) after.so_far after.hub after.net.told }
{
    each_event_leads_to_a_state_of_a_run();
}
