//! Laws of a hub over a link that tells. These functions do nothing when they run: their clauses are what is proved.

ghost use Rattle.std.specs.Prelude.{◌≡◌, ◌≤◌, ◌<◌, ℕ, List, [], ◌∷◌, ◌++◌, length, min, true};
ghost use Rattle.std.specs.Prelude.{Option, Some, None, IfSome};
ghost use Rattle.std.specs.List.{Contains, slice_get};
ghost use Rattle.ipb_base.specs.Faults.{Rose};
ghost use Rattle.ipb_base.specs.Lists.{IsPrefix};
ghost use Rattle.world_model.specs.declared.datagram.Datagram.{Datagram};
ghost use Rattle.world_model.specs.declared.sending.Sending.{Sending};
ghost use Rattle.world_model.specs.Air.{LIFETIME as most_further_sends};
ghost use Rattle.ipb_base.specs.Numbers.{greatest_mtu};
ghost use Rattle.reliable_engine.specs.Answers.{IsSendOf};
ghost use Rattle.world_model.specs.declared.offered.Fate.TheVariants.{Replied, TimedOut};
ghost use Rattle.world_model.specs.declared.offered.Offered.{Offered};
ghost use Rattle.world_model.specs.Board.{Board, bodies_executed, replies};
ghost use Rattle.world_model.specs.Messages.{to_hub};
ghost use Rattle.world_model.specs.Hub.{Hub, HandedOut, IsDrained, after_handing_out, hands_out, none_handed_out};
ghost use Rattle.world_model.specs.Hub.{hear_quiet, is_waiting, new_hub, offer, take_message};
ghost use Rattle.world_model.specs.Sends.{Next, bytes_to_send, next_send};
ghost use Rattle.world_model.specs.World.{World, start};
ghost use Rattle.world_model.specs.Facts.{AreLateReplies, AreRight, AreSendable, IsSendable, IsStart, bodies_of};
ghost use Rattle.world_model.specs.History.{IsAnsweredLate, IsExecutedAtMostOnce, IsExecutedThere, IsHandedOut};
ghost use Rattle.world_model.specs.History.{IsLateAnswer, IsTrueHistory};
ghost use Rattle.world_model.specs.Lanes.{caught_up};
ghost use Rattle.world_model.specs.Links.{heard_by, IsHanded, IsHandedAt, IsHeard, Told, sent_on};
ghost use Rattle.links.specs.Messages.{IsWritable};
ghost use Rattle.links.specs.States.{IsReached, world_of_both};
ghost use Rattle.links.specs.Telling.{IfTelling, IsGot, IsQuiet, IsReceived, IsSent, KeepsBut, Telling};

use crate::link::{LIFETIME, MAX_DATAGRAM};
use reliable_engine::laws::a_give_up_ends_all_waiting;
use world_model::laws::history::{a_fate_is_that_of_its_place, each_body_is_executed_once};
use world_model::laws::lanes::waiting_sends_change_no_run;
use world_model::laws::late_answers::a_late_answer_of_a_run_is_of_a_timed_out_body;
use world_model::laws::links::{
    a_greeting_joins, each_event_keeps_them_joined, joined_ones_tell_the_truth,
};
use world_model::laws::sends::sends_go_one_by_one;

/// The lifetime of a datagram and the longest datagram.
pub fn the_numbers_of_a_link()
    ensures lifetime { LIFETIME ≡ most_further_sends }
    ensures datagram { MAX_DATAGRAM ≡ greatest_mtu }
{}

/// What a hub wants to send can be written, where the bodies that it sent are words and not too long.
pub fn what_is_wanted_can_be_written()
    ensures { (hub : Hub) (send : Sending) → IsSendOf hub send → AreSendable hub.sent → IsWritable hub send }
{}

/// A send leaves the fates and the late answers as they were, and whether the hub gave up.
pub fn a_send_leaves_the_fates()
    ensures fates { (hub : Hub) (next : Next) → next_send hub ≡ Some next → next.hub.fates ≡ hub.fates }
    ensures lates { (hub : Hub) (next : Next) → next_send hub ≡ Some next → next.hub.lates ≡ hub.lates }
    ensures gave_up { (hub : Hub) (next : Next) → next_send hub ≡ Some next → next.hub.gave_up ≡ hub.gave_up }
{}

/// A hub and a link that tells begin at a state of a run, and each thing that they do leads to one: an offer, a send
/// that the link carried, whatever the board heard in one receive, a datagram that was handed out, a quiet receive, and
/// the handing out of the fates and late answers that wait, which join those that were handed out before. The hub
/// receives when nothing is left to send and nothing to hand out.
pub fn each_event_leads_to_a_state_of_a_run()
    ensures begins { (window rounds : ℕ) (board : Board) (air : List Datagram) → IsStart window board air
        → IsReached (start window rounds board air) none_handed_out
        (new_hub board.first (min window board.buffers) rounds) (record { board = board; air = air }) }
    ensures offered { (begin : World) (so_far : HandedOut) (hub : Hub) (told : Told) (offered : Offered)
        → IsReached begin so_far hub told
        → IsSendable offered.body → IsDrained hub → IsReached begin so_far (offer hub offered) told }
    ensures sent { (begin : World) (so_far : HandedOut) (hub : Hub) (told : Told) (next : Next)
        → IsReached begin so_far hub told
        → next_send hub ≡ Some next
        → IsReached begin so_far next.hub (sent_on told (bytes_to_send next.hub next.send)) }
    ensures heard { (begin : World) (so_far : HandedOut) (hub : Hub) (old new : Told)
        → IsReached begin so_far hub old → next_send hub ≡ None
        → IsDrained hub → IsHeard old new → IsReached begin so_far hub new }
    ensures handed { (begin : World) (so_far : HandedOut) (hub : Hub) (told : Told) (bytes : List ℕ)
        → IsReached begin so_far hub told
        → next_send hub ≡ None → IsDrained hub → IsHanded told bytes
        → IsReached begin so_far (take_message hub (to_hub bytes)) told }
    ensures quiet { (begin : World) (so_far : HandedOut) (hub : Hub) (told : Told)
        → IsReached begin so_far hub told → next_send hub ≡ None
        → IsDrained hub → is_waiting hub ≡ true → IsReached begin so_far (hear_quiet hub) told }
    ensures handed_out { (begin : World) (so_far : HandedOut) (hub : Hub) (told : Told)
        → IsReached begin so_far hub told
        → IsReached begin (hands_out so_far hub) (after_handing_out hub) told }
{
    a_give_up_ends_all_waiting();
    a_greeting_joins();
    each_event_keeps_them_joined();
    waiting_sends_change_no_run();
    sends_go_one_by_one();
}

/// Each call of a link that may tell leads to a state of a run: an accepted send, a receive that got a datagram, one
/// that was quiet while somebody waited, and any other one.
pub fn each_call_leads_to_a_state_of_a_run()
    ensures sent { (begin : World) (so_far : HandedOut) (hub : Hub) (next : Next)
        (before now : ℕ) (old new : Option Telling)
        → IfSome old (λ t. IsReached begin so_far hub t.told) → next_send hub ≡ Some next
        → IfTelling old new (IsSent (bytes_to_send next.hub next.send) before now)
        → IfSome new (λ t. IsReached begin so_far next.hub t.told) }
    ensures got { (begin : World) (so_far : HandedOut) (hub : Hub) (bytes : List ℕ)
        (before now : ℕ) (old new : Option Telling)
        → IfSome old (λ t. IsReached begin so_far hub t.told) → next_send hub ≡ None → IsDrained hub
        → IfTelling old new (IsGot bytes before now)
        → IfSome new (λ t. IsReached begin so_far (take_message hub (to_hub bytes)) t.told) }
    ensures quiet { (begin : World) (so_far : HandedOut) (hub : Hub) (before now : ℕ) (old new : Option Telling)
        → IfSome old (λ t. IsReached begin so_far hub t.told) → next_send hub ≡ None → IsDrained hub
        → is_waiting hub ≡ true → IfTelling old new (IsQuiet before now)
        → IfSome new (λ t. IsReached begin so_far (hear_quiet hub) t.told) }
    ensures other { (begin : World) (so_far : HandedOut) (hub : Hub) (by_hub : List ℕ)
        (before now : ℕ) (old new : Option Telling)
        → IfSome old (λ t. IsReached begin so_far hub t.told) → next_send hub ≡ None → IsDrained hub
        → IfTelling old new (IsReceived by_hub before now)
        → IfSome new (λ t. IsReached begin so_far hub t.told) }
{
    each_event_leads_to_a_state_of_a_run();
}

/// What such a state tells. The executed bodies are the front of those that were sent first, in order; each fate that
/// waits to be handed out is that of its place, and each late answer is the reply at its place. Of all that was handed
/// out and all that waits it tells, as the board is and once the sends that wait are in the air, that they are a true
/// history: a body that was replied was sent and executed at the place of that reply, one that timed out was executed
/// at its place or not at all, and one with a late answer timed out at its place and was executed there all the same;
/// no place has two late answers. Where no send waits and nothing is to be handed out, this is told of the state itself.
pub fn a_state_of_a_run_tells_the_truth()
    ensures executed { (begin : World) (so_far : HandedOut) (hub : Hub) (told : Told)
        → IsReached begin so_far hub told → IsPrefix (bodies_executed told.board) (bodies_of hub.sent) }
    ensures fates { (begin : World) (so_far : HandedOut) (hub : Hub) (told : Told)
        → IsReached begin so_far hub told → AreRight hub.sent (replies told.board) hub.fates }
    ensures all_fates { (hub : Hub) (told : Told) (so_far : HandedOut)
        → (caught_up (world_of_both hub told so_far)).fates ≡ so_far.fates ++ hub.fates }
    ensures all_lates { (hub : Hub) (told : Told) (so_far : HandedOut)
        → (caught_up (world_of_both hub told so_far)).lates ≡ so_far.lates ++ hub.lates }
    ensures lates { (begin : World) (so_far : HandedOut) (hub : Hub) (told : Told)
        → IsReached begin so_far hub told → AreLateReplies (replies told.board) hub.lates }
    ensures same_board { (hub : Hub) (told : Told) (so_far : HandedOut)
        → (caught_up (world_of_both hub told so_far)).board ≡ told.board }
    ensures nothing_waits { (hub : Hub) (told : Told) (so_far : HandedOut) → next_send hub ≡ None
        → IsDrained hub → caught_up (world_of_both hub told so_far) ≡ world_of_both hub told so_far }
    ensures history { (window rounds : ℕ) (board : Board) (air : List Datagram) (so_far : HandedOut)
        (hub : Hub) (told : Told) → IsStart window board air
        → IsReached (start window rounds board air) so_far hub told
        → IsTrueHistory (caught_up (world_of_both hub told so_far)) }
    ensures replied { (window rounds : ℕ) (board : Board) (air : List Datagram) (so_far : HandedOut)
        (hub : Hub) (told : Told) (tag place : ℕ) (words : List ℕ) → IsStart window board air
        → IsReached (start window rounds board air) so_far hub told
        → IsHandedOut (caught_up (world_of_both hub told so_far)) tag (Replied place words)
        → IsExecutedThere (caught_up (world_of_both hub told so_far)) tag place }
    ensures timed_out { (window rounds : ℕ) (board : Board) (air : List Datagram) (so_far : HandedOut)
        (hub : Hub) (told : Told) (tag place after : ℕ) → IsStart window board air
        → IsReached (start window rounds board air) so_far hub told
        → IsHandedOut (caught_up (world_of_both hub told so_far)) tag (TimedOut place after)
        → IsExecutedAtMostOnce (caught_up (world_of_both hub told so_far)) tag place }
    ensures late { (window rounds : ℕ) (board : Board) (air : List Datagram) (so_far : HandedOut)
        (hub : Hub) (told : Told) (place : ℕ) (words : List ℕ) → IsStart window board air
        → IsReached (start window rounds board air) so_far hub told
        → IsLateAnswer (caught_up (world_of_both hub told so_far)) place words
        → IsAnsweredLate (caught_up (world_of_both hub told so_far)) place }
    ensures late_once { (window rounds : ℕ) (board : Board) (air : List Datagram) (so_far : HandedOut)
        (hub : Hub) (told : Told) (place one other : ℕ) (words again : List ℕ) → IsStart window board air
        → IsReached (start window rounds board air) so_far hub told
        → slice_get (caught_up (world_of_both hub told so_far)).lates one ≡ Some (place, words)
        → slice_get (caught_up (world_of_both hub told so_far)).lates other ≡ Some (place, again) → one ≡ other }
{
    joined_ones_tell_the_truth();
    each_body_is_executed_once();
    a_fate_is_that_of_its_place();
    a_late_answer_of_a_run_is_of_a_timed_out_body();
    sends_go_one_by_one();
}

/// A receive of a link that tells may be put together of steps: nothing at all; a datagram that the board hears, whose
/// answer, if any, is still to be heard; a datagram that is given up and counts as held; a datagram that is handed out;
/// and one step after another, where the last one alone hands out.
pub fn a_receive_goes_step_by_step()
    ensures nothing { (held : ℕ) (telling : Telling) → IsReceived [] held held telling telling }
    ensures heard { (held place : ℕ) (old new : Telling)
        → heard_by old.told (slice_get old.told.air place) ≡ Some new.told → new.handed ≡ old.handed
        → KeepsBut place old.due new.due
        → (length old.told.air < length new.told.air → Contains new.due (length old.told.air))
        → IsReceived [] held held old new }
    ensures given_up { (before now place : ℕ) (old new : Telling) → new.told ≡ old.told → new.handed ≡ old.handed
        → KeepsBut place old.due new.due → Rose before now → IsReceived [] before now old new }
    ensures handed_out { (held place : ℕ) (bytes : List ℕ) (old new : Telling) → new.told ≡ old.told
        → new.handed ≡ old.handed ++ place ∷ [] → KeepsBut place old.due new.due
        → IsHandedAt new.told bytes place → IsGot bytes held held old new }
    ensures then { (by_hub : List ℕ) (first mid last : ℕ) (old between new : Telling) → first ≤ mid → mid ≤ last
        → IsReceived [] first mid old between → IsReceived by_hub mid last between new
        → IsReceived by_hub first last old new }
{}
