//! A reply that comes for a place that was given up is kept: it is the late answer of the body at that place.

ghost use Rattle.std.specs.Prelude.{◌≡◌, ◌++◌, ℕ, List, [], ◌∷◌, false, Option, Some};
ghost use Rattle.std.specs.List.{slice_get};
ghost use Rattle.world_model.specs.declared.datagram.Datagram.{Datagram};
ghost use Rattle.world_model.specs.declared.moves.WorldMove.{WorldMove};
ghost use Rattle.world_model.specs.declared.offered.Fate.{Fate};
ghost use Rattle.world_model.specs.declared.offered.Offered.{Offered};
ghost use Rattle.world_model.specs.declared.offered.OpenPlace.{OpenPlace};
ghost use Rattle.world_model.specs.Board.{Board};
ghost use Rattle.world_model.specs.Messages.{ToHub};
ghost use Rattle.world_model.specs.Hub.{Hub, HandedOut, after_handing_out, hands_out, insert_late, none_handed_out, without};
ghost use Rattle.world_model.specs.Hub.{hear_quiet, hear_reply, new_hub, offer, open_with, take_message};
ghost use Rattle.world_model.specs.Sends.{Next, next_send};
ghost use Rattle.world_model.specs.World.{World, told_in};
ghost use Rattle.world_model.specs.History.{IsAnsweredLate, IsLateAnswer, IsRun};
ghost use Rattle.world_model.specs.LateAnswers.{AreOfTimedOut};

use crate::below::laws_below;

/// The reply of an open place that nobody waits for becomes the late answer of that place. It settles the place as each
/// other reply does: the place is closed, and the round is over.
pub fn a_late_reply_is_kept()
    ensures { (hub : Hub) (id : ℕ) (words : List ℕ) (settled : OpenPlace)
        → open_with hub.first id hub.open_places ≡ Some settled → settled.waited ≡ false
        → hear_reply hub id words ≡ record hub {
          open_places = without settled.place hub.open_places;
          status_requests = 0;
          lates = insert_late (settled.place, words) hub.lates;
        } }
{}

/// A place that is open and not waited for was timed out, and so was each place with a late answer; that place is open
/// no more, and no place has two late answers. A new hub begins so, and each event of a hub keeps it so, over any link.
pub fn a_late_answer_is_of_a_timed_out_body()
    ensures begins { (first window rounds : ℕ) → AreOfTimedOut none_handed_out (new_hub first window rounds) }
    ensures offered { (before : HandedOut) (hub : Hub) (offered : Offered)
        → AreOfTimedOut before hub → AreOfTimedOut before (offer hub offered) }
    ensures heard { (before : HandedOut) (hub : Hub) (message : Option ToHub)
        → AreOfTimedOut before hub → AreOfTimedOut before (take_message hub message) }
    ensures quiet { (before : HandedOut) (hub : Hub)
        → AreOfTimedOut before hub → AreOfTimedOut before (hear_quiet hub) }
    ensures sent { (before : HandedOut) (hub : Hub) (next : Next)
        → AreOfTimedOut before hub → next_send hub ≡ Some next → AreOfTimedOut before next.hub }
    ensures handed_out { (before : HandedOut) (hub : Hub)
        → AreOfTimedOut before hub → AreOfTimedOut (hands_out before hub) (after_handing_out hub) }
    ensures one_fate { (before : HandedOut) (hub : Hub) (fate : ℕ × Fate) (fates : List (ℕ × Fate))
        → AreOfTimedOut before hub → hub.fates ≡ fate ∷ fates
        → AreOfTimedOut (record before { fates = before.fates ++ fate ∷ [] }) (record hub { fates = fates }) }
    ensures one_late { (before : HandedOut) (hub : Hub) (late : ℕ × List ℕ) (lates : List (ℕ × List ℕ))
        → AreOfTimedOut before hub → hub.lates ≡ late ∷ lates
        → AreOfTimedOut (record before { lates = before.lates ++ late ∷ [] }) (record hub { lates = lates }) }
{}

/// So it is after every list of moves: each late answer is of a body that was timed out at its place and executed there
/// all the same, and no place has two.
pub fn a_late_answer_of_a_run_is_of_a_timed_out_body()
    ensures account { (window rounds : ℕ) (board : Board) (air : List Datagram) (moves : List WorldMove) (w : World)
        → IsRun window rounds board air moves w → AreOfTimedOut (told_in w) w.hub }
    ensures late { (window rounds : ℕ) (board : Board) (air : List Datagram) (moves : List WorldMove) (w : World)
        (place : ℕ) (words : List ℕ) → IsRun window rounds board air moves w
        → IsLateAnswer w place words → IsAnsweredLate w place }
    ensures once { (window rounds : ℕ) (board : Board) (air : List Datagram) (moves : List WorldMove) (w : World)
        (place one other : ℕ) (words again : List ℕ) → IsRun window rounds board air moves w
        → slice_get w.lates one ≡ Some (place, words) → slice_get w.lates other ≡ Some (place, again) → one ≡ other }
{
    laws_below();
}
