//! Each offered body has one place and one fate at most, and a give-up has its price.

ghost use Rattle.std.specs.Prelude.{◌≡◌, ◌≢◌, ◌≤◌, ◌+◌, ◌*◌, ℕ, List, [], map, min, Some, Ok};
ghost use Rattle.world_model.specs.declared.datagram.Datagram.{Datagram};
ghost use Rattle.world_model.specs.declared.moves.WorldMove.{WorldMove};
ghost use Rattle.world_model.specs.declared.moves.WorldMove.TheVariants.{Quiet, HubHears};
ghost use Rattle.world_model.specs.declared.offered.Fate.TheVariants.{TimedOut, Unsent};
ghost use Rattle.world_model.specs.declared.offered.Offered.{Offered};
ghost use Rattle.world_model.specs.Places.{at_place};
ghost use Rattle.world_model.specs.Board.{Board};
ghost use Rattle.world_model.specs.World.{World, step};
ghost use Rattle.world_model.specs.History.{Leads, IsRun, IsHandedOut, IsAccounted, IsOffered, offers, times};
ghost use Rattle.world_model.specs.History.{tag_of_fate, tag_of_offered, quiets, timeouts};

use crate::below::laws_below;

/// What stands at a place was offered: the body and the tag are those of an offer.
pub fn a_place_has_an_offered_body()
    ensures { (window rounds : ℕ) (board : Board) (air : List Datagram) (moves : List WorldMove) (w : World)
        (place : ℕ) (offered : Offered) → IsRun window rounds board air moves w
        → at_place w.hub.sent place ≡ Some offered → IsOffered moves offered }
{
    laws_below();
}

/// Each offered body stands once among those that have a fate, those that are waited for and those that are queued. So
/// no tag has more places, or more fates, than offers; and where a tag was offered once and its fate is Unsent, its
/// body was never sent.
pub fn an_offered_body_has_one_fate()
    ensures account { (window rounds : ℕ) (board : Board) (air : List Datagram) (moves : List WorldMove) (w : World)
        (tag : ℕ) → IsRun window rounds board air moves w → IsAccounted moves w tag }
    ensures fates { (window rounds : ℕ) (board : Board) (air : List Datagram) (moves : List WorldMove) (w : World)
        (tag : ℕ) → IsRun window rounds board air moves w
        → times tag (map tag_of_fate w.fates) ≤ times tag (offers moves) }
    ensures places { (window rounds : ℕ) (board : Board) (air : List Datagram) (moves : List WorldMove) (w : World)
        (tag : ℕ) → IsRun window rounds board air moves w
        → times tag (map tag_of_offered w.hub.sent) ≤ times tag (offers moves) }
    ensures unsent { (window rounds : ℕ) (board : Board) (air : List Datagram) (moves : List WorldMove) (w : World)
        (tag : ℕ) → IsRun window rounds board air moves w → times tag (offers moves) ≡ 1
        → IsHandedOut w tag Unsent → times tag (map tag_of_offered w.hub.sent) ≡ 0 }
{
    laws_below();
}

/// A body is timed out after the rounds of the hub, and only after as many quiet receives as the rounds and one more,
/// for each window of bodies.
pub fn timeouts_need_quiet_receives()
    ensures after_rounds { (window rounds : ℕ) (board : Board) (air : List Datagram) (moves : List WorldMove)
        (w : World) (tag place after : ℕ) → IsRun window rounds board air moves w
        → IsHandedOut w tag (TimedOut place after) → after ≡ rounds }
    ensures bound { (window rounds : ℕ) (board : Board) (air : List Datagram) (moves : List WorldMove) (w : World)
        → IsRun window rounds board air moves w
        → (rounds + 1) * timeouts w.fates ≤ min window board.buffers * quiets moves }
{
    laws_below();
}

/// Each quiet receive asks for one status at most, and a reply that settles a place ends the round. So a hub that has
/// begun no round, as after a settled place, gives up at a quiet receive only after as many quiet receives as its
/// rounds.
pub fn a_give_up_comes_only_after_its_rounds()
    ensures counted { (moves : List WorldMove) (old new : World) → Leads moves old new
        → new.hub.status_requests ≤ old.hub.status_requests + quiets moves }
    ensures settled { (old new : World) (at number : ℕ) → old.hub.fates ≡ []
        → step at old (HubHears number) ≡ Ok new → new.fates ≢ old.fates → new.hub.status_requests ≡ 0 }
    ensures late { (old new : World) (at number : ℕ) → old.hub.lates ≡ []
        → step at old (HubHears number) ≡ Ok new → new.lates ≢ old.lates → new.hub.status_requests ≡ 0 }
    ensures after { (moves : List WorldMove) (old last new : World) (at : ℕ) → Leads moves old last
        → old.hub.status_requests ≡ 0 → last.hub.fates ≡ [] → step at last Quiet ≡ Ok new → new.fates ≢ last.fates
        → last.hub.rounds ≤ quiets moves }
{}
