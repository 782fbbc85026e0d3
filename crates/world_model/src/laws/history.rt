//! The theorem: any moves, however often the identifiers begin anew. And what follows from it.

ghost use Rattle.std.specs.Prelude.{◌≡◌, ◌≤◌, ◌<◌, ◌+◌, ℕ, List, length, min, Some, None};
ghost use Rattle.ipb_base.specs.Lists.{IsPrefix};
ghost use Rattle.world_model.specs.declared.datagram.Datagram.{Datagram};
ghost use Rattle.world_model.specs.declared.heard.LogEntry.{LogEntry};
ghost use Rattle.world_model.specs.declared.moves.WorldMove.{WorldMove};
ghost use Rattle.world_model.specs.declared.offered.Fate.TheVariants.{Replied, TimedOut};
ghost use Rattle.world_model.specs.declared.offered.Offered.{Offered};
ghost use Rattle.world_model.specs.Places.{at_place};
ghost use Rattle.world_model.specs.Board.{Board, bodies_executed};
ghost use Rattle.world_model.specs.Messages.{Reply, to_hub};
ghost use Rattle.world_model.specs.Hub.{low};
ghost use Rattle.world_model.specs.Sends.{next_send};
ghost use Rattle.world_model.specs.World.{World};
ghost use Rattle.world_model.specs.Facts.{IsSound, bodies_of};
ghost use Rattle.world_model.specs.History.{Leads, IsRun, IsHandedOut, IsAliveInAir, IsTrueHistory};
ghost use Rattle.world_model.specs.History.{IsExecutedThere, IsExecutedAtMostOnce, IsLateAnswer};

use crate::below::laws_below;

/// The theorem, for every list of moves from a fresh board.
pub fn each_body_is_executed_once()
    ensures history { (window rounds : ℕ) (board : Board) (air : List Datagram) (moves : List WorldMove) (w : World)
        → IsRun window rounds board air moves w → IsTrueHistory w }
    ensures facts { (window rounds : ℕ) (board : Board) (air : List Datagram) (moves : List WorldMove) (w : World)
        → IsRun window rounds board air moves w → IsSound w }
{
    laws_below();
}

/// What is executed at a place is the body that was sent there, and no more is executed than was sent.
pub fn nothing_is_executed_twice_or_out_of_order()
    ensures in_order { (window rounds : ℕ) (board : Board) (air : List Datagram) (moves : List WorldMove) (w : World)
        (place : ℕ) (body : List ℕ) → IsRun window rounds board air moves w
        → at_place (bodies_executed w.board) place ≡ Some body → at_place (bodies_of w.hub.sent) place ≡ Some body }
    ensures no_more { (window rounds : ℕ) (board : Board) (air : List Datagram) (moves : List WorldMove) (w : World)
        → IsRun window rounds board air moves w → length (bodies_executed w.board) ≤ length w.hub.sent }
{
    laws_below();
}

/// A fate with a place is that of the body that was sent there under its tag: executed where it was replied, and at
/// most once where it timed out.
pub fn a_fate_is_that_of_its_place()
    ensures replied { (window rounds : ℕ) (board : Board) (air : List Datagram) (moves : List WorldMove) (w : World)
        (tag place : ℕ) (words : List ℕ) → IsRun window rounds board air moves w
        → IsHandedOut w tag (Replied place words) → IsExecutedThere w tag place }
    ensures timed_out { (window rounds : ℕ) (board : Board) (air : List Datagram) (moves : List WorldMove) (w : World)
        (tag place after : ℕ) → IsRun window rounds board air moves w
        → IsHandedOut w tag (TimedOut place after) → IsExecutedAtMostOnce w tag place }
{
    laws_below();
}

/// A place has one reply: any two replies to it that may still be heard, any two fates, and any two late answers have
/// the same words.
pub fn replies_of_one_place_are_equal()
    ensures heard { (window rounds : ℕ) (board : Board) (air : List Datagram) (moves : List WorldMove) (w : World)
        (id : ℕ) (one other : List ℕ) (words again : List ℕ) → IsRun window rounds board air moves w
        → IsAliveInAir w one → IsAliveInAir w other
        → to_hub one ≡ Some (Reply id words) → to_hub other ≡ Some (Reply id again) → words ≡ again }
    ensures fates { (window rounds : ℕ) (board : Board) (air : List Datagram) (moves : List WorldMove) (w : World)
        (tag other place : ℕ) (words again : List ℕ) → IsRun window rounds board air moves w
        → IsHandedOut w tag (Replied place words) → IsHandedOut w other (Replied place again) → words ≡ again }
    ensures lates { (window rounds : ℕ) (board : Board) (air : List Datagram) (moves : List WorldMove) (w : World)
        (place : ℕ) (words again : List ℕ) → IsRun window rounds board air moves w
        → IsLateAnswer w place words → IsLateAnswer w place again → words ≡ again }
{
    laws_below();
}

/// Whatever moves follow, a place keeps its body, what was executed stays executed, the air forgets nothing, and no
/// fate and no late answer ever changes.
pub fn what_was_is_kept()
    ensures places { (moves : List WorldMove) (old new : World) → Leads moves old new
        → IsPrefix {T = Offered} old.hub.sent new.hub.sent }
    ensures executed { (moves : List WorldMove) (old new : World) → Leads moves old new
        → IsPrefix {T = LogEntry} old.board.log new.board.log }
    ensures air { (moves : List WorldMove) (old new : World) → Leads moves old new
        → IsPrefix {T = Datagram} old.air new.air }
    ensures fates { (moves : List WorldMove) (old new : World) → Leads moves old new
        → IsPrefix old.fates new.fates }
    ensures lates { (moves : List WorldMove) (old new : World) → Leads moves old new
        → IsPrefix old.lates new.lates }
{
    laws_below();
}

/// From the lowest open place to the last first send there are never more places than the window.
pub fn the_window_is_never_passed()
    ensures { (window rounds : ℕ) (board : Board) (air : List Datagram) (moves : List WorldMove) (w : World)
        → IsRun window rounds board air moves w → length w.hub.sent < low w.hub + min window board.buffers }
{
    laws_below();
}

/// After every move the hub has sent all that it may send.
pub fn all_sends_are_out()
    ensures { (window rounds : ℕ) (board : Board) (air : List Datagram) (moves : List WorldMove) (w : World)
        → IsRun window rounds board air moves w → next_send w.hub ≡ None }
{
    laws_below();
}
