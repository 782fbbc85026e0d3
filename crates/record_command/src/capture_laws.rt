//! Laws of captures. These functions do nothing when they run: their clauses are what is proved.

ghost use Rattle.std.specs.Prelude.{◌≡◌, ◌≤◌, ℕ, Bool, List, Option, length, Ok};
ghost use Rattle.std.specs.List.{AllByRecursion};
ghost use Rattle.ipb_base.specs.Lists.{IsPrefix};
ghost use Rattle.world_model.specs.declared.datagram.Datagram.{Datagram};
ghost use Rattle.world_model.specs.declared.moves.WorldMove.{WorldMove};
ghost use Rattle.world_model.specs.declared.offered.Fate.TheVariants.{Replied};
ghost use Rattle.world_model.specs.Board.{Board, bodies_executed};
ghost use Rattle.world_model.specs.Hub.{Hub};
ghost use Rattle.world_model.specs.Settings.{Limits};
ghost use Rattle.world_model.specs.World.{World, run_moves, start};
ghost use Rattle.world_model.specs.Facts.{IsStart, bodies_of};
ghost use Rattle.world_model.specs.History.{IsHandedOut, IsMove};
ghost use Rattle.links.specs.Telling.{Telling};
ghost use Rattle.lane_record.specs.declared.outcome.Outcome.{Outcome};
ghost use Rattle.hub_lane.specs.Standing.{IsStanding};
ghost use Rattle.capture_reader.specs.declared.capture.Caught.{Caught};
ghost use Rattle.capture_reader.specs.CaptureText.{AreItems};
ghost use Rattle.capture_reader.specs.Proved.{IsProved};
ghost use Rattle.record_command.specs.Traffic.{IsTrafficOf};
ghost use Rattle.record_command.specs.Captures.{bodies_in, capture_of};

use crate::below::laws_below;
use world_model::laws::links::{
    a_greeting_joins, a_link_forgets_nothing, each_event_keeps_them_joined,
};
use world_model::laws::reading::what_a_hub_reads;

/// In any run, whatever the moves: the packets that the capture of the hub shows as sent for the first time are those of
/// the hub, in order; it proves each place whose fate is Replied; and it proves no place that was not executed.
pub fn a_capture_proves_what_was_executed()
    ensures sent { (window rounds : ℕ) (board : Board) (air : List Datagram) (moves : List WorldMove) (w : World)
        → IsStart window board air → AllByRecursion IsMove moves
        → run_moves 0 (start window rounds board air) moves ≡ Ok w
        → bodies_in (capture_of (start window rounds board air) moves) ≡ bodies_of w.hub.sent }
    ensures replied { (window rounds : ℕ) (board : Board) (air : List Datagram) (moves : List WorldMove) (w : World)
        (proved tag place : ℕ) (words : List ℕ) → IsStart window board air → AllByRecursion IsMove moves
        → run_moves 0 (start window rounds board air) moves ≡ Ok w
        → IsProved (capture_of (start window rounds board air) moves) proved
        → IsHandedOut w tag (Replied place words) → place ≤ proved }
    ensures executed { (window rounds : ℕ) (board : Board) (air : List Datagram) (moves : List WorldMove) (w : World)
        (proved : ℕ) → IsStart window board air → AllByRecursion IsMove moves
        → run_moves 0 (start window rounds board air) moves ≡ Ok w
        → IsProved (capture_of (start window rounds board air) moves) proved
        → proved ≤ length (bodies_executed w.board) }
{
    laws_below();
    a_greeting_joins();
    each_event_keeps_them_joined();
    a_link_forgets_nothing();
    what_a_hub_reads();
}

/// A capture of a lane over a tap of a link that tells proves what its board executed, at the exit of every call, also
/// where the lane has stopped: what the capture shows as sent for the first time is a front of the bodies that the hub
/// has sent, in order, and the board executed a front of that, of as many bodies as are proved at least.
pub fn a_capture_of_a_lane_proves_what_was_executed()
    ensures sent { (stopped : Bool) (limits : Limits) (hub : Hub) (outcomes : List (Option Outcome))
        (lates : List (Option (List ℕ))) (t : Telling) (items : List Caught)
        → IsStanding stopped limits hub outcomes lates t → IsTrafficOf t items
        → IsPrefix (bodies_in (record { first = t.told.board.first; items = items })) (bodies_of hub.sent) }
    ensures executed { (stopped : Bool) (limits : Limits) (hub : Hub) (outcomes : List (Option Outcome))
        (lates : List (Option (List ℕ))) (t : Telling) (items : List Caught)
        → IsStanding stopped limits hub outcomes lates t → IsTrafficOf t items
        → IsPrefix (bodies_executed t.told.board) (bodies_in (record { first = t.told.board.first; items = items })) }
    ensures proved { (stopped : Bool) (limits : Limits) (hub : Hub) (outcomes : List (Option Outcome))
        (lates : List (Option (List ℕ))) (t : Telling) (items : List Caught) (proved : ℕ)
        → IsStanding stopped limits hub outcomes lates t → IsTrafficOf t items
        → AreItems items → IsProved (record { first = t.told.board.first; items = items }) proved
        → proved ≤ length (bodies_executed t.told.board) }
{
    laws_below();
    a_greeting_joins();
    each_event_keeps_them_joined();
    a_link_forgets_nothing();
    what_a_hub_reads();
}
