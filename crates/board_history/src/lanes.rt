//! What a lane keeps over a link that tells. This function does nothing when it runs: its clause is what is proved.

ghost use Rattle.std.specs.Prelude.{◌≡◌, ℕ, ◌++◌, List, Option};
ghost use Rattle.world_model.specs.declared.datagram.Datagram.{Datagram};
ghost use Rattle.world_model.specs.Board.{Board, bodies_executed};
ghost use Rattle.world_model.specs.Facts.{IsStart};
ghost use Rattle.world_model.specs.Hub.{HandedOut, Hub};
ghost use Rattle.world_model.specs.Links.{Told};
ghost use Rattle.world_model.specs.World.{start};
ghost use Rattle.links.specs.States.{IsReached};
ghost use Rattle.lane_record.specs.declared.outcome.Outcome.{Outcome};
ghost use Rattle.lane_record.specs.Claims.{Claim};
ghost use Rattle.lane_record.specs.Lates.{AreLatesToldBy};
ghost use Rattle.lane_record.specs.Offers.{AreToldBy, offers_from};
ghost use Rattle.board_history.specs.Lanes.{IsTrueOf};

use links::laws::a_state_of_a_run_tells_the_truth;

/// Where a hub that was offered the bodies of the Asks, and its link, are a state of a run of the world, and the
/// outcomes and what came late were handed out in that run, the board executed a front of these bodies, and each reply,
/// in time or late, is that of the front.
pub fn a_state_of_a_run_is_true_of_its_lane()
    ensures { (window rounds : ℕ) (board : Board) (air : List Datagram) (out : HandedOut) (hub : Hub)
        (told : Told) (claims : List Claim) (outcomes : List (Option Outcome)) (lates : List (Option (List ℕ))) →
        IsStart window board air → IsReached (start window rounds board air) out hub told →
        hub.sent ++ hub.queue ≡ offers_from 0 claims outcomes → AreToldBy out.fates outcomes →
        AreLatesToldBy out.lates lates →
        IsTrueOf told.board.opening claims outcomes lates (bodies_executed told.board) }
{
    a_state_of_a_run_tells_the_truth();
}
