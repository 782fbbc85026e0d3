//! The law from what a lane keeps to what the history of its board rests on. This function does nothing when it runs:
//! its clause is what is proved.

ghost use Rattle.std.specs.Prelude.{◌*◌, ℕ, Bool, List, Option, IfSome};
ghost use Rattle.ipb_base.specs.Numbers.{payload_of};
ghost use Rattle.board_bus.specs.Cells.{CellMap};
ghost use Rattle.world_model.specs.Hub.{Hub};
ghost use Rattle.world_model.specs.Settings.{Limits};
ghost use Rattle.reliable_engine.specs.MachineRuns.{RunEvent};
ghost use Rattle.lane_record.specs.declared.outcome.Outcome.{Outcome};
ghost use Rattle.lane_record.specs.declared.item.Item.{Item};
ghost use Rattle.lane_record.specs.Bounds.{HasReached};
ghost use Rattle.hub_lane.specs.Heard.{HasHeard, HasListened};
ghost use Rattle.hub_lane.specs.Lanes.{BoardStatus, IsLane};
ghost use Rattle.hub_lane.specs.Run.{HasRun};
ghost use Rattle.links.specs.Receives.{receives_in};
ghost use Rattle.board_history.specs.Lanes.{IsSoundLane};
ghost use Rattle.board_history.specs.Links.{LinkReport};
ghost use Rattle.board_greeting.specs.Reports.{OpenedWith};

use hub_lane::laws::{a_lane_over_a_link_that_tells_is_true, a_timed_out_body_has_its_late_answer};

/// A lane whose give-ups are paid and whose replies came in datagrams, over a link to a board that opened with this
/// bus, keeps all that the history of the board rests on: `Lane::is_sound`, `Lane::has_paid`, `Lane::has_heard`,
/// `Lane::has_listened` and `Lane::has_run` tell the first five premises.
pub fn a_lane_is_a_sound_one()
    ensures { (settings : Limits) (status : BoardStatus) (hub : Hub) (items : List Item)
        (outcomes : List (Option Outcome)) (lates : List (Option (List ℕ))) (give_ups : ℕ) (down spent : Bool)
        (run : List RunEvent) (link : LinkReport) (opening : CellMap)
        → IsLane settings status hub items outcomes lates give_ups down spent link.telling link.faults link.quiets
        → IfSome link.telling (λ _. HasReached (settings.rounds * give_ups) link.held)
        → HasHeard outcomes link.gots
        → HasListened status hub outcomes lates give_ups (receives_in link.traffic)
        → HasRun settings status hub items outcomes lates down spent run link.traffic
        → IfSome link.telling (OpenedWith opening)
        → IsSoundLane settings opening (payload_of status.mtu) link items outcomes lates give_ups }
{
    a_lane_over_a_link_that_tells_is_true();
    a_timed_out_body_has_its_late_answer();
}
