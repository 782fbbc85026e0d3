//! A lane at its end.

ghost use Rattle.std.specs.Prelude.{◌≡◌};
ghost use Rattle.world_model.specs.Settings.{Limits};
ghost use Rattle.board_specs.specs.declared.spec.BoardSpec.{BoardSpec};
ghost use Rattle.board_greeting.specs.Boards.{IsEndedLane, IsLaneTo};
ghost use Rattle.board_greeting.specs.Reports.{shown_by};

use crate::sound_lanes::a_lane_is_a_sound_one;
use hub_lane::Lane;
use links::Link;

/// Ends a lane: its link. What the lane kept, and what the link shows, is all that the history of its board rests on.
pub fn close_lane<L: Link>(lane: Lane<L>) -> L
    ensures link { result ≡ lane.link }
    ensures number { L.number result ≡ lane.number }
    ensures ended { (settings : Limits) (spec : BoardSpec) → IsLaneTo settings spec (L.telling lane.link) lane
        → IsEndedLane settings spec lane (shown_by L.Link result) }
{
    a_lane_is_a_sound_one();
    lane.is_sound();
    lane.has_paid();
    lane.has_heard();
    lane.has_listened();
    lane.has_run();
    lane.close()
}
