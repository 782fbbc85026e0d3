//! Laws of lanes. These functions do nothing when they run: their clauses are what is proved.

ghost use Rattle.std.specs.Prelude.{◌≡◌, ◌⊎◌, ◌≤◌, ℕ, Bool, true, false, List, Option, Some};
ghost use Rattle.ipb_base.specs.Faults.{Rose};
ghost use Rattle.hub_lane.specs.Records.{record_shown};
ghost use Rattle.world_model.specs.Hub.{Hub};
ghost use Rattle.world_model.specs.Facts.{bodies_of};
ghost use Rattle.world_model.specs.Settings.{Limits};
ghost use Rattle.links.specs.Telling.{Telling};
ghost use Rattle.lane_record.specs.declared.outcome.Outcome.{Outcome};
ghost use Rattle.lane_record.specs.Outcomes.{AreSettled};
ghost use Rattle.hub_lane.specs.declared.greeting.TheConstants.{MOST_OTHERS};
ghost use Rattle.ipb_base.specs.Numbers.{most_others};
ghost use Rattle.hub_lane.specs.Heard.{HasListened};
ghost use Rattle.hub_lane.specs.declared.answers.Pumped.TheVariants as came_to;
ghost use Rattle.hub_lane.specs.Rounds.{AreCalls, IsCall, LaneCall, Pumps, RoundState, SettlesOne};
ghost use Rattle.hub_lane.specs.Standing.{IsStanding};
ghost use Rattle.hub_lane.specs.Truth.{HasEachLate, IsTrueTo, IsWhole};
ghost use Rattle.hub_lane.specs.Lanes.{BoardStatus, IsLane, opening_of};
ghost use Rattle.lane_record.specs.Claims.{IsFinished};
ghost use Rattle.lane_record.specs.declared.item.Item.{Item};

pub mod recovery;

use crate::greeting::MOST_OTHERS;
use lane_record::laws::coding::{a_head_is_spelled_by_numbers, an_entry_is_spelled_by_numbers};
use lane_record::laws::finished::{
    a_finished_record_tells_all, a_hub_has_sent_what_a_finished_record_tells,
};
use links::laws::a_state_of_a_run_tells_the_truth;
use world_model::laws::answered::each_sent_place_is_open_or_answered;

/// The limit of what a round of the greeting hears.
pub fn the_limit_of_a_greeting()
    ensures { MOST_OTHERS ≡ most_others }
{}

/// Over a link that tells a lane is true at the exit of every call, also where it is down or spent: the board executed
/// a front of the bodies that were sent first, in order; each reply that a client got or will get is the board's at its
/// place, and so is what came late.
pub fn a_lane_over_a_link_that_tells_is_true()
    ensures { (stopped : Bool) (limits : Limits) (hub : Hub) (outcomes : List (Option Outcome))
        (lates : List (Option (List ℕ))) (t : Telling) → IsStanding stopped limits hub outcomes lates t
        → IsTrueTo t (bodies_of hub.sent) outcomes lates }
{
    a_state_of_a_run_tells_the_truth();
}

/// Over a link that tells, a lane keeps each late answer: where a body was timed out and the link handed a reply of its
/// place out, that came late. Only where memory runs out in hearing that reply it is lost; but then a body waits for
/// good, and the lane never pumps again.
pub fn a_timed_out_body_has_its_late_answer()
    ensures { (settings : Limits) (status : BoardStatus) (hub : Hub) (items : List Item)
        (outcomes : List (Option Outcome)) (lates : List (Option (List ℕ))) (give_ups : ℕ) (down spent : Bool)
        (t : Telling) (faults quiets : ℕ)
        → IsLane settings status hub items outcomes lates give_ups down spent (Some t) faults quiets
        → (spent ≡ false) ⊎ AreSettled outcomes → HasEachLate t outcomes lates }
{
    a_state_of_a_run_tells_the_truth();
    each_sent_place_is_open_or_answered();
}

/// Where each asked body of a lane was taken, the record alone tells the bodies that were sent, by place, and what
/// became of each; and what holds of the lane is said of this record.
pub fn a_finished_lane_is_whole()
    ensures { (settings : Limits) (status : BoardStatus) (hub : Hub) (items : List Item)
        (outcomes : List (Option Outcome)) (lates : List (Option (List ℕ))) (give_ups : ℕ) (down spent : Bool)
        (telling : Option Telling) (faults quiets : ℕ) (receives : List (Option (List ℕ))) → IsFinished items
        → IsLane settings status hub items outcomes lates give_ups down spent telling faults quiets
        → HasListened status hub outcomes lates give_ups receives
        → IsWhole items lates hub.sent hub.window hub.rounds give_ups faults quiets status receives telling }
{
    a_finished_record_tells_all();
    a_hub_has_sent_what_a_finished_record_tells();
    a_lane_over_a_link_that_tells_is_true();
    a_timed_out_body_has_its_late_answer();
}

/// The record of a lane, as whoever hands lanes on sees it, tells the settings, the status that the board told, the bus
/// with which the board of a link that tells opened, the entries, and the number of the link: lanes with the same record
/// have all these alike.
pub fn a_record_tells_its_lane()
    ensures { (number other_number : ℕ) (settings other_settings : Limits) (status other_status : BoardStatus)
        (telling other_telling : Option Telling) (items other_items : List Item)
        → record_shown number settings status telling items
        ≡ record_shown other_number other_settings other_status other_telling other_items
        → (settings ≡ other_settings) × (status ≡ other_status) × (opening_of telling ≡ opening_of other_telling)
        × (items ≡ other_items) × (number ≡ other_number) }
{
    a_head_is_spelled_by_numbers();
    an_entry_is_spelled_by_numbers();
}

/// In a lane that stays up, over a link that tells: from where the recovery wants a status request until a receive is
/// quiet, some place is settled or datagrams are held, whatever is asked, sent and pumped meanwhile.
pub fn a_round_settles_a_place_unless_datagrams_are_held()
    ensures { (begun last after : RoundState) (calls : List (LaneCall × RoundState)) → 1 ≤ begun.hub.status_requests
        → begun.hub.status_wanted ≡ true → AreCalls begun calls last → IsCall (Pumps came_to.Quiet) last after
        → SettlesOne calls ⊎ Rose begun.held after.held }
{}
