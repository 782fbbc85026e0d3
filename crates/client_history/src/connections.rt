//! What the lane of a board tells once its connections were served. These functions do nothing when they run: their
//! clauses are what is proved.

ghost use Rattle.std.specs.Prelude.{◌≡◌, ℕ, ◌+◌, Bool, List, [], ◌++◌, length, map, count_by, Option, Some};
ghost use Rattle.std.specs.List.{slice_get, slice_set};
ghost use Rattle.ipb_base.specs.Lists.{IsPrefix};
ghost use Rattle.turn_pass.specs.Pass.{Knowledge};
ghost use Rattle.turn_pass.specs.Record.{Record};
ghost use Rattle.world_model.specs.Hub.{Hub};
ghost use Rattle.world_model.specs.Settings.{Limits};
ghost use Rattle.links.specs.Telling.{Telling};
ghost use Rattle.board_specs.specs.declared.spec.BoardSpec.{BoardSpec};
ghost use Rattle.lane_record.specs.declared.outcome.Outcome.{Outcome};
ghost use Rattle.lane_record.specs.declared.item.Item.{Item};
ghost use Rattle.lane_record.specs.Bounds.{timeouts};
ghost use Rattle.lane_record.specs.Items.{planned_count};
ghost use Rattle.lane_record.specs.Coding.{Head, record_of};
ghost use Rattle.lane_record.specs.Submissions.{Submission};
ghost use Rattle.hub_lane.specs.Calls.{is_lost_at_place, is_replied};
ghost use Rattle.hub_lane.specs.Lanes.{BoardStatus, IsLane};
ghost use Rattle.hub_multiplexer.specs.Ends.{Ends};
ghost use Rattle.script_plans.specs.declared.greeting.Greeting.TheVariants.{Live};
ghost use Rattle.transcript.specs.declared.line.BoardLine.TheVariants as board_lines;
ghost use Rattle.transcript.specs.Lines.{board_line};
ghost use Rattle.board_history.specs.Links.{IsBoardOf, LinkReport, board_there};
ghost use Rattle.board_history.specs.Lanes.{IsSoundLane};
ghost use Rattle.board_history.specs.Records.{IsRecordOf};
ghost use Rattle.board_history.specs.LinkRuns.{TellsPayload};
ghost use Rattle.board_history.specs.Runs.{opens_with};
ghost use Rattle.client_history.specs.Clients.{came_with};
ghost use Rattle.client_history.specs.Boards.{IsServedOver, run_of};
ghost use Rattle.client_history.specs.Connections.{WereServedOn, submitted_bodies, dispatches_of};
ghost use Rattle.client_history.specs.Planned.{IsAmongSubmitted, KeepLimits, WerePlannedLast};

use board_history::laws::the_first_sends_are_the_order;
use board_history::records::{
    a_clients_record_is_finished, a_finished_lane_is_live, a_record_counts_what_became_of_bodies,
    the_order_is_the_first_sends,
};
use lane_record::laws::finished::a_hub_has_sent_what_a_finished_record_tells;

/// Where a lane came to its hub without an entry, and the seat of each connection submitted its bodies one after the
/// other, whatever the schedule was, the lane comes back with the record of these connections, each body a dispatch of
/// its own.
pub fn connections_of_a_hub_leave_what_they_submitted()
    ensures { (connections : List (List Submission)) (head head_now : Head) (items : List Item) (after : Knowledge)
        (final : Record) → WereServedOn connections (came_with head []) after → Ends after final →
        final ≡ record_of head_now items →
        IsRecordOf (map submitted_bodies connections) (map dispatches_of connections) items }
{}

/// In the entries of such a lane at any time before, planning was not closed, and what is planned there is among what
/// the connections submitted in all.
pub fn connections_of_a_hub_plan_what_they_submit()
    ensures { (connections : List (List Submission)) (head head_now : Head) (items front : List Item)
        (after : Knowledge) (final : Record) → WereServedOn connections (came_with head []) after → Ends after final →
        final ≡ record_of head_now items → IsPrefix front items → IsAmongSubmitted connections front }
{}

/// A connection plans the bodies first that it submits first: while as many of its bodies are planned as it submitted
/// first, these are the ones.
pub fn a_connection_plans_its_first_bodies_first()
    ensures { (connections : List (List Submission)) (head head_now : Head) (items front : List Item)
        (after : Knowledge) (final : Record) → WereServedOn connections (came_with head []) after → Ends after final →
        final ≡ record_of head_now items → IsPrefix front items → (index : ℕ) (own later : List Submission) →
        slice_get connections index ≡ Some (own ++ later) → planned_count (1 + index) front ≡ length own →
        IsAmongSubmitted (slice_set connections index own) front }
{}

/// Where the last body of each connection was planned as it may be, the connections kept the limits of the lane.
pub fn connections_of_a_hub_keep_the_limits()
    ensures { (connections : List (List Submission)) (head head_now : Head) (items : List Item)
        (after : Knowledge) (final : Record) → WereServedOn connections (came_with head []) after → Ends after final →
        final ≡ record_of head_now items → WerePlannedLast 1 connections items → KeepLimits connections }
{}

/// A finished lane with such a record is a live board that was served: what its record and its link tell is what may be
/// shown.
pub fn a_finished_lane_was_served()
    ensures { (settings : Limits) (spec : BoardSpec) (link : LinkReport) (payload : ℕ)
        (connections : List (List Submission)) (items : List Item) (outcomes : List (Option Outcome))
        (lates : List (Option (List ℕ))) (give_ups : ℕ) →
        IsBoardOf spec.link (board_there link.telling) → TellsPayload spec.link payload →
        IsRecordOf (map submitted_bodies connections) (map dispatches_of connections) items →
        IsSoundLane settings (opens_with spec.link) payload link items outcomes lates give_ups →
        IsServedOver settings spec (record { told = Live payload; connections = connections }) link }
{
    a_finished_lane_is_live();
}

/// The numbers that such a lane tells are those of the line of its board: its first sends, and how many bodies were
/// replied to, timed out and lost with the link. `Lane::sent` and `Lane::counts` answer them.
pub fn a_finished_lane_tells_the_numbers_of_its_line()
    ensures { (settings : Limits) (status : BoardStatus) (hub : Hub) (items : List Item)
        (outcomes : List (Option Outcome)) (lates : List (Option (List ℕ))) (give_ups : ℕ) (down spent : Bool)
        (telling : Option Telling) (faults quiets : ℕ) (spec : BoardSpec) (payload : ℕ) (connections : List (List Submission)) →
        IsLane settings status hub items outcomes lates give_ups down spent telling faults quiets →
        IsRecordOf (map submitted_bodies connections) (map dispatches_of connections) items →
        board_line (run_of spec (record { told = Live payload; connections = connections })) ≡
        board_lines.Live spec.name (length hub.sent) (count_by is_replied outcomes) (timeouts outcomes)
        (count_by is_lost_at_place outcomes) }
{
    a_hub_has_sent_what_a_finished_record_tells();
    a_clients_record_is_finished();
    a_record_counts_what_became_of_bodies();
    the_first_sends_are_the_order();
    the_order_is_the_first_sends();
}
