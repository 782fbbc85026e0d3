ghost use Rattle.session_serve.specs.ReportLaws.{ReportLaws};

use board_history::records::a_board_executes_a_merge_at_any_moment;
use client_history::connections::{
    a_finished_lane_tells_the_numbers_of_its_line, a_finished_lane_was_served,
    connections_of_a_hub_leave_what_they_submitted,
};

/// What laws say of boards whose connections were served, for the proofs here. It does nothing when it runs.
pub(crate) fn laws_of_reports()
    ensures { ReportLaws }
{
    connections_of_a_hub_leave_what_they_submitted();
    a_finished_lane_was_served();
    a_finished_lane_tells_the_numbers_of_its_line();
    a_board_executes_a_merge_at_any_moment();
}
