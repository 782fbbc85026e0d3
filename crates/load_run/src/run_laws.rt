//! What follows for the run of a generated session. This function does nothing when it runs.

ghost use Rattle.load_run.specs.Loading.{LoadLaw};

use crate::laws::{
    a_generated_session_can_be_run, a_summary_tells_the_run_of_the_board,
    the_total_where_all_are_done,
};
use board_history::runs::{
    a_client_alone_has_one_run, board_lines_count_replies_that_came,
    board_lines_waited_for_their_time_outs, faithful_lines_fail_by_codes_of_the_bus_alone,
    faithful_links_answer_all, lines_show_the_order_of_each_board,
    lines_show_the_rounds_of_the_session, no_line_is_garbled,
};

/// What follows for the run of a generated session.
pub(crate) fn the_run_of_a_generated_session()
    ensures { LoadLaw }
{
    a_generated_session_can_be_run();
    a_summary_tells_the_run_of_the_board();
    the_total_where_all_are_done();
    lines_show_the_order_of_each_board();
    no_line_is_garbled();
    lines_show_the_rounds_of_the_session();
    board_lines_waited_for_their_time_outs();
    board_lines_count_replies_that_came();
    faithful_lines_fail_by_codes_of_the_bus_alone();
    faithful_links_answer_all();
    a_client_alone_has_one_run();
}
