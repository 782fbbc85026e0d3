//! Laws of the crates below, put together. This function does nothing when it runs.

ghost use Rattle.serve_command.specs.Below.{ServeLaws};

use crate::summary_laws::{
    board_lines_tell_the_numbers_of_answers, code_0_answers_what_the_link_brought,
    code_0_answers_what_was_executed, code_3_answers_where_the_link_failed,
    codes_1_and_2_answer_after_the_rounds, codes_for_which_the_hub_is_not_asked,
    codes_tell_of_places, each_frame_has_a_place_of_its_own,
    no_frame_is_given_up_or_lost_over_a_faithful_link, the_rules_of_planning_decide_of_codes,
};
use client_history::boards::{
    a_board_line_counts_the_bodies_of_its_connections,
    a_board_that_tells_executed_what_was_replied, a_board_waited_for_what_was_given_up,
    a_faithful_link_serves_all, a_served_board_loses_bodies_only_with_its_link,
    replies_of_a_served_board_came_over_its_link,
};
use script_lang::laws::a_session_keeps_its_limits;

/// What follows for the boards of a session that were served.
pub(crate) fn serve_laws()
    ensures { ServeLaws }
{
    a_board_that_tells_executed_what_was_replied();
    a_board_line_counts_the_bodies_of_its_connections();
    a_board_waited_for_what_was_given_up();
    replies_of_a_served_board_came_over_its_link();
    a_served_board_loses_bodies_only_with_its_link();
    a_faithful_link_serves_all();
    board_lines_tell_the_numbers_of_answers();
    each_frame_has_a_place_of_its_own();
    codes_tell_of_places();
    code_0_answers_what_was_executed();
    code_0_answers_what_the_link_brought();
    codes_1_and_2_answer_after_the_rounds();
    code_3_answers_where_the_link_failed();
    no_frame_is_given_up_or_lost_over_a_faithful_link();
    codes_for_which_the_hub_is_not_asked();
    the_rules_of_planning_decide_of_codes();
    a_session_keeps_its_limits();
}
