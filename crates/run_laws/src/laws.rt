//! Laws of runs of steps. These functions do nothing when they run: their clauses are what is proved.

ghost use Rattle.std.specs.Prelude.{◌≡◌, ◌<◌, ◌≤◌, ◌^◌, ℕ, List, length};
ghost use Rattle.std.specs.List.{AllByRecursion};
ghost use Rattle.board_history.specs.Runs.{runs_from};
ghost use Rattle.board_history.specs.Links.{IsFaithful, LinkReport};
ghost use Rattle.board_history.specs.LinkRuns.{AreRunsOver, HaveOwnBoards};
ghost use Rattle.script_plans.specs.declared.board_run.BoardRun.{BoardRun};
ghost use Rattle.script_steps.specs.declared.operation.Step.{Step};
ghost use Rattle.script_steps.specs.Packing.{AreWithinLimits, CanBePacked, HaveFewPieces};
ghost use Rattle.script_lang.specs.declared.script_refusal.TheConstants.{MAX_LINES};
ghost use Rattle.script_lang.specs.declared.session.Session.{Session};
ghost use Rattle.session_input.specs.Deserved.{IsRunnable};
ghost use Rattle.run_laws.specs.Runs.{IsSessionRun};
ghost use Rattle.run_laws.specs.Steps.{CanRunSteps, MayRun};

use board_history::runs::{
    a_client_alone_has_one_run, board_lines_count_replies_that_came,
    board_lines_waited_for_their_time_outs, clients_with_boards_of_their_own_have_one_run,
    faithful_lines_fail_by_codes_of_the_bus_alone, faithful_links_answer_all,
    lines_show_the_order_of_each_board, lines_show_the_rounds_of_the_session, no_line_is_garbled,
    where_all_was_done_a_client_alone_has_one_run,
};
use script_lang::laws::{
    a_session_keeps_its_limits, the_boards_of_a_session_have_their_own_names,
    the_ranges_of_a_session_name_words,
};
use session_input::laws::{
    operations_are_on_the_boards_of_their_session, what_can_be_run_can_be_executed,
};
use transcript::laws::lines_tell_what_is_denied;

/// The steps of a document that can be run are steps that its boards can run.
pub fn a_document_can_run_its_steps()
    ensures { (bytes : List ℕ) (session : Session) (steps : List (List Step)) → IsRunnable bytes session steps
        → CanRunSteps session steps }
{
    operations_are_on_the_boards_of_their_session();
    what_can_be_run_can_be_executed();
}

/// Steps that the boards of a session can run may be run, where they are few and can be packed.
pub fn steps_that_fit_may_be_run()
    ensures { (session : Session) (steps : List (List Step)) → CanRunSteps session steps → length steps < 2 ^ 32
        → AllByRecursion (AllByRecursion CanBePacked) steps → AllByRecursion HaveFewPieces steps
        → AreWithinLimits steps → AllByRecursion (λ steps. length steps ≤ MAX_LINES) steps
        → MayRun session steps }
{
    the_ranges_of_a_session_name_words();
    a_session_keeps_its_limits();
}

/// A document has so few clients.
pub fn a_document_has_few_clients()
    ensures { (bytes : List ℕ) (session : Session) (steps : List (List Step)) → IsRunnable bytes session steps
        → length steps < 2 ^ 32 }
{
    a_session_keeps_its_limits();
}

/// Outcomes of steps over links that bear them out are a run of these steps, with all that its lines show.
pub fn runs_over_links_are_runs_of_a_session()
    ensures { (session : Session) (steps : List (List Step)) (runs : List BoardRun) (links : List LinkReport)
        → CanRunSteps session steps → AreRunsOver session.settings 0 session.boards steps runs links
        → IsSessionRun session steps runs links }
{
    lines_show_the_order_of_each_board();
    the_boards_of_a_session_have_their_own_names();
    no_line_is_garbled();
    lines_show_the_rounds_of_the_session();
    board_lines_waited_for_their_time_outs();
    board_lines_count_replies_that_came();
    faithful_lines_fail_by_codes_of_the_bus_alone();
    lines_tell_what_is_denied();
    the_ranges_of_a_session_name_words();
    a_session_keeps_its_limits();
    faithful_links_answer_all();
    a_client_alone_has_one_run();
    where_all_was_done_a_client_alone_has_one_run();
}

/// Over faithful links clients that have boards of their own have one run.
pub fn clients_with_boards_of_their_own_have_one_session_run()
    ensures { (session : Session) (steps : List (List Step)) (runs : List BoardRun) (links : List LinkReport)
        → CanRunSteps session steps → IsSessionRun session steps runs links → AllByRecursion IsFaithful links
        → HaveOwnBoards 0 session.boards steps → runs ≡ runs_from 0 session.boards steps }
{
    clients_with_boards_of_their_own_have_one_run();
    a_session_keeps_its_limits();
}
