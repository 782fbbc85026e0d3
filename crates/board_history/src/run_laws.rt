//! Laws of runs whose clients come one after another. These functions do nothing when they run: their clauses are what
//! is proved.

ghost use Rattle.std.specs.Prelude.{◌≡◌, ℕ, List};
ghost use Rattle.std.specs.List.{AllByRecursion, flat_map};
ghost use Rattle.board_specs.specs.declared.spec.BoardSpec.{BoardSpec};
ghost use Rattle.script_steps.specs.declared.operation.Step.{Step};
ghost use Rattle.board_specs.specs.OpeningWords.{OpensOnWords};
ghost use Rattle.script_steps.specs.Executable.{AreExecutable};
ghost use Rattle.script_plans.specs.declared.board_run.BoardRun.{BoardRun};
ghost use Rattle.board_history.specs.Order.{bodies_in, order};
ghost use Rattle.board_history.specs.History.{bodies_by_client, outcomes_by_client};
ghost use Rattle.board_history.specs.Runs.{AreRuns, CanRun, IsRun, board_run, runs_from};
ghost use Rattle.board_history.specs.Answering.{AreAnswered, AskRequests, OpensWithWords};
ghost use Rattle.board_history.specs.Shape.{HaveFates};
ghost use Rattle.transcript.specs.Lines.{transcript_of};
ghost use Rattle.board_history.specs.Lines.{IsBusLine};
ghost use Rattle.script_lang.specs.OwnNames.{HaveOwnNames};
ghost use Rattle.transcript.specs.Shown.{ShowsAllPlaces};

use crate::laws::{a_history_of_clients_in_turn_is_the_only_one, clients_in_turn_make_a_history};
use crate::place_laws::lines_show_all_places;
use board_bus::laws::{a_reply_answers_its_body, words_stay_words};
use mtu_packer::laws::{operations_of_words_are_packed, packed_bodies_spell_requests};
use reply_join::laws::{
    each_answer_is_that_of_its_request, each_request_has_one_answer, joining_is_a_function,
};
use script_plans::laws::bodies_stand_dispatch_by_dispatch;
use transaction_codec::laws::one_list_for_words;

/// What becomes of a board is a run of it: each client asked for the bodies of its script, the outcomes are one history
/// of the board, each body was replied to, and the clients stand one after another. So it is for each board of a
/// session.
pub fn clients_in_turn_are_a_run()
    ensures one { (spec : BoardSpec) (board : ℕ) (scripts : List (List Step)) →
        IsRun spec board scripts (board_run spec board scripts) }
    ensures all { (specs : List BoardSpec) (scripts : List (List Step)) →
        AreRuns 0 specs scripts (runs_from 0 specs scripts) }
{
    clients_in_turn_make_a_history();
}

/// A board has one such run, and a session one list of runs: so what it prints is determined.
pub fn a_session_has_one_run()
    ensures one { (spec : BoardSpec) (board : ℕ) (scripts : List (List Step)) (run : BoardRun) →
        IsRun spec board scripts run → run ≡ board_run spec board scripts }
    ensures all { (specs : List BoardSpec) (scripts : List (List Step)) (runs : List BoardRun) →
        AreRuns 0 specs scripts runs → runs ≡ runs_from 0 specs scripts }
{
    a_history_of_clients_in_turn_is_the_only_one();
}

/// The order of a board in a run is the bodies of client 1, then those of client 2, and so on.
pub fn the_order_is_client_by_client()
    ensures { (spec : BoardSpec) (board : ℕ) (scripts : List (List Step)) (run : BoardRun) →
        IsRun spec board scripts run → bodies_in (order (bodies_by_client run) (outcomes_by_client run))
        ≡ flat_map (λ client. client) (bodies_by_client run) }
{
    a_history_of_clients_in_turn_is_the_only_one();
    clients_in_turn_make_a_history();
}

/// Where nothing is lost, the board told the answer to each transaction: no body is garbled, timed out, unsent or lost.
/// So what fails of its transactions failed by a code of the bus, or stands behind one that did.
pub fn each_body_is_answered()
    ensures { (spec : BoardSpec) (board : ℕ) (scripts : List (List Step)) (run : BoardRun) →
        IsRun spec board scripts run → OpensWithWords spec → AskRequests run →
        AllByRecursion AreAnswered run.parts }
{
    a_history_of_clients_in_turn_is_the_only_one();
    a_reply_answers_its_body();
    words_stay_words();
    joining_is_a_function();
}

/// The runs of a session show what became of its boards, outcome by outcome in the shape of the plan: for each board
/// and client each dispatch has one outcome for each of its bodies. So their transcript is that of a session.
pub fn runs_have_the_shape_of_the_plan()
    ensures { (specs : List BoardSpec) (scripts : List (List Step)) (runs : List BoardRun) →
        AreRuns 0 specs scripts runs → HaveFates 0 scripts runs }
{
    bodies_stand_dispatch_by_dispatch();
}

/// Where nothing is lost, each line of a session is a value, `done`, `was`, a code of the bus or skipped, or its
/// operation is denied: none is garbled, timed out, unsent or lost with its link. So what was asked of the boards fails
/// by codes of the bus alone, and status 1 comes from these and from denials. The boards run here and name words of 32
/// bits, and the scripts can be executed, as it is of every session that can be run.
pub fn lines_fail_by_codes_of_the_bus_alone()
    ensures { (specs : List BoardSpec) (scripts : List (List Step)) (runs : List BoardRun) →
        AreRuns 0 specs scripts runs → AllByRecursion CanRun specs → AllByRecursion OpensOnWords specs →
        AllByRecursion AreExecutable scripts →
        AllByRecursion (AllByRecursion IsBusLine) (transcript_of scripts runs).clients }
{
    a_history_of_clients_in_turn_is_the_only_one();
    a_reply_answers_its_body();
    words_stay_words();
    joining_is_a_function();
    each_request_has_one_answer();
    each_answer_is_that_of_its_request();
    one_list_for_words();
    packed_bodies_spell_requests();
    operations_of_words_are_packed();
}

/// The lines of a session show of each board the places 1, 2, .. up to the number in the line of the board, each place
/// in some line, and no other place. Boards have names of their own, since a line tells its board by its name.
pub fn a_session_shows_all_places()
    ensures { (specs : List BoardSpec) (scripts : List (List Step)) (runs : List BoardRun) →
        AreRuns 0 specs scripts runs → HaveOwnNames specs → ShowsAllPlaces (transcript_of scripts runs) }
{
    lines_show_all_places();
}
