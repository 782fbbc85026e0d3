//! What follows from what a run shows of its boards and their links. These functions do nothing when they run: their
//! clauses are what is proved.

ghost use Rattle.std.specs.Prelude.{◌≡◌, ℕ, ◌≤◌, List, Some, map};
ghost use Rattle.std.specs.List.{AllByRecursion, AllZip, count_by};
ghost use Rattle.board_specs.specs.declared.spec.BoardSpec.{BoardSpec};
ghost use Rattle.world_model.specs.Board.{Board};
ghost use Rattle.world_model.specs.Settings.{Limits};
ghost use Rattle.board_specs.specs.OpeningWords.{OpensOnWords};
ghost use Rattle.script_steps.specs.Executable.{AreExecutable};
ghost use Rattle.script_steps.specs.declared.operation.Step.{Step};
ghost use Rattle.lane_record.specs.Outcomes.{is_timed_out};
ghost use Rattle.script_plans.specs.declared.greeting.Greeting.TheVariants.{Live};
ghost use Rattle.script_plans.specs.declared.board_run.BoardRun.{BoardRun};
ghost use Rattle.transcript.specs.Lines.{board_line, run_status, transcript_of};
ghost use Rattle.script_plans.specs.Runs.{outcomes_on, HaveOwnNames};
ghost use Rattle.transcript.specs.Shown.{ShowsAllPlaces};
ghost use Rattle.board_history.specs.History.{ShowsHistory, bodies_by_client, dispatches_by_client, outcomes_by_client};
ghost use Rattle.board_history.specs.InTurn.{IsUsedByOne};
ghost use Rattle.board_history.specs.Parts.{AllReplied};
ghost use Rattle.board_history.specs.GiveUps.{time_outs};
ghost use Rattle.board_history.specs.Runs.{board_run, opens_with, runs_from};
ghost use Rattle.board_history.specs.Lines.{IsBusLine};
ghost use Rattle.board_history.specs.Answering.{AskRequests, OpensWithWords};
ghost use Rattle.board_history.specs.Links.{CanBeMade, IsFaithful, LinkReport, board_there};
ghost use Rattle.board_history.specs.LinkRuns.{AllExecutedSome, AreRunsOver, AreWholeRuns, IsRunOver, IsUngarbledWhereTold};
ghost use Rattle.board_history.specs.LinkRuns.{HaveOwnBoards, IsLineOfRounds, NoneGarbled, ShowAloneRuns};
ghost use Rattle.board_history.specs.LinkRuns.{ShowAloneRunsWhereTold, ShowsScripts};
ghost use Rattle.board_history.specs.LinkRuns.{RepliesCame, TimeOutsWaited};

use crate::laws::a_client_alone_is_in_turn;
use crate::place_laws::lines_show_all_places;
use crate::run_laws::a_session_has_one_run;
use board_bus::laws::{a_reply_answers_its_body, words_stay_words};
use mtu_packer::laws::{operations_of_words_are_packed, packed_bodies_spell_requests};
use reply_join::laws::{
    each_answer_is_that_of_its_request, each_request_has_one_answer, joining_is_a_function,
};
use script_plans::laws::{bodies_stand_dispatch_by_dispatch, each_body_of_a_plan_has_a_piece};
use transaction_codec::laws::one_list_for_words;
use transcript::laws::the_status_tells_whether_all_was_done;

/// Over a link that tells, what a run shows of a live board is one legal history of it.
pub fn a_live_board_shows_a_history()
    ensures { (settings : Limits) (spec : BoardSpec) (board : ℕ) (scripts : List (List Step)) (run : BoardRun)
        (link : LinkReport) (there : Board) (payload : ℕ) → IsRunOver settings spec board scripts run link →
        run.greeting ≡ Live payload → board_there link.telling ≡ Some there → ShowsHistory (opens_with spec.link) run }
{}

/// Over a link that tells no reply is garbled, in time or late: each answers all transactions of its body. The board
/// opens with words of 32 bits, and the bodies are those of requests.
pub fn no_reply_is_garbled()
    ensures { (settings : Limits) (spec : BoardSpec) (board : ℕ) (scripts : List (List Step)) (run : BoardRun)
        (link : LinkReport) (there : Board) → IsRunOver settings spec board scripts run link →
        board_there link.telling ≡ Some there → OpensWithWords spec → AskRequests run → NoneGarbled run }
{
    a_reply_answers_its_body();
    words_stay_words();
    joining_is_a_function();
}

/// The lines of a session show of each board the places 1, 2, .. up to the number of first sends that its line tells,
/// each in some line, and no other place. A board that is silent or down shows none.
pub fn lines_show_the_order_of_each_board()
    ensures { (settings : Limits) (specs : List BoardSpec) (scripts : List (List Step)) (runs : List BoardRun)
        (links : List LinkReport) → AreRunsOver settings 0 specs scripts runs links → HaveOwnNames runs →
        ShowsAllPlaces (transcript_of scripts runs) }
{
    lines_show_all_places();
}

/// The timeouts that bound the patience of a board are those that its line counts.
pub fn a_board_line_counts_the_time_outs()
    ensures { (spec : BoardSpec) (board : ℕ) (scripts : List (List Step)) (run : BoardRun) →
        ShowsScripts spec board scripts run →
        time_outs (dispatches_by_client run) ≡ count_by is_timed_out (outcomes_on run) }
{
    bodies_stand_dispatch_by_dispatch();
}

/// So the timeouts in the lines of boards took the rounds of the session, each with a quiet receive, and where the link
/// tells in each of these rounds a datagram was lost, delayed or dropped.
pub fn board_lines_waited_for_their_time_outs()
    ensures { (settings : Limits) (board : ℕ) (specs : List BoardSpec) (scripts : List (List Step))
        (runs : List BoardRun) (links : List LinkReport) → AreRunsOver settings board specs scripts runs links →
        AllZip (TimeOutsWaited settings) (map board_line runs) links }
{
    a_board_line_counts_the_time_outs();
}

/// For each reply that the line of a board counts its link handed out a datagram, and one that answered the greeting,
/// whether the link tells or not.
pub fn board_lines_count_replies_that_came()
    ensures { (settings : Limits) (board : ℕ) (specs : List BoardSpec) (scripts : List (List Step))
        (runs : List BoardRun) (links : List LinkReport) → AreRunsOver settings board specs scripts runs links →
        AllZip RepliesCame (map board_line runs) links }
{}

/// What each board executed is a merge of bodies that the scripts ask of it, each client's in its order.
pub fn each_board_executes_a_merge()
    ensures { (settings : Limits) (board : ℕ) (specs : List BoardSpec) (scripts : List (List Step))
        (runs : List BoardRun) (links : List LinkReport) → AreRunsOver settings board specs scripts runs links →
        AllExecutedSome board specs scripts links }
{}

/// Where every link tells, nothing was held and nothing failed, every body is replied to, what a run shows is one
/// history, and each board executed all bodies of all clients, each client's in its order.
pub fn faithful_links_answer_all()
    ensures { (settings : Limits) (board : ℕ) (specs : List BoardSpec) (scripts : List (List Step))
        (runs : List BoardRun) (links : List LinkReport) → 1 ≤ settings.rounds → AllByRecursion IsFaithful links →
        AreRunsOver settings board specs scripts runs links → AreWholeRuns specs runs links }
{
    bodies_stand_dispatch_by_dispatch();
}

/// So what is shown of a board that one client uses alone is determined, whatever other clients do on other boards.
pub fn a_client_alone_has_one_run()
    ensures { (settings : Limits) (board : ℕ) (specs : List BoardSpec) (scripts : List (List Step))
        (runs : List BoardRun) (links : List LinkReport) → 1 ≤ settings.rounds → AllByRecursion IsFaithful links →
        AreRunsOver settings board specs scripts runs links → ShowAloneRuns board specs scripts runs }
{
    bodies_stand_dispatch_by_dispatch();
    a_client_alone_is_in_turn();
    a_session_has_one_run();
}

/// Where moreover no two clients use one board, all runs are determined: they are those of clients one after another,
/// on boards of this process.
pub fn clients_with_boards_of_their_own_have_one_run()
    ensures { (settings : Limits) (board : ℕ) (specs : List BoardSpec) (scripts : List (List Step))
        (runs : List BoardRun) (links : List LinkReport) → 1 ≤ settings.rounds → AllByRecursion IsFaithful links →
        AreRunsOver settings board specs scripts runs links → HaveOwnBoards board specs scripts →
        runs ≡ runs_from board specs scripts }
{
    faithful_links_answer_all();
    a_client_alone_has_one_run();
}

/// What is shown of a live board that one client uses alone is determined also where its link lost, repeated, delayed
/// or reordered datagrams, if it tells and each body of that client was replied to.
pub fn a_client_alone_whose_bodies_were_replied_to_has_one_run()
    ensures { (settings : Limits) (spec : BoardSpec) (board : ℕ) (scripts : List (List Step)) (run : BoardRun)
        (link : LinkReport) (there : Board) (payload : ℕ) → IsRunOver settings spec board scripts run link →
        run.greeting ≡ Live payload → board_there link.telling ≡ Some there → IsUsedByOne (bodies_by_client run) →
        AllReplied (outcomes_by_client run) → run ≡ board_run spec board scripts }
{
    a_client_alone_is_in_turn();
    a_session_has_one_run();
}

/// Where every line of a session is a value, `done` or `was`, each body of each client was replied to, whatever the
/// links lost, repeated, delayed or reordered.
pub fn where_all_was_done_each_body_was_replied_to()
    ensures { (settings : Limits) (specs : List BoardSpec) (scripts : List (List Step)) (runs : List BoardRun)
        (links : List LinkReport) → AreRunsOver settings 0 specs scripts runs links →
        run_status (transcript_of scripts runs).clients ≡ 0 →
        AllByRecursion (λ run. AllReplied (outcomes_by_client run)) runs }
{
    the_status_tells_whether_all_was_done();
    each_body_of_a_plan_has_a_piece();
}

/// So what is shown of a live board that one client uses alone, over a link that tells, is determined then.
pub fn where_all_was_done_a_client_alone_has_one_run()
    ensures { (settings : Limits) (specs : List BoardSpec) (scripts : List (List Step)) (runs : List BoardRun)
        (links : List LinkReport) → AreRunsOver settings 0 specs scripts runs links →
        run_status (transcript_of scripts runs).clients ≡ 0 → ShowAloneRunsWhereTold 0 specs scripts runs links }
{
    where_all_was_done_each_body_was_replied_to();
    a_client_alone_whose_bodies_were_replied_to_has_one_run();
}

/// No line of an operation on a board whose link tells is garbled, nor is the late answer that it shows, whatever the
/// links lose, repeat, delay or reorder, and where they fail. The simulated boards run here and open with words of 32
/// bits, the boards have names of their own, and the scripts can be executed, as it is of every session that can be run.
pub fn no_line_is_garbled()
    ensures { (settings : Limits) (specs : List BoardSpec) (scripts : List (List Step)) (runs : List BoardRun)
        (links : List LinkReport) → AreRunsOver settings 0 specs scripts runs links → HaveOwnNames runs →
        AllByRecursion (λ spec. CanBeMade spec.link) specs → AllByRecursion OpensOnWords specs →
        AllByRecursion AreExecutable scripts →
        AllByRecursion (AllByRecursion (IsUngarbledWhereTold runs links)) (transcript_of scripts runs).clients }
{
    bodies_stand_dispatch_by_dispatch();
    a_reply_answers_its_body();
    words_stay_words();
    joining_is_a_function();
    each_request_has_one_answer();
    each_answer_is_that_of_its_request();
    one_list_for_words();
    packed_bodies_spell_requests();
    operations_of_words_are_packed();
}

/// A line of an operation that was timed out shows the rounds of the session, whether it was answered late or not, and
/// whether the link tells or not.
pub fn lines_show_the_rounds_of_the_session()
    ensures { (settings : Limits) (specs : List BoardSpec) (scripts : List (List Step)) (runs : List BoardRun)
        (links : List LinkReport) → AreRunsOver settings 0 specs scripts runs links →
        AllByRecursion AreExecutable scripts →
        AllByRecursion (AllByRecursion (IsLineOfRounds settings.rounds)) (transcript_of scripts runs).clients }
{}

/// Where moreover nothing was held and nothing failed, each line is a value, `done`, `was`, a code of the bus or
/// skipped, or its operation is denied: none is garbled, timed out, unsent or lost with its link, in whatever order the
/// clients ran.
pub fn faithful_lines_fail_by_codes_of_the_bus_alone()
    ensures { (settings : Limits) (specs : List BoardSpec) (scripts : List (List Step)) (runs : List BoardRun)
        (links : List LinkReport) → 1 ≤ settings.rounds → AllByRecursion IsFaithful links →
        AreRunsOver settings 0 specs scripts runs links → AllByRecursion (λ spec. CanBeMade spec.link) specs →
        AllByRecursion OpensOnWords specs → AllByRecursion AreExecutable scripts →
        AllByRecursion (AllByRecursion IsBusLine) (transcript_of scripts runs).clients }
{
    bodies_stand_dispatch_by_dispatch();
    a_reply_answers_its_body();
    words_stay_words();
    joining_is_a_function();
    each_request_has_one_answer();
    each_answer_is_that_of_its_request();
    one_list_for_words();
    packed_bodies_spell_requests();
    operations_of_words_are_packed();
}
