//! The law of a client alone whose operations were all done. These functions do nothing when they run: their clauses are
//! what is proved.

ghost use Rattle.std.specs.Prelude.{◌≡◌, ℕ, ◌∷◌, [], List, length, true, is_some};
ghost use Rattle.std.specs.List.{AllByRecursion};
ghost use Rattle.world_model.specs.Settings.{Limits};
ghost use Rattle.board_specs.specs.declared.spec.BoardSpec.{BoardSpec};
ghost use Rattle.board_specs.specs.OpeningWords.{OpensOnWords};
ghost use Rattle.script_steps.specs.Executable.{AreExecutable};
ghost use Rattle.script_steps.specs.Rulings.{asked_operations};
ghost use Rattle.script_steps.specs.declared.operation.Step.{Step};
ghost use Rattle.script_lang.specs.OnBoards.{StepsAreOn};
ghost use Rattle.script_plans.specs.declared.board_run.BoardRun.{BoardRun};
ghost use Rattle.transcript.specs.Lines.{client_lines, run_status, transcript_of};
ghost use Rattle.board_history.specs.Links.{CanBeMade, LinkReport};
ghost use Rattle.board_history.specs.LinkRuns.{AreRunsOver};
ghost use Rattle.config_laws.specs.Turns.{AreOfOneWord, ShowTurns};

use board_bus::laws::{a_body_is_executed_in_order, a_reply_answers_its_body, words_stay_words};
use board_history::runs::where_all_was_done_a_client_alone_has_one_run;
use mtu_packer::laws::operations_of_words_are_packed;
use reply_join::laws::{joining_is_a_function, the_answers_are_the_only_ones};
use transcript::laws::the_status_tells_whether_all_was_done;

/// Where every line of a client alone in its session is a value, `done` or `was`, and its operations are of one word
/// each, there is one line for each operation, in order, and it shows what the bus of its board gives, which opens with
/// its ranges and does the client's operations one after another, whatever the links lost, repeated, delayed or
/// reordered. The links tell, the boards run here and open with words of 32 bits, and the script can be executed, as it
/// is of every session that can be run.
pub fn good_lines_show_operations_one_after_another()
    ensures { (settings : Limits) (specs : List BoardSpec) (steps : List Step) (runs : List BoardRun)
        (links : List LinkReport) → AreRunsOver settings 0 specs (steps ∷ []) runs links →
        AllByRecursion (λ link. is_some link.telling ≡ true) links →
        AllByRecursion (λ spec. CanBeMade spec.link) specs → AllByRecursion OpensOnWords specs → AreExecutable steps →
        StepsAreOn (length specs) steps → AreOfOneWord steps → run_status (transcript_of (steps ∷ []) runs).clients ≡ 0 →
        ShowTurns specs [] (asked_operations steps) (client_lines runs 0 steps) }
{
    a_body_is_executed_in_order();
    a_reply_answers_its_body();
    words_stay_words();
    joining_is_a_function();
    the_answers_are_the_only_ones();
    operations_of_words_are_packed();
    where_all_was_done_a_client_alone_has_one_run();
    the_status_tells_whether_all_was_done();
}
