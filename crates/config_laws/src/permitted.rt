//! Laws of scripts under a policy, where all was done. These functions do nothing when they run: their clauses are what
//! is proved.

ghost use Rattle.std.specs.Prelude.{◌≡◌, ℕ, List, Option};
ghost use Rattle.world_model.specs.Settings.{Limits};
ghost use Rattle.node_tree.specs.Maps.{RegisterMap};
ghost use Rattle.access_policy.specs.Decisions.{names_of, ruled_scripts};
ghost use Rattle.access_policy.specs.declared.policy.Rule.{Rule as PolicyRule};
ghost use Rattle.board_specs.specs.declared.spec.BoardSpec.{BoardSpec};
ghost use Rattle.script_lang.specs.Scripts.{steps_of};
ghost use Rattle.script_plans.specs.declared.board_run.BoardRun.{BoardRun};
ghost use Rattle.transcript.specs.Lines.{run_status, transcript_of};
ghost use Rattle.board_history.specs.Links.{LinkReport};
ghost use Rattle.board_history.specs.LinkRuns.{AreRunsOver};

use script_lang::laws::scripts_ask_of_boards_that_are_there;
use transcript::laws::{lines_tell_what_is_denied, the_status_tells_whether_all_was_done};

/// Where every line of a session is a value, `done` or `was`, its policy denied nothing: the steps under it are those of
/// the scripts.
pub fn where_all_was_done_nothing_was_denied()
    ensures { (settings : Limits) (specs : List BoardSpec) (indexes : List RegisterMap)
        (scripts : List (List (List ℕ))) (policy : Option (List PolicyRule)) (runs : List BoardRun)
        (links : List LinkReport) →
        let steps = steps_of specs indexes scripts in let permitted = ruled_scripts policy (names_of specs) steps in
        AreRunsOver settings 0 specs permitted runs links → run_status (transcript_of permitted runs).clients ≡ 0 →
        permitted ≡ steps }
{
    scripts_ask_of_boards_that_are_there();
    lines_tell_what_is_denied();
    the_status_tells_whether_all_was_done();
}
