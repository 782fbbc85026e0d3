//! Laws of saved configurations. These functions do nothing when they run: their clauses are what is proved.

ghost use Rattle.std.specs.Prelude.{◌≡◌, ℕ, ◌∷◌, [], List, true, is_some};
ghost use Rattle.std.specs.List.{AllByRecursion};
ghost use Rattle.world_model.specs.Settings.{Limits};
ghost use Rattle.node_tree.specs.Maps.{RegisterMap};
ghost use Rattle.board_specs.specs.declared.spec.BoardSpec.{BoardSpec};
ghost use Rattle.board_specs.specs.OpeningWords.{OpensOnWords};
ghost use Rattle.script_steps.specs.Executable.{AreExecutable};
ghost use Rattle.script_steps.specs.declared.operation.Step.{Step};
ghost use Rattle.script_lang.specs.OwnNames.{HaveOwnNames};
ghost use Rattle.script_lang.specs.Scripts.{steps_from};
ghost use Rattle.script_plans.specs.declared.board_run.BoardRun.{BoardRun};
ghost use Rattle.transcript.specs.Lines.{client_lines, run_status, transcript_of};
ghost use Rattle.board_history.specs.Links.{CanBeMade, LinkReport};
ghost use Rattle.board_history.specs.LinkRuns.{AreRunsOver};
ghost use Rattle.config_store.specs.declared.state.StateEntry.{StateEntry};
ghost use Rattle.config_store.specs.Kept.{indexed_boards, kept_of};
ghost use Rattle.config_store.specs.Lines.{save_lines};
ghost use Rattle.config_store.specs.Meanings.{HaveWordNames};
ghost use Rattle.config_store.specs.Text.{state_text};
ghost use Rattle.config_laws.specs.Saved.{AreSaved, saved_text};

use crate::reads::good_reads_show_the_words_that_boards_open_with;
use config_store::laws::the_scripts_write_and_read;

/// Where every line of the script that saves is a value, the text of its lines is that of the configuration that the
/// boards open with, whatever the links lost, repeated, delayed or reordered. The script is that of the one client. The
/// links tell, the boards run here and open with words of 32 bits, and the script can be executed, as it is of every
/// session that can be run.
pub fn a_saved_text_is_that_of_the_opening_values()
    ensures { (settings : Limits) (specs : List BoardSpec) (indexes : List RegisterMap) (steps : List Step)
        (runs : List BoardRun) (links : List LinkReport) →
        steps ≡ steps_from specs indexes 1 (save_lines (kept_of (indexed_boards specs indexes))) → HaveOwnNames specs →
        HaveWordNames (indexed_boards specs indexes) → AreRunsOver settings 0 specs (steps ∷ []) runs links →
        AllByRecursion (λ link. is_some link.telling ≡ true) links →
        AllByRecursion (λ spec. CanBeMade spec.link) specs → AllByRecursion OpensOnWords specs → AreExecutable steps →
        run_status (transcript_of (steps ∷ []) runs).clients ≡ 0 →
        (entries : List StateEntry) × AreSaved specs (kept_of (indexed_boards specs indexes)) entries
        × (state_text specs (client_lines runs 0 steps) ≡ saved_text specs entries) }
{
    good_reads_show_the_words_that_boards_open_with();
    the_scripts_write_and_read();
}
