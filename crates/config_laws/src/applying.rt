//! Laws of applied configurations. These functions do nothing when they run: their clauses are what is proved.

ghost use Rattle.std.specs.Prelude.{◌≡◌, ℕ, ◌∷◌, [], List, true, is_some};
ghost use Rattle.std.specs.List.{AllByRecursion};
ghost use Rattle.world_model.specs.Settings.{Limits};
ghost use Rattle.node_tree.specs.Maps.{RegisterMap};
ghost use Rattle.access_policy.specs.Decisions.{names_of};
ghost use Rattle.board_specs.specs.declared.spec.BoardSpec.{BoardSpec};
ghost use Rattle.board_specs.specs.OpeningWords.{OpensOnWords};
ghost use Rattle.script_steps.specs.Executable.{AreExecutable};
ghost use Rattle.script_steps.specs.declared.operation.Step.{Step};
ghost use Rattle.script_lang.specs.OwnNames.{HaveOwnNames};
ghost use Rattle.script_lang.specs.Scripts.{steps_from};
ghost use Rattle.script_plans.specs.declared.board_run.BoardRun.{BoardRun};
ghost use Rattle.transcript.specs.Lines.{client_lines, run_status, transcript_of};
ghost use Rattle.board_history.specs.Links.{CanBeMade, LinkReport};
ghost use Rattle.board_history.specs.LinkRuns.{AreRunsOver};
ghost use Rattle.config_store.specs.declared.state.StateEntry.{StateEntry};
ghost use Rattle.config_store.specs.Kept.{KeptRegister, indexed_boards, kept_of};
ghost use Rattle.config_store.specs.Lines.{apply_lines};
ghost use Rattle.config_store.specs.Meanings.{HasWord, HaveWordNames};
ghost use Rattle.config_store.specs.Order.{AreInOrder};
ghost use Rattle.config_store.specs.Refusals.{applying_faults};
ghost use Rattle.config_store.specs.Text.{state_text};
ghost use Rattle.config_laws.specs.Applied.{AreAmong, AreApplied, AreFor};
ghost use Rattle.config_laws.specs.Fields.{HaveFields};
ghost use Rattle.config_laws.specs.Saved.{AreSaved, saved_text};

use crate::turns::good_lines_show_operations_one_after_another;
use crate::writes::{a_write_puts_its_field, written_values_stand_and_other_fields_stay};
use board_bus::laws::a_write_changes_one_word;
use config_store::laws::{kept_registers_overlap_in_a_bit_of_a_word, the_scripts_write_and_read};
use script_lang::laws::scripts_ask_of_boards_that_are_there;

/// Where every line of the script that applies values is a value or `done`, the text of its lines is that of a
/// configuration in which each register has the value that is given for it, or else the one that its board opened with,
/// and each value that is given is in it, whatever the links lost, repeated, delayed or reordered. The script is that of
/// the one client. The links tell, the boards run here and open with words of 32 bits, and the script can be executed, as
/// it is of every session that can be run.
pub fn an_applied_text_is_that_of_given_and_opening_values()
    ensures { (settings : Limits) (specs : List BoardSpec) (indexes : List RegisterMap) (steps : List Step)
        (runs : List BoardRun) (links : List LinkReport) (state : List StateEntry) →
        steps ≡ steps_from specs indexes 1 (apply_lines state (kept_of (indexed_boards specs indexes))) →
        HaveOwnNames specs → HaveWordNames (indexed_boards specs indexes) → HaveFields (indexed_boards specs indexes) →
        applying_faults (indexed_boards specs indexes) state ≡ [] → AreInOrder state → AllByRecursion HasWord state →
        AreRunsOver settings 0 specs (steps ∷ []) runs links →
        AllByRecursion (λ link. is_some link.telling ≡ true) links →
        AllByRecursion (λ spec. CanBeMade spec.link) specs → AllByRecursion OpensOnWords specs → AreExecutable steps →
        run_status (transcript_of (steps ∷ []) runs).clients ≡ 0 →
        (shown : List StateEntry) × AreApplied specs state (kept_of (indexed_boards specs indexes)) shown
        × AreAmong state shown × (state_text specs (client_lines runs 0 steps) ≡ saved_text specs shown) }
{
    good_lines_show_operations_one_after_another();
    a_write_puts_its_field();
    written_values_stand_and_other_fields_stay();
    a_write_changes_one_word();
    kept_registers_overlap_in_a_bit_of_a_word();
    the_scripts_write_and_read();
    scripts_ask_of_boards_that_are_there();
}

/// Where a value is given for each register, these are the values that are shown, so the configuration of the boards is
/// the one that is applied.
pub fn a_whole_configuration_is_shown_as_it_was_given()
    ensures { (specs : List BoardSpec) (kept : List KeptRegister) (state entries shown : List StateEntry) →
        AreInOrder state → AreApplied specs state kept shown → AreFor kept entries → AreAmong entries state →
        shown ≡ entries }
{}

/// So the text of a configuration that was saved, of any boards of the same names, order and tables, is written again
/// where its values are applied and every line is a value or `done`.
pub fn what_was_saved_is_written_again()
    ensures { (settings : Limits) (specs others : List BoardSpec) (indexes : List RegisterMap) (steps : List Step)
        (runs : List BoardRun) (links : List LinkReport) (state entries : List StateEntry) →
        names_of specs ≡ names_of others →
        AreSaved others (kept_of (indexed_boards others indexes)) entries → AreAmong entries state →
        steps ≡ steps_from specs indexes 1 (apply_lines state (kept_of (indexed_boards specs indexes))) →
        HaveOwnNames specs → HaveWordNames (indexed_boards specs indexes) → HaveFields (indexed_boards specs indexes) →
        applying_faults (indexed_boards specs indexes) state ≡ [] → AreInOrder state → AllByRecursion HasWord state →
        AreRunsOver settings 0 specs (steps ∷ []) runs links →
        AllByRecursion (λ link. is_some link.telling ≡ true) links →
        AllByRecursion (λ spec. CanBeMade spec.link) specs → AllByRecursion OpensOnWords specs → AreExecutable steps →
        run_status (transcript_of (steps ∷ []) runs).clients ≡ 0 →
        state_text specs (client_lines runs 0 steps) ≡ saved_text others entries }
{
    an_applied_text_is_that_of_given_and_opening_values();
    a_whole_configuration_is_shown_as_it_was_given();
}
