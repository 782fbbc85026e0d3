//! Laws of texts of values that are read back. These functions do nothing when they run: their clauses are what is
//! proved.

ghost use Rattle.std.specs.Prelude.{◌≡◌, ℕ, ◌∷◌, [], List, Some, codes, true, is_some};
ghost use Rattle.std.specs.List.{AllByRecursion, AllZip};
ghost use Rattle.toml.specs.Data.{Data, Members, get_member, member, no_members};
ghost use Rattle.toml.specs.Parse.{parse_document};
ghost use Rattle.access_policy.specs.Decisions.{names_of};
ghost use Rattle.world_model.specs.Settings.{Limits};
ghost use Rattle.node_tree.specs.Maps.{RegisterMap};
ghost use Rattle.node_tree.specs.Names.{IsIndexOf};
ghost use Rattle.board_specs.specs.declared.spec.BoardSpec.{BoardSpec};
ghost use Rattle.board_specs.specs.OpeningWords.{OpensOnWords};
ghost use Rattle.script_steps.specs.Executable.{AreExecutable};
ghost use Rattle.script_steps.specs.declared.operation.Step.{Step};
ghost use Rattle.script_lang.specs.Document.{IsSession};
ghost use Rattle.script_lang.specs.OwnNames.{HaveOwnNames};
ghost use Rattle.script_lang.specs.Scripts.{steps_from};
ghost use Rattle.script_lang.specs.declared.session.Session.{Session};
ghost use Rattle.script_plans.specs.declared.board_run.BoardRun.{BoardRun};
ghost use Rattle.transcript.specs.Lines.{client_lines, run_status, transcript_of};
ghost use Rattle.board_history.specs.Links.{CanBeMade, LinkReport};
ghost use Rattle.board_history.specs.LinkRuns.{AreRunsOver};
ghost use Rattle.config_store.specs.declared.state.StateEntry.{StateEntry};
ghost use Rattle.config_store.specs.Kept.{KeptRegister, indexed_boards, kept_of};
ghost use Rattle.config_store.specs.Lines.{apply_lines};
ghost use Rattle.config_store.specs.Meanings.{HasWord, HaveWordNames};
ghost use Rattle.config_store.specs.Order.{AreInOrder};
ghost use Rattle.config_store.specs.Refusals.{applying_faults};
ghost use Rattle.config_store.specs.States.{state_entries};
ghost use Rattle.config_store.specs.Text.{state_text};
ghost use Rattle.config_laws.specs.Applied.{AreAmong, AreFor};
ghost use Rattle.config_laws.specs.Fields.{HaveFields};
ghost use Rattle.config_laws.specs.ReadBack.{CanBeReadBack};
ghost use Rattle.config_laws.specs.Saved.{AreSaved, saved_text};

use crate::applying::what_was_saved_is_written_again;
use script_lang::laws::{a_session_keeps_its_limits, the_boards_of_a_session_have_their_own_names};

/// The text of values of boards that have keys of their own is TOML that has the key `state` alone, and each value is
/// read from it again.
pub fn a_text_of_values_is_read_back()
    ensures { (specs : List BoardSpec) (entries : List StateEntry) → CanBeReadBack specs entries →
        (value : Data) × (parse_document (saved_text specs entries) ≡ Some (member (codes "state") value no_members))
        × AreAmong entries (state_entries value) }
{}

/// Values of 32 bits for the kept registers of a session's boards, one for each, are such values.
pub fn configurations_of_a_session_can_be_read_back()
    ensures { (document : Members) (session : Session) (indexes : List RegisterMap) (entries : List StateEntry) →
        IsSession document session →
        AllZip (λ (b : BoardSpec) (index : RegisterMap). IsIndexOf session.tables b.table index)
        session.boards indexes →
        AreFor (kept_of (indexed_boards session.boards indexes)) entries → AllByRecursion HasWord entries →
        CanBeReadBack session.boards entries }
{
    a_session_keeps_its_limits();
    the_boards_of_a_session_have_their_own_names();
}

/// So are the values that were saved of such boards, which have 32 bits where the boards open with words of 32 bits.
pub fn saved_values_have_words()
    ensures values { (specs : List BoardSpec) (kept : List KeptRegister) (entries : List StateEntry) →
        AllByRecursion OpensOnWords specs → AreSaved specs kept entries → AllByRecursion HasWord entries }
    ensures each { (specs : List BoardSpec) (kept : List KeptRegister) (entries : List StateEntry) →
        AreSaved specs kept entries → AreFor kept entries }
{}

/// So a text that was saved, of any boards of the same names, order and tables, is written again where a document has
/// the state that is read from it, the state is applied, and every line is a value or `done`.
pub fn a_saved_text_is_written_again()
    ensures { (settings : Limits) (specs others : List BoardSpec) (indexes : List RegisterMap) (steps : List Step)
        (runs : List BoardRun) (links : List LinkReport) (entries : List StateEntry) (saved : Members) (value : Data) →
        names_of specs ≡ names_of others → AreSaved others (kept_of (indexed_boards others indexes)) entries →
        CanBeReadBack others entries → parse_document (saved_text others entries) ≡ Some saved →
        get_member (codes "state") saved ≡ Some value → let state = state_entries value in
        steps ≡ steps_from specs indexes 1 (apply_lines state (kept_of (indexed_boards specs indexes))) →
        HaveOwnNames specs → HaveWordNames (indexed_boards specs indexes) → HaveFields (indexed_boards specs indexes) →
        applying_faults (indexed_boards specs indexes) state ≡ [] → AreInOrder state → AllByRecursion HasWord state →
        AreRunsOver settings 0 specs (steps ∷ []) runs links →
        AllByRecursion (λ link. is_some link.telling ≡ true) links →
        AllByRecursion (λ spec. CanBeMade spec.link) specs → AllByRecursion OpensOnWords specs → AreExecutable steps →
        run_status (transcript_of (steps ∷ []) runs).clients ≡ 0 →
        state_text specs (client_lines runs 0 steps) ≡ saved_text others entries }
{
    a_text_of_values_is_read_back();
    what_was_saved_is_written_again();
}
