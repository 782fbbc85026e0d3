//! What the scripts of configurations rest on, of a session that can be run. These functions do nothing when they run:
//! their clauses are what is proved.

ghost use Rattle.std.specs.Prelude.{◌≡◌, ℕ, [], List};
ghost use Rattle.std.specs.List.{AllByRecursion, AllZip};
ghost use Rattle.toml.specs.Data.{Members};
ghost use Rattle.node_tree.specs.Maps.{RegisterMap};
ghost use Rattle.node_tree.specs.Names.{IsIndexOf};
ghost use Rattle.node_tree.specs.Refusals.{KeepsRules};
ghost use Rattle.board_specs.specs.declared.spec.BoardSpec.{BoardSpec};
ghost use Rattle.script_steps.specs.Executable.{AreExecutable};
ghost use Rattle.script_lang.specs.Document.{IsSession};
ghost use Rattle.script_lang.specs.OwnNames.{HaveOwnNames};
ghost use Rattle.script_lang.specs.Scripts.{steps_from};
ghost use Rattle.script_lang.specs.declared.session.Session.{Session};
ghost use Rattle.config_store.specs.declared.state.StateEntry.{StateEntry};
ghost use Rattle.config_store.specs.Kept.{indexed_boards, kept_of};
ghost use Rattle.config_store.specs.Lines.{apply_lines, save_lines};
ghost use Rattle.config_store.specs.Meanings.{HasWord, HaveWordNames};
ghost use Rattle.config_store.specs.Refusals.{entry_faults};
ghost use Rattle.config_laws.specs.Fields.{HaveFields};

use config_store::laws::{names_are_words_of_lines, the_scripts_write_and_read};

/// Where the tables of a session's boards compile into indexes, each name of a board and of a register is one word of a
/// line, and each register has a field that can be read and written.
pub fn the_boards_of_a_session_have_words_and_fields()
    ensures names { (document : Members) (session : Session) (indexes : List RegisterMap) →
        IsSession document session →
        AllZip (λ (b : BoardSpec) (index : RegisterMap). IsIndexOf session.tables b.table index)
        session.boards indexes →
        HaveWordNames (indexed_boards session.boards indexes) }
    ensures fields { (document : Members) (session : Session) (indexes : List RegisterMap) →
        IsSession document session →
        AllByRecursion (λ (b : BoardSpec). KeepsRules session.tables b.table) session.boards →
        AllZip (λ (b : BoardSpec) (index : RegisterMap). IsIndexOf session.tables b.table index)
        session.boards indexes →
        HaveFields (indexed_boards session.boards indexes) }
{
    names_are_words_of_lines();
}

/// So the script that saves, and the one that applies values of which none breaks a rule, can be executed: each
/// operation can be packed for any board, its address and its words have 32 bits, and it is one that its verb asks for.
pub fn the_scripts_can_be_executed()
    ensures save { (specs : List BoardSpec) (indexes : List RegisterMap) →
        HaveOwnNames specs → HaveWordNames (indexed_boards specs indexes) → HaveFields (indexed_boards specs indexes) →
        AreExecutable (steps_from specs indexes 1 (save_lines (kept_of (indexed_boards specs indexes)))) }
    ensures apply { (specs : List BoardSpec) (indexes : List RegisterMap) (state : List StateEntry) →
        HaveOwnNames specs → HaveWordNames (indexed_boards specs indexes) → HaveFields (indexed_boards specs indexes) →
        entry_faults (indexed_boards specs indexes) state ≡ [] → AllByRecursion HasWord state →
        AreExecutable (steps_from specs indexes 1 (apply_lines state (kept_of (indexed_boards specs indexes)))) }
{
    the_scripts_write_and_read();
}
