//! Laws of what `save` and `apply` owe. These functions do nothing when they run: their clauses are what is proved.

ghost use Rattle.std.specs.Prelude.{◌≡◌, ◌∷◌, [], ℕ, List, Some};
ghost use Rattle.toml.specs.Data.{Data, Members, get_member};
ghost use Rattle.toml.specs.Parse.{parse_document};
ghost use Rattle.access_policy.specs.Decisions.{names_of};
ghost use Rattle.node_tree.specs.Maps.{RegisterMap};
ghost use Rattle.session_input.specs.Deserved.{AreCompiled};
ghost use Rattle.command_terms.specs.Terms.{AreTerms};
ghost use Rattle.config_input.specs.Deserved.{IsApplicable, IsSavable};
ghost use Rattle.config_input.specs.Work.{apply_command, state_key};
ghost use Rattle.config_store.specs.Text.{state_text};
ghost use Rattle.board_history.specs.Links.{LinkReport};
ghost use Rattle.board_history.specs.LinkRuns.{AreRunsOver};
ghost use Rattle.run_laws.specs.Steps.{CanRunSteps};
ghost use Rattle.script_lang.specs.declared.session.Session.{Session};
ghost use Rattle.script_plans.specs.declared.board_run.BoardRun.{BoardRun};
ghost use Rattle.script_steps.specs.declared.operation.Step.{Step};
ghost use Rattle.transcript.specs.Lines.{client_lines, run_status, transcript_of};
ghost use Rattle.config_commands.specs.Applied.{IsAppliedBy, IsAppliedText};
ghost use Rattle.config_commands.specs.Saved.{IsOpeningText, IsSavedBy};
ghost use Rattle.config_commands.specs.Terms.{apply_terms, save_terms};
ghost use Rattle.config_commands.specs.Written.{AllTell};

use config_input::laws::{
    bytes_have_one_answer_to_a_command, operations_are_on_the_boards_of_their_session,
    values_of_a_state_are_words, what_is_read_for_a_command_can_be_executed,
};
use config_laws::applying::an_applied_text_is_that_of_given_and_opening_values;
use config_laws::permitted::where_all_was_done_nothing_was_denied;
use config_laws::reading_back::{
    a_saved_text_is_written_again, configurations_of_a_session_can_be_read_back,
    saved_values_have_words,
};
use config_laws::saving::a_saved_text_is_that_of_the_opening_values;
use config_laws::sessions::the_boards_of_a_session_have_words_and_fields;
use script_lang::laws::{
    a_session_keeps_its_limits, the_boards_of_a_session_have_their_own_names,
    the_ranges_of_a_session_name_words,
};
use session_input::below::table_laws;

/// What `save` owes are the terms of a command.
pub fn the_terms_of_save()
    ensures { AreTerms save_terms }
{
    bytes_have_one_answer_to_a_command();
}

/// What `apply` owes are the terms of a command.
pub fn the_terms_of_apply()
    ensures { AreTerms apply_terms }
{
    bytes_have_one_answer_to_a_command();
}

/// What `save` and `apply` run are steps that the boards of the session can run.
pub fn steps_for_a_command_can_be_run()
    ensures save { (bytes : List ℕ) (session : Session) (steps : List (List Step)) → IsSavable bytes session steps
        → CanRunSteps session steps }
    ensures apply { (bytes : List ℕ) (session : Session) (steps : List (List Step)) → IsApplicable bytes session steps
        → CanRunSteps session steps }
{
    operations_are_on_the_boards_of_their_session();
    what_is_read_for_a_command_can_be_executed();
}

/// Where every line of `save` is a value and the links tell, its text is that of the configuration that the boards open
/// with.
pub fn saved_texts_are_those_of_opening_values()
    ensures { (bytes : List ℕ) (session : Session) (steps : List Step) (runs : List BoardRun) (links : List LinkReport)
        → IsSavable bytes session (steps ∷ [])
        → AreRunsOver session.settings 0 session.boards (steps ∷ []) runs links → AllTell links
        → run_status (transcript_of (steps ∷ []) runs).clients ≡ 0
        → IsOpeningText session (state_text session.boards (client_lines runs 0 steps)) }
{
    the_boards_of_a_session_have_words_and_fields();
    what_is_read_for_a_command_can_be_executed();
    where_all_was_done_nothing_was_denied();
    a_saved_text_is_that_of_the_opening_values();
    a_session_keeps_its_limits();
    the_boards_of_a_session_have_their_own_names();
    the_ranges_of_a_session_name_words();
}

/// Where every line of `apply` is a value or `done` and the links tell, its text has the values of the state, and for
/// every other kept register the one that its board opens with.
pub fn applied_texts_are_those_of_given_and_opening_values()
    ensures { (bytes : List ℕ) (session : Session) (steps : List Step) (runs : List BoardRun) (links : List LinkReport)
        (is : IsApplicable bytes session (steps ∷ []))
        → AreRunsOver session.settings 0 session.boards (steps ∷ []) runs links → AllTell links
        → run_status (transcript_of (steps ∷ []) runs).clients ≡ 0
        → IsAppliedText session (apply_command.work is.document).values
        (state_text session.boards (client_lines runs 0 steps)) }
{
    values_of_a_state_are_words();
    what_is_read_for_a_command_can_be_executed();
    where_all_was_done_nothing_was_denied();
    the_boards_of_a_session_have_words_and_fields();
    an_applied_text_is_that_of_given_and_opening_values();
    a_session_keeps_its_limits();
    the_boards_of_a_session_have_their_own_names();
    the_ranges_of_a_session_name_words();
}

/// What `save` wrote with status 0 over links that tell, `apply` writes again where it ends with 0 over links that tell and
/// its document has the state that is read from that text, on any boards of the same names, in the same order, whose
/// tables have the same registers.
pub fn a_saved_text_that_is_applied_is_written_again()
    ensures { (bytes others : List ℕ) (links rest : List LinkReport) (text again : List ℕ)
        (saved : IsSavedBy bytes links 0 text) (applied : IsAppliedBy others rest 0 again) (document : Members)
        (value : Data) → AllTell links → AllTell rest
        → names_of applied.session.boards ≡ names_of saved.session.boards
        → ((registers : List RegisterMap) → AreCompiled saved.session registers
        → AreCompiled applied.session registers)
        → parse_document text ≡ Some document → get_member state_key document ≡ Some value
        → get_member state_key applied.applicable.document ≡ Some value → again ≡ text }
{
    table_laws();
    values_of_a_state_are_words();
    what_is_read_for_a_command_can_be_executed();
    where_all_was_done_nothing_was_denied();
    the_boards_of_a_session_have_words_and_fields();
    configurations_of_a_session_can_be_read_back();
    saved_values_have_words();
    a_saved_text_is_written_again();
    a_session_keeps_its_limits();
    the_boards_of_a_session_have_their_own_names();
    the_ranges_of_a_session_name_words();
}
