//! Laws of the definitions. These functions do nothing when they run: their clauses are what is proved.

ghost use Rattle.std.specs.Prelude.{◌≡◌, ℕ, List, Option, length};
ghost use Rattle.std.specs.List.{AllByRecursion};
ghost use Rattle.toml.specs.Data.{Data};
ghost use Rattle.script_steps.specs.Executable.{AreExecutable};
ghost use Rattle.script_steps.specs.declared.operation.Step.{Step};
ghost use Rattle.script_lang.specs.declared.session.Session.{Session};
ghost use Rattle.script_lang.specs.Document.{SameSession};
ghost use Rattle.session_input.specs.Deserved.{AreOnBoards};
ghost use Rattle.config_store.specs.Meanings.{HasWord};
ghost use Rattle.config_input.specs.Deserved.{Deserves, IsApplicable, IsReadFor, IsSavable};
ghost use Rattle.config_input.specs.Work.{ConfigCommand, entries_in};
ghost use Rattle.config_input.specs.declared.refusal.ConfigRefusal.{ConfigRefusal};

use config_laws::sessions::{
    the_boards_of_a_session_have_words_and_fields, the_scripts_can_be_executed,
};
use script_lang::laws::{
    scripts_ask_of_boards_that_are_there, the_boards_of_a_session_have_their_own_names,
};
use script_steps::laws::what_is_denied_asks_for_less;
use session_input::below::{document_laws, table_laws};

/// Bytes that a command can use have one session, node for node, and one list of steps; others deserve at most one
/// refusal.
pub fn bytes_have_one_answer_to_a_command()
    ensures session { (command : ConfigCommand) (bytes : List ℕ) (s t : Session) (steps more : List (List Step))
        → IsReadFor command bytes s steps → IsReadFor command bytes t more → SameSession s t × (steps ≡ more) }
    ensures refusal { (command : ConfigCommand) (bytes : List ℕ) (r q : ConfigRefusal)
        → Deserves command bytes r → Deserves command bytes q → r ≡ q }
    ensures not_both { (command : ConfigCommand) (bytes : List ℕ) (session : Session) (steps : List (List Step))
        (refusal : ConfigRefusal) → IsReadFor command bytes session steps → ¬ Deserves command bytes refusal }
{
    document_laws();
    table_laws();
}

/// The values of a state have 32 bits.
pub fn values_of_a_state_are_words()
    ensures { (value : Option Data) → AllByRecursion HasWord (entries_in value) }
{}

/// Each operation that a command runs, denied or not, is on one of the boards.
pub fn operations_are_on_the_boards_of_their_session()
    ensures { (command : ConfigCommand) (bytes : List ℕ) (session : Session) (steps : List (List Step))
        → IsReadFor command bytes session steps → AllByRecursion (AreOnBoards (length session.boards)) steps }
{
    scripts_ask_of_boards_that_are_there();
}

/// What `save` and `apply` run can be executed: each operation can be packed for any board, its address and its words
/// have 32 bits, and it is one that its verb asks for.
pub fn what_is_read_for_a_command_can_be_executed()
    ensures save { (bytes : List ℕ) (session : Session) (steps : List (List Step))
        → IsSavable bytes session steps → AllByRecursion AreExecutable steps }
    ensures apply { (bytes : List ℕ) (session : Session) (steps : List (List Step))
        → IsApplicable bytes session steps → AllByRecursion AreExecutable steps }
{
    the_boards_of_a_session_have_their_own_names();
    the_boards_of_a_session_have_words_and_fields();
    the_scripts_can_be_executed();
    values_of_a_state_are_words();
    what_is_denied_asks_for_less();
}
