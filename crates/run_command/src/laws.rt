//! Laws of what `run` owes. These functions do nothing when they run: their clauses are what is proved.

ghost use Rattle.std.specs.Prelude.{◌≡◌, ℕ, List};
ghost use Rattle.std.specs.List.{AllByRecursion};
ghost use Rattle.board_history.specs.Links.{IsFaithful};
ghost use Rattle.board_history.specs.LinkRuns.{HaveOwnBoards};
ghost use Rattle.script_steps.specs.declared.operation.Step.{Step};
ghost use Rattle.script_lang.specs.declared.session.Session.{Session};
ghost use Rattle.session_input.specs.Deserved.{IsRunnable};
ghost use Rattle.command_terms.specs.Outside.{GivenBack};
ghost use Rattle.command_terms.specs.Terms.{AreTerms, Owes};
ghost use Rattle.run_command.specs.Terms.{run_terms};

use run_laws::laws::{
    a_document_can_run_its_steps, clients_with_boards_of_their_own_have_one_session_run,
};
use session_input::laws::bytes_have_one_answer_to_run;

/// What `run` owes are the terms of a command.
pub fn the_terms_of_run()
    ensures { AreTerms run_terms }
{
    bytes_have_one_answer_to_run();
}

/// Where no two clients use one board, `run` owes one status and one text to the bytes of a document over links that
/// tell, where nothing was held and nothing failed: so such a session has one transcript then.
pub fn one_transcript_is_owed()
    ensures { (bytes : List ℕ) (given others : GivenBack) (s t : ℕ) (a b : List ℕ) →
        ((session : Session) (steps : List (List Step)) → IsRunnable bytes session steps
        → HaveOwnBoards 0 session.boards steps) →
        AllByRecursion IsFaithful given.links → AllByRecursion IsFaithful others.links →
        Owes run_terms bytes given s a → Owes run_terms bytes others t b → (s ≡ t) × (a ≡ b) }
{
    the_terms_of_run();
    bytes_have_one_answer_to_run();
    a_document_can_run_its_steps();
    clients_with_boards_of_their_own_have_one_session_run();
}
