//! Laws of the definitions. These functions do nothing when they run: their clauses are what is proved.

ghost use Rattle.std.specs.Prelude.{◌≡◌, ◌↔◌, ℕ, List, None, length};
ghost use Rattle.std.specs.List.{AllByRecursion};
ghost use Rattle.node_tree.specs.Maps.{RegisterMap};
ghost use Rattle.script_lang.specs.Document.{SameSession, StandsFor};
ghost use Rattle.script_steps.specs.Executable.{AreExecutable};
ghost use Rattle.script_steps.specs.declared.operation.Step.{Step};
ghost use Rattle.script_lang.specs.declared.session.Session.{Session};
ghost use Rattle.session_input.specs.Deserved.{AreOnBoards, BreaksInCheck, BreaksInRun, BreaksInServe, Deserves};
ghost use Rattle.session_input.specs.Deserved.{IsListed, IsRunnable, IsServable, StandsForSession};
ghost use Rattle.session_input.specs.Recording.{BreaksInRecord, IsRecordable};
ghost use Rattle.session_input.specs.Numbers.{document_bytes};
ghost use Rattle.session_input.specs.declared.refusal.Refusal.{Refusal};
ghost use Rattle.session_input.specs.declared.refusal.TheConstants.{MAX_DOCUMENT};

use crate::below::{document_laws, table_laws};
use script_lang::laws::{scripts_ask_of_boards_that_are_there, scripts_ask_what_can_be_executed};
use script_steps::laws::what_is_denied_asks_for_less;

/// The limit of a document.
pub fn limits()
    ensures { MAX_DOCUMENT ≡ document_bytes }
{}

/// Bytes that can be run have one session, node for node, and one list of steps; others deserve at most one refusal.
pub fn bytes_have_one_answer_to_run()
    ensures session { (bytes : List ℕ) (s t : Session) (steps more : List (List Step))
        → IsRunnable bytes s steps → IsRunnable bytes t more → SameSession s t × (steps ≡ more) }
    ensures refusal { (bytes : List ℕ) (r q : Refusal)
        → Deserves BreaksInRun bytes r → Deserves BreaksInRun bytes q → r ≡ q }
    ensures not_both { (bytes : List ℕ) (session : Session) (steps : List (List Step)) (refusal : Refusal)
        → IsRunnable bytes session steps → ¬ Deserves BreaksInRun bytes refusal }
{
    document_laws();
    table_laws();
}

/// Bytes whose boards can be served have one session, node for node; others deserve at most one refusal.
pub fn bytes_have_one_answer_to_serve()
    ensures session { (bytes : List ℕ) (s t : Session) → IsServable bytes s → IsServable bytes t → SameSession s t }
    ensures refusal { (bytes : List ℕ) (r q : Refusal)
        → Deserves BreaksInServe bytes r → Deserves BreaksInServe bytes q → r ≡ q }
    ensures not_both { (bytes : List ℕ) (session : Session) (refusal : Refusal)
        → IsServable bytes session → ¬ Deserves BreaksInServe bytes refusal }
{
    document_laws();
    table_laws();
}

/// Bytes whose board can be recorded have one session, node for node, and one list of steps; others deserve at most one
/// refusal.
pub fn bytes_have_one_answer_to_record()
    ensures session { (bytes : List ℕ) (s t : Session) (steps more : List (List Step))
        → IsRecordable bytes s steps → IsRecordable bytes t more → SameSession s t × (steps ≡ more) }
    ensures refusal { (bytes : List ℕ) (r q : Refusal)
        → Deserves BreaksInRecord bytes r → Deserves BreaksInRecord bytes q → r ≡ q }
    ensures not_both { (bytes : List ℕ) (session : Session) (steps : List (List Step)) (refusal : Refusal)
        → IsRecordable bytes session steps → ¬ Deserves BreaksInRecord bytes refusal }
{
    document_laws();
    table_laws();
}

/// Bytes whose table can be listed have one index of it; others deserve at most one refusal.
pub fn bytes_have_one_answer_to_check()
    ensures index { (bytes root : List ℕ) (index other : RegisterMap)
        → IsListed bytes root index → IsListed bytes root other → index ≡ other }
    ensures refusal { (bytes root : List ℕ) (r q : Refusal)
        → Deserves (BreaksInCheck root) bytes r → Deserves (BreaksInCheck root) bytes q → r ≡ q }
    ensures not_both { (bytes root : List ℕ) (index : RegisterMap) (refusal : Refusal)
        → IsListed bytes root index → ¬ Deserves (BreaksInCheck root) bytes refusal }
{
    document_laws();
    table_laws();
}

/// Bytes stand for a session without a policy exactly where their whole table stands for it.
pub fn without_a_policy_the_whole_document_is_read()
    ensures { (bytes : List ℕ) (session : Session)
        → StandsForSession bytes session None ↔ StandsFor bytes session }
{}

/// Each operation of a session that can be run, denied or not, is on one of its boards.
pub fn operations_are_on_the_boards_of_their_session()
    ensures { (bytes : List ℕ) (session : Session) (steps : List (List Step))
        → IsRunnable bytes session steps → AllByRecursion (AreOnBoards (length session.boards)) steps }
{
    scripts_ask_of_boards_that_are_there();
}

/// What the scripts of a session that can be run ask under its policy can be executed: each operation can be packed for
/// any board, its address and its words have 32 bits, and it is one that its verb asks for.
pub fn what_can_be_run_can_be_executed()
    ensures { (bytes : List ℕ) (session : Session) (steps : List (List Step))
        → IsRunnable bytes session steps → AllByRecursion AreExecutable steps }
{
    scripts_ask_what_can_be_executed();
    what_is_denied_asks_for_less();
}
