//! Laws of the definitions. These functions do nothing when they run: their clauses are what is proved.

ghost use Rattle.std.specs.Prelude.{◌≡◌, ℕ, List, length};
ghost use Rattle.script_lang.specs.Document.{SameSession};
ghost use Rattle.script_lang.specs.declared.session.Session.{Session};
ghost use Rattle.script_steps.specs.declared.operation.Step.{Step};
ghost use Rattle.command_terms.specs.Terms.{AreTerms};
ghost use Rattle.audit_command.specs.declared.refusal.AuditRefusal.{AuditRefusal};
ghost use Rattle.audit_command.specs.declared.refusal.TheConstants.{MAX_AUDIT, MAX_LENGTH_DIGITS};
ghost use Rattle.audit_command.specs.Input.{Deserves, HasParts, IsInput};
ghost use Rattle.audit_command.specs.Numbers.{audit_bytes, length_digits};
ghost use Rattle.audit_command.specs.Terms.{audit_terms};

use session_input::below::{document_laws, table_laws};

/// The numbers that a user sees are those of the definitions.
pub fn the_numbers_of_an_input()
    ensures bytes { MAX_AUDIT ≡ audit_bytes }
    ensures digits { MAX_LENGTH_DIGITS ≡ length_digits }
{}

/// An input has its parts in one way.
pub fn an_input_has_one_document()
    ensures { (bytes document transcript other another : List ℕ) → HasParts bytes document transcript
        → HasParts bytes other another → (document ≡ other) × (transcript ≡ another) }
{}

/// An input stands for one session, node for node, one list of steps and one transcript; or it deserves at most one
/// refusal.
pub fn an_input_has_one_answer()
    ensures input { (bytes : List ℕ) (s t : Session) (steps more : List (List Step)) (transcript other : List ℕ)
        → IsInput bytes s steps transcript → IsInput bytes t more other
        → SameSession s t × (steps ≡ more) × (transcript ≡ other) }
    ensures refusal { (bytes : List ℕ) (r q : AuditRefusal) → Deserves bytes r → Deserves bytes q → r ≡ q }
    ensures not_both { (bytes : List ℕ) (session : Session) (steps : List (List Step)) (transcript : List ℕ)
        (refusal : AuditRefusal) → IsInput bytes session steps transcript → ¬ Deserves bytes refusal }
{
    document_laws();
    table_laws();
    an_input_has_one_document();
}

/// The terms of `audit` are those of a command.
pub fn the_terms_of_audit()
    ensures { AreTerms audit_terms }
{
    an_input_has_one_answer();
}
