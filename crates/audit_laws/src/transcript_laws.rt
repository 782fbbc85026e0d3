//! A law of the audits of what `run` prints. This function does nothing when it runs: its clause is what is proved.

ghost use Rattle.std.specs.Prelude.{◌≡◌, ◌⊎◌, ℕ, List};
ghost use Rattle.board_history.specs.Links.{LinkReport};
ghost use Rattle.run_audit.specs.declared.verdict.AuditWhy.TheVariants.{Partial};
ghost use Rattle.run_audit.specs.declared.verdict.Verdict.TheVariants.{Yes, No};
ghost use Rattle.run_command.specs.Headline.{IsTranscriptOf};
ghost use Rattle.audit_command.specs.Headline.{IsAuditOf};
ghost use Rattle.audit_command.specs.Input.{HasParts};
ghost use Rattle.audit_command.specs.Lines.{verdict_line};
ghost use Rattle.audit_laws.specs.Audited.{AllTell};

use crate::laws::a_run_fits_unless_it_is_partial;
use crate::session_laws::{names_are_on_one_line, sessions_can_be_audited};
use audit_command::laws::an_input_has_one_document;
use session_input::laws::bytes_have_one_answer_to_run;

/// The audit of what `run` printed over links that tell, behind the document that was run, says yes, or that some line
/// shows some places of its operation and not all.
pub fn a_transcript_of_run_fits_or_is_partial()
    ensures { (bytes input text answer : List ℕ) (links : List LinkReport) (status told : ℕ)
        → IsTranscriptOf bytes links status text → AllTell links → HasParts input bytes text
        → IsAuditOf input told answer
        → (answer ≡ verdict_line Yes) ⊎ ((line : ℕ) × (answer ≡ verdict_line (No line Partial))) }
{
    a_run_fits_unless_it_is_partial();
    names_are_on_one_line();
    sessions_can_be_audited();
    an_input_has_one_document();
    bytes_have_one_answer_to_run();
}
