//! What `audit` answers to the bytes of its input.

ghost use Rattle.std.specs.Prelude.{◌≡◌, [], IfOk};
ghost use Rattle.command_terms.specs.Numbers.{refused_status};
ghost use Rattle.command_terms.specs.Outside.{no_pairs};
ghost use Rattle.command_terms.specs.Terms.{Owes};
ghost use Rattle.run_audit.specs.Verdicts.{CanBeAudited};
ghost use Rattle.audit_command.specs.Headline.{verdict_status};
ghost use Rattle.audit_command.specs.Lines as lines;
ghost use Rattle.audit_command.specs.Terms.{audit_terms};

use crate::lines::verdict_line;
use crate::reading::{Audited, read_for_audit};
use crate::refusal::{AuditRefusal, AuditUnread};
use audit_notes::{Judged, say_verdict};
use command_terms::{Answer, DONE, NOT_ALL_DONE, REFUSED};
use ipb_base::NoMemory;
use note_lines::Notes;
use run_audit::{Verdict, audit};
use std::alloc::Global;

/// What `audit` answers to an input (profile): the verdict on its transcript, or the line of the first rule that the
/// input breaks.
pub fn audit_answer(alloc: Global, bytes: &[u8]) -> Result<Answer, NoMemory>
    ensures owed { IfOk result (λ answer.
        Owes audit_terms bytes.now (no_pairs []) answer.status answer.text.items) }
{
    match read_for_audit(alloc, bytes) {
        Ok(read) => {
            let verdict = audit(alloc, &read.session, &read.steps, read.transcript)?;
            told(alloc, &read, verdict)
        }
        Err(AuditUnread::Refused(refusal)) => refused_input(alloc, &refusal),
        Err(AuditUnread::NoMemory) => Err(NoMemory),
    }
}

/// The answer that tells a verdict, and beside it what does not fit.
fn told(alloc: Global, read: &Audited<'_>, verdict: Verdict) -> Result<Answer, NoMemory>
    requires { CanBeAudited read.now.session read.now.steps.items }
    ensures status { IfOk result (λ answer. answer.status ≡ verdict_status verdict) }
    ensures text { IfOk result (λ answer. answer.text.items ≡ lines.verdict_line verdict) }
{
    let line = verdict_line(alloc, verdict)?;
    let status = match verdict {
        Verdict::Yes => DONE,
        Verdict::No { .. } => NOT_ALL_DONE,
    };
    let mut answer = Answer::new(alloc, status, line.into_bytes());
    say_why(&mut answer.notes, read, verdict);
    Ok(answer)
}

/// Says what of a transcript does not fit, where its verdict is that.
fn say_why(notes: &mut Notes, read: &Audited<'_>, verdict: Verdict)
    requires { CanBeAudited read.now.session read.now.steps.items }
{
    if let Verdict::No { line, why } = verdict {
        let judged = Judged {
            session: &read.session,
            steps: read.steps.as_slice(),
            transcript: read.transcript,
        };
        notes.begin_text();
        say_verdict(notes, judged, line, why);
    }
}

/// The answer to an input that is refused: the line of the refusal, and `REFUSED`.
pub fn refused_input(alloc: Global, refusal: &AuditRefusal) -> Result<Answer, NoMemory>
    ensures status { IfOk result (λ answer. answer.status ≡ refused_status) }
    ensures text { IfOk result (λ answer. answer.text.items ≡ lines.refusal_line refusal.now) }
{
    let line = refusal.line(alloc)?;
    Ok(Answer::new(alloc, REFUSED, line.into_bytes()))
}
