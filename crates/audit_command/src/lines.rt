//! The lines that `audit` writes.

ghost use Rattle.std.specs.Prelude.{◌≡◌, ◌++◌, IfOk, codes, string_bytes};
ghost use Rattle.std.specs.Fmt.{decimal};
ghost use Rattle.audit_command.specs.Lines as spec;

use crate::refusal::AuditRefusal;
use ipb_base::NoMemory;
use run_audit::{AuditWhy, Verdict};
use std::alloc::Global;

impl AuditRefusal {
    /// The line that tells the refusal, with its line feed.
    pub fn line(&self, alloc: Global) -> Result<String, NoMemory>
        ensures { IfOk result (λ text. string_bytes text ≡ spec.refusal_line self.now) }
    {
        match self {
            AuditRefusal::NoLength => {
                Ok(String::from_str(alloc, "refused: document - NoLength\n")?)
            }
            AuditRefusal::OfSession(refusal) => refusal.line(alloc),
        }
    }
}

/// The line that tells a verdict, with its line feed.
pub fn verdict_line(alloc: Global, verdict: Verdict) -> Result<String, NoMemory>
    ensures { IfOk result (λ text. string_bytes text ≡ spec.verdict_line verdict) }
{
    match verdict {
        Verdict::Yes => Ok(String::from_str(alloc, "audit yes\n")?),
        Verdict::No { line, why } => no_line(alloc, line, audit_rule(why)),
    }
}

/// The name of a rule of transcripts.
fn audit_rule(why: AuditWhy) -> &'static str
    ensures { result.now ≡ spec.audit_rule why }
{
    match why {
        AuditWhy::Form => "Form",
        AuditWhy::Partial => "Partial",
        AuditWhy::Place => "Place",
        AuditWhy::Result => "Result",
        AuditWhy::Count => "Count",
    }
}

fn no_line(alloc: Global, line: u32, rule: &str) -> Result<String, NoMemory>
    ensures { IfOk result (λ text. string_bytes text
        ≡ codes "audit no " ++ (decimal line ++ (codes " " ++ (rule.now ++ codes "\n")))) }
{
    Ok(format!(in alloc; "audit no {line} {rule}\n")?)
}
