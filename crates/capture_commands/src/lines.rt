//! The line of a refusal.

ghost use Rattle.std.specs.Prelude.{◌≡◌, ◌++◌, IfOk, codes, string_bytes};
ghost use Rattle.std.specs.Fmt.{decimal};
ghost use Rattle.capture_commands.specs.Lines as spec;

use crate::refusal::TextRefusal;
use capture_reader::CaptureWhy;
use ipb_base::NoMemory;
use std::alloc::Global;

impl TextRefusal {
    /// The line that tells the refusal, with its line feed.
    pub fn line(&self, alloc: Global) -> Result<String, NoMemory>
        ensures { IfOk result (λ text. string_bytes text ≡ spec.refusal_line self.now) }
    {
        match self {
            TextRefusal::LongCapture => Ok(String::from_str(
                alloc,
                "refused: capture - TooLong\n",
            )?),
            TextRefusal::Capture { line, why } => capture_line(alloc, *line, capture_rule(*why)),
            TextRefusal::LongDescription => {
                Ok(String::from_str(alloc, "refused: description - TooLong\n")?)
            }
            TextRefusal::NotDescription => {
                Ok(String::from_str(alloc, "refused: description - NotDescription\n")?)
            }
        }
    }
}

/// The name of a rule of lines.
fn capture_rule(why: CaptureWhy) -> &'static str
    ensures { result.now ≡ spec.capture_rule why }
{
    match why {
        CaptureWhy::First => "First",
        CaptureWhy::Form => "Form",
        CaptureWhy::Long => "Long",
    }
}

fn capture_line(alloc: Global, line: u64, rule: &str) -> Result<String, NoMemory>
    ensures { IfOk result (λ text. string_bytes text
        ≡ codes "refused: capture " ++ (decimal line ++ (codes " " ++ (rule.now ++ codes "\n")))) }
{
    Ok(format!(in alloc; "refused: capture {line} {rule}\n")?)
}
