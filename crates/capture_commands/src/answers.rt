//! What the commands on captures answer to the bytes of their input.

ghost use Rattle.std.specs.Prelude.{◌≡◌, [], IfOk};
ghost use Rattle.capture_reader.specs.CaptureText.{IsCapture};
ghost use Rattle.command_terms.specs.Numbers.{done_status, refused_status};
ghost use Rattle.command_terms.specs.Outside.{no_pairs};
ghost use Rattle.command_terms.specs.Terms.{Owes};
ghost use Rattle.capture_commands.specs.Lines.{refusal_line};
ghost use Rattle.capture_commands.specs.Terms as spec;

use crate::reading::{read_for_describe, read_for_undescribe};
use crate::refusal::{TextRefusal, Unread};
use capture_reader::{describe, write_capture};
use command_terms::{Answer, DONE, REFUSED};
use ipb_base::NoMemory;
use std::alloc::Global;

/// What `describe` answers to an input (profile): the description of the capture whose text it is, or the line of the
/// first rule that it breaks.
pub fn describe_answer(alloc: Global, bytes: &[u8]) -> Result<Answer, NoMemory>
    ensures owed { IfOk result (λ answer.
        Owes spec.describe_terms bytes.now (no_pairs []) answer.status answer.text.items) }
{
    match read_for_describe(alloc, bytes) {
        Ok(capture) => Ok(done(alloc, describe(alloc, &capture)?)),
        Err(Unread::Refused(refusal)) => refused_text(alloc, &refusal),
        Err(Unread::NoMemory) => Err(NoMemory),
    }
}

/// What `undescribe` answers to an input (profile): the text of the capture whose description it is, or the line of the
/// first rule that it breaks.
pub fn undescribe_answer(alloc: Global, bytes: &[u8]) -> Result<Answer, NoMemory>
    ensures owed { IfOk result (λ answer.
        Owes spec.undescribe_terms bytes.now (no_pairs []) answer.status answer.text.items) }
{
    match read_for_undescribe(alloc, bytes) {
        Ok(capture) => Ok(done(alloc, write_capture(alloc, &capture)?)),
        Err(Unread::Refused(refusal)) => refused_text(alloc, &refusal),
        Err(Unread::NoMemory) => Err(NoMemory),
    }
}

/// The answer with a text that was made.
fn done(alloc: Global, text: Vec<u8>) -> Answer
    ensures status { result.status ≡ done_status }
    ensures text { result.text ≡ text }
{
    Answer::new(alloc, DONE, text)
}

/// The answer to a text that is refused (profile): the line of the refusal, and `REFUSED`.
pub fn refused_text(alloc: Global, refusal: &TextRefusal) -> Result<Answer, NoMemory>
    ensures status { IfOk result (λ answer. answer.status ≡ refused_status) }
    ensures text { IfOk result (λ answer. answer.text.items ≡ refusal_line refusal.now) }
{
    let line = refusal.line(alloc)?;
    Ok(Answer::new(alloc, REFUSED, line.into_bytes()))
}
