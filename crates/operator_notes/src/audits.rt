//! What to look for in an input that is not audited.

use crate::refusals::say_refusal;
use crate::sentences::{LONG_AUDIT, NO_LENGTH, NOT_AUDITED};
use crate::unread::Refused;
use audit_command::{AuditRefusal, AuditUnread};
use ipb_base::number_in_text;
use note_lines::Notes;
use session_input::Refusal;

impl Refused for AuditUnread {
    fn say(&self, notes: &mut Notes, input: &[u8]) {
        match self {
            AuditUnread::Refused(AuditRefusal::NoLength) => notes.say(NO_LENGTH),
            AuditUnread::Refused(AuditRefusal::OfSession(refusal)) => match refusal {
                Refusal::TooLong => notes.say(LONG_AUDIT),
                Refusal::NotSim { name } => notes.say_of("board", name.as_str(), NOT_AUDITED),
                _ => say_refusal(notes, refusal, document_in(input)),
            },
            AuditUnread::NoMemory => notes.lack_memory(),
        }
    }
}

/// The document of an input, behind the line that tells its length. It is empty where the input has none.
fn document_in(bytes: &[u8]) -> &[u8] {
    let Some(end) = bytes.iter().position(|byte| *byte == b'\n') else {
        return &[];
    };
    let Some(length) = number_in_text(&bytes[..end]) else {
        return &[];
    };
    let rest = &bytes[end + 1..];
    rest.get(..length as usize).unwrap_or(rest)
}
