//! Statuses, and the texts that go with them.

ghost use Rattle.std.specs.Prelude.{◌≡◌, if◌then◌else◌, IfOk};
ghost use Rattle.session_input.specs.Lines.{refusal_line};
ghost use Rattle.command_terms.specs.Numbers as spec;

use ipb_base::NoMemory;
use note_lines::Notes;
use session_input::Refusal;
use std::alloc::Global;

/// The text was written whole, and all that it tells went well: each operation shows its value, `done` or `was`, no
/// registers overlap, and the client of each connection ended it behind a whole frame.
pub const DONE: u8 = 0;
/// The text was written whole, and tells of an operation that was not done, of registers that overlap, or of a
/// connection that ended otherwise.
pub const NOT_ALL_DONE: u8 = 1;
/// The words are no command; the usage line was written.
pub const USAGE: u8 = 2;
/// The input was refused; one line that says why was written.
pub const REFUSED: u8 = 3;
/// The input could not be read; nothing was written.
pub const READ_FAULT: u8 = 4;
/// The output could not be written; a part of the text was.
pub const WRITE_FAULT: u8 = 5;
/// Memory ran out; nothing was written.
pub const NO_MEMORY: u8 = 6;
/// A link to a board could not be made; nothing was written.
pub const RACK_FAULT: u8 = 7;
/// A port could not be listened to, or a connection not be accepted; nothing was written.
pub const DOOR_FAULT: u8 = 8;

/// A status of the program, and the text that goes with it (profile).
#[derive(Drop)]
pub struct Answer {
    /// `DONE`, `NOT_ALL_DONE` or `REFUSED`.
    pub status: u8,
    pub text: Vec<u8>,
    /// What is said beside the text on standard error. No clause speaks of it.
    pub notes: Notes,
}

impl Answer {
    /// An answer beside which nothing is said. It takes no memory.
    pub fn new(alloc: Global, status: u8, text: Vec<u8>) -> Answer
        ensures status { result.status ≡ status }
        ensures text { result.text ≡ text }
    {
        Answer {
            status,
            text,
            notes: Notes::new(alloc),
        }
    }
}

/// The status of a text that was made, by whether all that it tells went well (profile).
pub fn done_status(all: bool) -> u8
    ensures status { result ≡ spec.told_status all }
{
    if all { DONE } else { NOT_ALL_DONE }
}

/// The answer to a document that is refused (profile): the line of the refusal, and `REFUSED`.
pub fn refused(alloc: Global, refusal: Refusal) -> Result<Answer, NoMemory>
    ensures status { IfOk result (λ answer. answer.status ≡ spec.refused_status) }
    ensures text { IfOk result (λ answer. answer.text.items ≡ refusal_line refusal) }
{
    let line = refusal.line(alloc)?;
    Ok(Answer::new(alloc, REFUSED, line.into_bytes()))
}
