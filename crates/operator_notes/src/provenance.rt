//! Where the program comes from, as the file beside it says.

use ipb_base::NoMemory;
use note_lines::{Notes, OneLine};
use std::alloc::Global;
use std::str;

/// The file that says what was proved of the program.
#[derive(Clone, Copy)]
pub enum Provenance<'a> {
    /// The bytes of the file.
    Told(&'a [u8]),
    /// No such file could be read.
    Unread,
    /// The file is longer than such a file is.
    TooLong,
}

/// The most bytes of such a file.
pub const MAX_PROVENANCE: usize = 4096;

/// What standard error says of the file, line by line. Fails where there is not enough memory for it.
pub fn provenance_notes(alloc: Global, told: Provenance<'_>) -> Result<Vec<String>, NoMemory> {
    let mut notes = Notes::new(alloc);
    match told {
        Provenance::Told(bytes) => match str::from_utf8(bytes) {
            Ok(text) => say_lines(&mut notes, text),
            Err(_) => notes.say("the file that says what was proved is no text"),
        },
        Provenance::Unread => {
            notes.say("what was proved of this program is not known: no file beside it says so");
        }
        Provenance::TooLong => notes.say(
            "the file that says what was proved is too long to be one",
        ),
    }
    notes.finish()
}

fn say_lines(notes: &mut Notes, text: &str) {
    for line in text.split('\n') {
        if !line.is_empty() {
            notes.say(OneLine(line));
        }
    }
}
