//! What to look for in the text of a capture, or in a description, that is refused.

use crate::sentences::{LONG_CAPTURE, LONG_DESCRIPTION, NO_DESCRIPTION, of_capture};
use crate::unread::Refused;
use capture_commands::{TextRefusal, Unread};
use capture_reader::{Capture, Caught, Id, Items, UndescribeRefusal, proved, undescribe};
use ipb_base::NoMemory;
use note_lines::Notes;
use std::alloc::Global;

impl Refused for Unread {
    fn say(&self, notes: &mut Notes, input: &[u8]) {
        match *self {
            Unread::Refused(TextRefusal::LongCapture) => notes.say(LONG_CAPTURE),
            Unread::Refused(TextRefusal::Capture { line, why }) => {
                notes.say_line(line, of_capture(why))
            }
            Unread::Refused(TextRefusal::LongDescription) => notes.say(LONG_DESCRIPTION),
            Unread::Refused(TextRefusal::NotDescription) => {
                notes.say(NO_DESCRIPTION);
                say_fault(notes, input);
            }
            Unread::NoMemory => notes.lack_memory(),
        }
    }
}

/// Says where a text begins to be no description.
fn say_fault(notes: &mut Notes, bytes: &[u8]) {
    let mut parts = Parts::none(notes.alloc);
    match notes.made(parts.take_all(notes.alloc, bytes)) {
        Some(true) => say_last_line(notes, parts),
        Some(false) => notes.say_line(parts.begin, "what stands here describes nothing"),
        None => {}
    }
}

/// Says what belongs behind the parts of a description.
fn say_last_line(notes: &mut Notes, parts: Parts) {
    let begin = parts.begin;
    let place = parts.proved();
    notes.say(format_args!("line {begin}: here belongs the last line, proved {place}"));
}

/// The parts of a description so far: the identifier of its first line, its datagrams, and the lines of the next part.
#[derive(Drop)]
struct Parts {
    first: Option<Id>,
    items: Vec<Caught>,
    /// The line, from 1, at which the next part begins.
    begin: u64,
    /// The description of the next part alone, so far.
    part: Vec<u8>,
}

impl Parts {
    fn none(alloc: Global) -> Parts {
        Parts {
            first: None,
            items: Vec::new(alloc),
            begin: 1,
            part: Vec::new(alloc),
        }
    }

    /// Takes the parts of a text, up to the last line of a description. It says whether they are parts of one.
    fn take_all(&mut self, alloc: Global, bytes: &[u8]) -> Result<bool, NoMemory> {
        let mut lines = 0u64;
        for line in bytes.split_inclusive(|byte| *byte == b'\n') {
            // what is indented belongs to the datagram before it
            let is_next = lines > 0 && !line.starts_with(b"  ".as_slice());
            if is_next && !self.take(alloc, lines)? {
                return Ok(false);
            }
            self.part.extend_from_slice(line)?;
            lines = lines.saturating_add(1);
        }
        self.take(alloc, lines)?;
        Ok(self.first.is_some())
    }

    /// Takes the part that ends behind so many lines. It says whether it is one: the first line, or the lines of a
    /// datagram.
    fn take(&mut self, alloc: Global, lines: u64) -> Result<bool, NoMemory> {
        // a datagram alone proves nothing
        self.part.extend_from_slice(b"proved 0\n")?;
        match undescribe(alloc, self.part.as_slice()) {
            Ok(found) => self.add(found, lines),
            Err(UndescribeRefusal::NotDescription) => Ok(false),
            Err(UndescribeRefusal::NoMemory) => Err(NoMemory),
        }
    }

    /// Adds what the part is that ends behind so many lines, and begins the next one.
    fn add(&mut self, found: Capture, lines: u64) -> Result<bool, NoMemory> {
        if self.first.is_none() {
            self.first = Some(found.first);
        }
        for item in found.items.into_vec() {
            self.items.push(item)?;
        }
        self.begin = lines.saturating_add(1);
        self.part.clear();
        self.part.extend_from_slice(b"first 1\n")?;
        Ok(true)
    }

    /// Up to which place the datagrams so far prove what a board has executed.
    fn proved(self) -> u64 {
        match self.first {
            Some(first) => proved(&Capture {
                first,
                items: Items::from_vec(self.items),
            }),
            None => 0,
        }
    }
}
