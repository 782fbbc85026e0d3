//! The lines of a document in which a value stands.
//!
//! The parser tells no places of values. A document is cut behind each of its statements, and the first part that has the
//! value ends with the statement that gives it.

use crate::document_ways::{Way, value_at};
use crate::unread::found;
use ipb_base::NoMemory;
use note_lines::Notes;
use script_lang::{SessionRefusal, parse_document};
use std::alloc::Global;

/// Longer documents are not searched.
const MOST_SEARCHED: usize = 1 << 20;

/// Says in which line of a document, or from which to which, the statement stands that gives a value, by the way to it.
pub(crate) fn say_lines(notes: &mut Notes, bytes: &[u8], way: &[Way<'_>]) {
    if bytes.len() > MOST_SEARCHED {
        return;
    }
    if let Some(Some((from, to))) = found(statement_with(notes.alloc, bytes, way), notes) {
        let first = count_lines(&bytes[..from.min(bytes.len())]).saturating_add(1);
        let last = count_lines(&bytes[..to.min(bytes.len()).saturating_sub(1)]).saturating_add(1);
        if first == last {
            notes.say(format_args!("it stands in line {first} of the document"));
        } else {
            notes.say(format_args!("it stands in lines {first} to {last} of the document"));
        }
    }
}

fn count_lines(bytes: &[u8]) -> usize {
    let mut count = 0usize;
    for byte in bytes {
        count = count.saturating_add(usize::from(*byte == b'\n'));
    }
    count
}

/// Where the statement begins and ends that gives a value, if the document has it.
fn statement_with(
    alloc: Global,
    bytes: &[u8],
    way: &[Way<'_>],
) -> Result<Option<(usize, usize)>, SessionRefusal> {
    let ends = statement_ends(alloc, bytes)?;
    let mut low = 0;
    let mut high = ends.len();
    for _ in 0..usize::BITS {
        if low >= high {
            break;
        }
        let middle = low + (high - low) / 2;
        if has_value(alloc, front_of(bytes, ends.as_slice(), middle), way)? {
            high = middle;
        } else {
            low = middle + 1;
        }
    }
    let Some(end) = ends.get(low) else {
        return Ok(None);
    };
    let begin = match low {
        0 => 0,
        _ => front_of(bytes, ends.as_slice(), low - 1).len(),
    };
    Ok(Some((begin, *end)))
}

/// The front of a document, up to the end of a statement.
fn front_of<'a>(bytes: &'a [u8], ends: &[usize], statement: usize) -> &'a [u8] {
    match ends.get(statement) {
        Some(end) => bytes.get(..*end).unwrap_or(bytes),
        None => bytes,
    }
}

/// Whether the front of a document has a value.
fn has_value(alloc: Global, front: &[u8], way: &[Way<'_>]) -> Result<bool, SessionRefusal> {
    let document = parse_document(alloc, front)?;
    Ok(value_at(&document, way).is_some())
}

/// What the bytes of a document stand in.
#[derive(Clone, Copy, PartialEq, Eq)]
enum Inside {
    /// Words, numbers and signs.
    Plain,
    Comment,
    /// A text in quotes of this kind, and whether it may have several lines.
    Quotes { quote: u8, is_long: bool },
}

/// How a document is read, byte by byte: what the next byte stands in, how many brackets are open, and the first byte
/// that is not passed over.
#[derive(Clone, Copy)]
struct Reading {
    inside: Inside,
    open: u32,
    next: usize,
}

/// Where the statements of a document end, each behind a line feed, and the last one at the end of the document.
fn statement_ends(alloc: Global, bytes: &[u8]) -> Result<Vec<usize>, NoMemory> {
    let mut ends = Vec::new(alloc);
    let mut reading = Reading {
        inside: Inside::Plain,
        open: 0,
        next: 0,
    };
    for (i, byte) in bytes.iter().enumerate() {
        if i >= reading.next {
            reading = read_on(reading, bytes.get(i..).unwrap_or(&[]), i);
        }
        if *byte == b'\n' && reading.open == 0 && reading.inside == Inside::Plain {
            ends.push(i.saturating_add(1))?;
        }
    }
    if !bytes.ends_with(b"\n".as_slice()) {
        ends.push(bytes.len())?;
    }
    Ok(ends)
}

/// How a document is read behind its byte at this place, with which the rest begins.
fn read_on(reading: Reading, rest: &[u8], at: usize) -> Reading {
    match reading.inside {
        Inside::Plain => read_plain(reading, rest, at),
        Inside::Comment => match rest.first() {
            Some(b'\n') => Reading {
                inside: Inside::Plain,
                ..reading
            },
            _ => reading,
        },
        Inside::Quotes { quote, is_long } => read_quoted(reading, quote, is_long, rest, at),
    }
}

fn read_plain(reading: Reading, rest: &[u8], at: usize) -> Reading {
    match rest.first() {
        Some(b'#') => Reading {
            inside: Inside::Comment,
            ..reading
        },
        Some(b'[' | b'{') => Reading {
            open: reading.open.saturating_add(1),
            ..reading
        },
        Some(b']' | b'}') => Reading {
            open: reading.open.saturating_sub(1),
            ..reading
        },
        Some(quote @ (b'"' | b'\'')) => {
            let is_long = quotes_at(*quote, rest) >= 3;
            Reading {
                inside: Inside::Quotes {
                    quote: *quote,
                    is_long,
                },
                next: at.saturating_add(if is_long { 3 } else { 1 }),
                ..reading
            }
        }
        _ => reading,
    }
}

fn read_quoted(reading: Reading, quote: u8, is_long: bool, rest: &[u8], at: usize) -> Reading {
    if quote == b'"' && rest.starts_with(b"\\".as_slice()) {
        return Reading {
            next: at.saturating_add(2),
            ..reading
        };
    }
    let quotes = quotes_at(quote, rest);
    if quotes == 0 || is_long && quotes < 3 {
        return reading;
    }
    Reading {
        inside: Inside::Plain,
        next: at.saturating_add(if is_long { quotes } else { 1 }),
        ..reading
    }
}

/// How many of these quotes a text begins with, up to the five with which a text of several lines may end.
fn quotes_at(quote: u8, text: &[u8]) -> usize {
    let mut count = 0usize;
    for byte in text.iter().take(5) {
        if *byte != quote {
            return count;
        }
        count = count.saturating_add(1);
    }
    count
}
