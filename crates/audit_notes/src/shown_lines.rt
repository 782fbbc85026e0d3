//! A line of a transcript, as it is shown.

use memchr::memchr;
use note_lines::{MOST_SHOWN, Notes, OneLine};
use std::str;

/// The line of this number, from 1, with its line feed if it has one. None behind the end of the text.
pub(crate) fn line_at(text: &[u8], line: u32) -> Option<&[u8]> {
    let mut rest = text;
    for _ in 1..line {
        let end = memchr(b'\n', rest)?;
        rest = rest.get(end.saturating_add(1)..)?;
    }
    match memchr(b'\n', rest) {
        Some(end) => rest.get(..end.saturating_add(1)),
        None if rest.is_empty() => None,
        None => Some(rest),
    }
}

/// A line without its line feed. In the place of one that is no UTF-8 stands what it is.
pub(crate) fn shown_text(bytes: &[u8]) -> &str {
    let bytes = bytes.strip_suffix(b"\n".as_slice()).unwrap_or(bytes);
    str::from_utf8(bytes).unwrap_or("bytes that are no text")
}

/// Says a line of a transcript by its number and its text, and the places that it shows where it is cut before them.
pub(crate) fn say_line(notes: &mut Notes, line: u32, text: Option<&str>) {
    let Some(text) = text else {
        return notes.say_line(u64::from(line), "the transcript ends before it");
    };
    let shown = OneLine(text);
    notes.say(format_args!("line {line}: {shown}"));
    if is_cut(text)
        && let Some(places) = places_of(text)
    {
        let places = OneLine(places);
        notes.say(format_args!("the places of this line: {places}"));
    }
}

/// Whether a text is cut where it is shown.
pub(crate) fn is_cut(text: &str) -> bool {
    text.chars().nth(MOST_SHOWN).is_some()
}

/// The places that a line shows, as they are written.
pub(crate) fn places_of(line: &str) -> Option<&str> {
    let (_front, places) = line.rsplit_once(" @")?;
    Some(places)
}
