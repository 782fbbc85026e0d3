//! What the parser says of a document that is no TOML.

use crate::sentences::of_document;
use note_lines::Notes;
use script_lang::DocWhy;
use std::str;

/// Says that a document is no TOML, and what the parser says of it, with the place of the fault.
pub(crate) fn say_no_toml(notes: &mut Notes, bytes: &[u8]) {
    notes.say(of_document(DocWhy::NotToml));
    match str::from_utf8(bytes) {
        Ok(text) => say_parser_fault(notes, text),
        Err(error) => say_fault(notes, bytes, error.valid_up_to(), "this is no UTF-8"),
    }
}

fn say_parser_fault(notes: &mut Notes, text: &str) {
    if let Err(error) = toml::table_from_str(notes.alloc, text) {
        match error.span() {
            Some(span) => say_fault(notes, text.as_bytes(), span.start, error.message()),
            None => notes.lack_memory(),
        }
    }
}

/// Says a fault that stands behind so many bytes.
fn say_fault(notes: &mut Notes, bytes: &[u8], count: usize, fault: &str) {
    let (line, column) = position_behind(&bytes[..count.min(bytes.len())]);
    notes.say(format_args!("line {line}, column {column}: {fault}"));
}

/// The line and the column, both from 1, of what comes behind these bytes. A column counts characters.
fn position_behind(front: &[u8]) -> (usize, usize) {
    let mut line = 1usize;
    let mut column = 1usize;
    for byte in front {
        if *byte == b'\n' {
            line = line.saturating_add(1);
            column = 1;
        } else if *byte & 0xc0 != 0x80 {
            column = column.saturating_add(1);
        }
    }
    (line, column)
}
