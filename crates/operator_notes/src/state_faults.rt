//! What a state gives that is at fault, and where it stands in the document.

use crate::document_lines::say_lines;
use crate::document_ways::{Way, value_at};
use crate::shown_values::ShownValue;
use crate::unread::found;
use config_store::StoreWhy;
use ipb_base::NoMemory;
use note_lines::Notes;
use script_lang::parse_document;
use std::alloc::Global;
use toml::Value;

/// Says of a value of a state that breaks a rule what it is, where that is at fault, and in which lines it stands. There
/// is no name where the table of a board is at fault, and no board where the state is.
pub(crate) fn say_given(notes: &mut Notes, board: &str, name: &str, why: StoreWhy, bytes: &[u8]) {
    let Some(document) = found(parse_document(notes.alloc, bytes), notes) else {
        return;
    };
    let Some(way) = notes.made(way_of(notes.alloc, board, name)) else {
        return;
    };
    let way = way.as_slice();
    match (value_at(&document, way), why) {
        (Some(value), StoreWhy::Shape) => {
            say_shape(notes, value, way);
            say_lines(notes, bytes, way);
        }
        (None, StoreWhy::Shape) => notes.say("the document has no state"),
        (Some(_), StoreWhy::UnknownName | StoreWhy::NotKept | StoreWhy::BitsOutside) => {
            say_lines(notes, bytes, way);
        }
        _ => {}
    }
}

/// Says what a value is, and what belongs in its place.
fn say_shape(notes: &mut Notes, value: &Value, way: &[Way<'_>]) {
    let shown = ShownValue(value);
    let wanted = match way.len() {
        1 => "a table of boards",
        2 => "a table of registers",
        _ => "a number of 32 bits",
    };
    notes.say(format_args!("it is {shown}, and here belongs {wanted}"));
}

/// The way to the value of a register, to the table of a board, or to the state.
fn way_of<'a>(alloc: Global, board: &'a str, name: &'a str) -> Result<Vec<Way<'a>>, NoMemory> {
    let mut way = Vec::new(alloc);
    way.push(Way::Key("state"))?;
    if !board.is_empty() {
        way.push(Way::Key(board))?;
    }
    if !name.is_empty() {
        way.push(Way::Key(name))?;
    }
    Ok(way)
}
