//! Which register a kept one overlaps.

use crate::unread::found;
use address_table::{Mode, Permission};
use node_tree::{Index, Register, compile};
use note_lines::{Notes, OneLine};
use script_lang::{Session, parse_document, read_session_table, take_key};

/// Says the first kept register that shares a bit with a later one of its board.
pub(crate) fn say_overlapped(notes: &mut Notes, board: &str, name: &str, bytes: &[u8]) {
    if let Some(mut document) = found(parse_document(notes.alloc, bytes), notes) {
        take_key(&mut document, "policy");
        take_key(&mut document, "state");
        if let Some(session) = found(read_session_table(notes.alloc, document), notes) {
            say_in_session(notes, board, name, &session);
        }
    }
}

fn say_in_session(notes: &mut Notes, board: &str, name: &str, session: &Session) {
    for spec in session.boards.as_slice() {
        if spec.name.as_str() == board {
            let table = spec.table.as_str();
            if let Some(index) = found(compile(notes.alloc, &session.tables, table), notes) {
                say_in_index(notes, name, &index);
            }
            return;
        }
    }
}

fn say_in_index(notes: &mut Notes, name: &str, index: &Index) {
    let Some(register) = index.find(name) else {
        return;
    };
    for i in 0..index.len() {
        let (other, found) = index.at(i);
        if other == name {
            return;
        }
        if shares_bits(&found, &register) && is_kept(index, other, &found) {
            let name = OneLine(name);
            let other = OneLine(other);
            let address = register.address;
            return notes.say(format_args!(
                "{other} and {name} share a bit of the word at 0x{address:08x}"
            ));
        }
    }
}

fn shares_bits(one: &Register, other: &Register) -> bool {
    one.address == other.address && one.mask & other.mask != 0
}

/// Whether a register is kept: one word that is read and written, and none stands below its name.
fn is_kept(index: &Index, name: &str, register: &Register) -> bool {
    register.mode == Mode::Single
        && register.permission == Permission::Rw
        && !has_below(index, name)
}

fn has_below(index: &Index, name: &str) -> bool {
    for i in 0..index.len() {
        let (other, _register) = index.at(i);
        if let Some(rest) = other.strip_prefix(name)
            && rest.starts_with('.')
        {
            return true;
        }
    }
    false
}
