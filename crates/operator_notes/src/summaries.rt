//! What was written of the configuration of boards.

use crate::config_text::{BoardText, boards_in, unread_in};
use crate::given_values::{Applied, say_given};
use note_lines::{Notes, OneLine};
use std::str;

/// How many registers a text has, and how many of those that were not read are said one by one.
#[derive(Clone, Copy)]
struct Seen {
    registers: u32,
    missing: u32,
    named: u32,
}

/// Says how many registers of how many boards the text of a configuration has, and which of them were not read; and where
/// values were written before, which registers were given none, and which do not show them.
pub(crate) fn say_summary(notes: &mut Notes, text: &[u8], applied: Option<Applied<'_>>) {
    if let Ok(lines) = str::from_utf8(text)
        && let Some(boards) = notes.made(boards_in(notes.alloc, lines))
    {
        let is_all_read = say_registers(notes, boards.as_slice());
        if let Some(applied) = applied {
            say_given(notes, applied, text, boards.as_slice(), is_all_read);
        }
    }
}

/// Says how many registers the boards have, and which of them were not read. It says whether all were.
fn say_registers(notes: &mut Notes, boards: &[BoardText<'_>]) -> bool {
    let place = notes.count();
    let mut seen = Seen {
        registers: 0,
        missing: 0,
        named: 0,
    };
    for board in boards {
        seen.registers = seen.registers.saturating_add(board.registers);
        seen.missing = seen.missing.saturating_add(board.missing);
        if board.is_unread() {
            say_unread(notes, board);
        } else {
            seen.named = name_unread(notes, board, seen.named);
        }
    }
    notes.say_others(seen.named);
    say_counts(notes, boards.len(), seen);
    notes.put_behind(place);
    seen.missing == 0
}

/// Says of a board of which no register was read what came of the first one.
fn say_unread(notes: &mut Notes, board: &BoardText<'_>) {
    let name = OneLine(board.name);
    let registers = board.registers;
    let line = board.lines.split('\n').next().unwrap_or("");
    let first = OneLine(unread_in(line).unwrap_or(""));
    notes.say(format_args!(
        "board {name}: none of {registers} registers was read, the first: {first}"
    ));
}

/// Names the registers of a board that were not read, so many being named before. It says how many there are then.
fn name_unread(notes: &mut Notes, board: &BoardText<'_>, before: u32) -> u32 {
    let name = OneLine(board.name);
    let mut count = before;
    for line in board.lines.split('\n') {
        if let Some(register) = unread_in(line) {
            count = count.saturating_add(1);
            let register = OneLine(register);
            notes.name(count, format_args!("board {name}: {register}"));
        }
    }
    count
}

/// Says how many registers and boards there are.
fn say_counts(notes: &mut Notes, boards: usize, seen: Seen) {
    let Seen {
        registers,
        missing,
        named: _,
    } = seen;
    if missing == 0 {
        notes.say(format_args!("registers: {registers}, boards: {boards}"));
    } else {
        notes.say(format_args!("registers: {registers}, boards: {boards}; not read: {missing}"));
    }
}
