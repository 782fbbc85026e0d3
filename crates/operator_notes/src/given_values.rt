//! Which registers do not show the values that `apply` was to write into them.

use crate::config_text::{BoardText, board_named};
use crate::keys::value_of;
use crate::unread::found;
use config_store::{State, StateEntry, read_state};
use note_lines::{Notes, OneLine};
use std::fmt;

/// What was written to the configuration of boards: the document with the values, and whether all was done that it
/// asked for.
#[derive(Clone, Copy)]
pub(crate) struct Applied<'a> {
    pub(crate) document: &'a [u8],
    pub(crate) is_all_done: bool,
}

/// What is said where a write was not done, and each register shows the value that it was given.
const NO_REGISTER: &str =
    "not done: one write or more, of registers that show the values given all the same";

/// Says of each board how many of its registers were given no value, and the registers to which a document gives a value
/// that the text of its configuration does not show: how many they are and the first ones by name, in the order in which
/// they were written. Such a write was not done, or its register was not read, or the board has changed the value since. A
/// write that was not done is not named where the register had the value before, or has it by a write that was executed
/// late: the board is as it was wanted then. Where none is counted, all registers were read and not all was done, that is
/// said.
pub(crate) fn say_given(
    notes: &mut Notes,
    applied: Applied<'_>,
    text: &[u8],
    boards: &[BoardText<'_>],
    is_all_read: bool,
) {
    let is_missed = is_all_read && !applied.is_all_done;
    if let Some(given) = state_in(notes, applied.document)
        && let Some(read) = state_in(notes, text)
    {
        say_counts_given(notes, boards, given.as_slice());
        let count = say_others(notes, boards, given.as_slice(), read.as_slice());
        if count == 0 && is_missed {
            notes.say(NO_REGISTER);
        }
    }
}

/// The values under the key `state` of a document, or of the text of a configuration.
fn state_in(notes: &mut Notes, bytes: &[u8]) -> Option<State> {
    let value = value_of(notes, bytes, "state")?;
    found(read_state(notes.alloc, &value), notes)
}

/// Says of each board some of whose registers were given no value how many were given one.
fn say_counts_given(notes: &mut Notes, boards: &[BoardText<'_>], given: &[StateEntry]) {
    for board in boards {
        let count = count_on(given, board.name);
        let registers = board.registers;
        if count < registers {
            let name = OneLine(board.name);
            notes.say(format_args!("board {name}: {count} of {registers} given"));
        }
    }
}

/// How many values are for a board.
fn count_on(given: &[StateEntry], board: &str) -> u32 {
    let mut count = 0u32;
    for entry in given {
        count = count.saturating_add(u32::from(entry.board.as_str() == board));
    }
    count
}

/// Says how many registers show another value than was given, or none, and names the first ones, but for those of boards
/// of which none was read. It says how many there are. Both lists are in byte order of the names.
fn say_others(
    notes: &mut Notes,
    boards: &[BoardText<'_>],
    given: &[StateEntry],
    read: &[StateEntry],
) -> u32 {
    let place = notes.count();
    let mut count = 0u32;
    let mut named = 0u32;
    let mut at = 0;
    for entry in given {
        at = first_from(read, at, entry);
        let value = value_at(read, at, entry);
        if value != Some(entry.value) {
            count = count.saturating_add(1);
            if !is_of_unread(boards, entry) {
                named = named.saturating_add(1);
                name_other(notes, named, entry, value);
            }
        }
    }
    notes.say_others(named);
    if count > 0 {
        notes.say(format_args!("not as given: {count}"));
        notes.put_behind(place);
    }
    count
}

/// Whether a value is for a board of which no register was read.
fn is_of_unread(boards: &[BoardText<'_>], entry: &StateEntry) -> bool {
    match board_named(boards, entry.board.as_str()) {
        Some(board) => board.is_unread(),
        None => false,
    }
}

/// The first place, from this one on, of a register that is not before another.
fn first_from(read: &[StateEntry], from: usize, entry: &StateEntry) -> usize {
    for place in from..read.len() {
        if !is_before(&read[place], entry) {
            return place;
        }
    }
    read.len()
}

/// Whether a register is before another, in byte order of the boards' names and then of the registers'.
fn is_before(one: &StateEntry, other: &StateEntry) -> bool {
    let (board, other_board) = (one.board.as_str(), other.board.as_str());
    board < other_board || board == other_board && one.name.as_str() < other.name.as_str()
}

/// The value of a register, if it stands at this place.
fn value_at(read: &[StateEntry], place: usize, entry: &StateEntry) -> Option<u32> {
    let found = read.get(place)?;
    let is_same = found.board.as_str() == entry.board.as_str()
        && found.name.as_str() == entry.name.as_str();
    if is_same { Some(found.value) } else { None }
}

/// Names a register, by its number among these, with the value that was read, if one was, and the one that was given.
fn name_other(notes: &mut Notes, number: u32, entry: &StateEntry, value: Option<u32>) {
    let board = OneLine(entry.board.as_str());
    let name = OneLine(entry.name.as_str());
    let read = Read(value);
    let given = entry.value;
    notes.name(
        number,
        format_args!("board {board}: \"{name}\" {read}, given 0x{given:08x}"),
    );
}

/// The value of a register, if it was read.
#[derive(Clone, Copy)]
struct Read(Option<u32>);

impl fmt::Display for Read {
    fn fmt<W: fmt::Write>(&self, f: &mut fmt::Formatter<W>) -> fmt::Result {
        match self.0 {
            Some(word) => write!(f, "= 0x{word:08x}"),
            None => f.write_str("not read"),
        }
    }
}
