//! The text of a configuration, board by board.

use ipb_base::NoMemory;
use std::alloc::Global;

/// What the text of a configuration has of a board.
#[derive(Clone, Copy)]
pub(crate) struct BoardText<'a> {
    pub(crate) name: &'a str,
    /// A line for each register that is kept.
    pub(crate) lines: &'a str,
    /// How many registers are kept.
    pub(crate) registers: u32,
    /// How many of them were not read.
    pub(crate) missing: u32,
}

impl BoardText<'_> {
    /// Whether there are several registers, and none of them was read, as where the board does not answer.
    pub(crate) fn is_unread(&self) -> bool {
        self.missing > 1 && self.missing == self.registers
    }
}

/// The boards of a text, in its order.
pub(crate) fn boards_in(alloc: Global, text: &str) -> Result<Vec<BoardText<'_>>, NoMemory> {
    let mut boards = Vec::new(alloc);
    // no name of a board or a register has this in it
    for part in text.split("[state.").skip(1) {
        boards.push(board_in(part))?;
    }
    Ok(boards)
}

/// The board of a part of a text, behind the first words of its heading.
fn board_in(part: &str) -> BoardText<'_> {
    let (name, lines) = part.split_once("]\n").unwrap_or((part, ""));
    let mut registers = 0u32;
    let mut missing = 0u32;
    for line in lines.split('\n') {
        registers = registers.saturating_add(u32::from(!line.is_empty()));
        missing = missing.saturating_add(u32::from(unread_in(line).is_some()));
    }
    BoardText {
        name,
        lines,
        registers,
        missing,
    }
}

/// The register that a line says was not read, with what came of its read.
pub(crate) fn unread_in(line: &str) -> Option<&str> {
    line.strip_prefix("# ")
}

/// The board of a name, if the text has it.
pub(crate) fn board_named<'a>(boards: &[BoardText<'a>], name: &str) -> Option<BoardText<'a>> {
    for board in boards {
        if board.name == name {
            return Some(*board);
        }
    }
    None
}
