//! The lines of the scripts that save and apply a configuration.

ghost use Rattle.std.specs.Prelude.{◌≡◌, ◌++◌, [], length, map, codes, IfOk, OnOk, IfErr};
ghost use Rattle.std.specs.List.{flat_map};
ghost use Rattle.config_store.specs.Kept as kept;
ghost use Rattle.config_store.specs.Lines as spec;
ghost use Rattle.config_store.specs.Refusals as fault;

use crate::checking::check_entries;
use crate::kept::{Entry, kept_registers};
use crate::limits::MAX_KEPT;
use crate::overlapping::check_overlaps;
use crate::refusal::{StoreRefusal, StoreWhy, refused_at};
use crate::state::{State, StateEntry};
use board_specs::BoardSpec;
use ipb_base::{NoMemory, Text};
use node_tree::Index;
use script_lang::Session;
use std::alloc::Global;

/// The script that saves the configuration of a session's boards (profile), with an index for each board: a line that
/// reads each kept register, board by board in the order of the document, and in byte order of the names.
///
/// Refused is first the first board of which a kept register overlaps one before it, by the first such name, and then a
/// session whose boards keep more than `MAX_KEPT` registers together.
pub fn save_lines(
    alloc: Global,
    session: &Session,
    indexes: &[Index],
) -> Result<Vec<Text>, StoreRefusal>
    requires { length indexes.now ≡ length session.now.boards }
    ensures lines { IfOk result (λ lines. lines.items
        ≡ spec.save_lines (kept.kept_of (kept.indexed_boards session.now.boards indexes.now))) }
    ensures accepted { OnOk result
        (fault.keeping_faults (kept.indexed_boards session.now.boards indexes.now) ≡ []) }
    ensures refused { IfErr result
        (fault.TellsFirst (fault.keeping_faults (kept.indexed_boards session.now.boards indexes.now))) }
{
    let lines = reads(alloc, session.boards.as_slice(), indexes)?;
    if lines.len() > MAX_KEPT {
        return Err(refused_at(alloc, "", "", StoreWhy::TooMany));
    }
    Ok(lines)
}

/// The script that writes values and then saves the configuration of a session's boards (profile), with an index for each
/// board: a line that writes each value, in the state's order, a dispatch, and the lines of `save_lines`.
///
/// Refused is what `save_lines` refuses, and then the first value that breaks a rule.
pub fn apply_lines(
    alloc: Global,
    session: &Session,
    indexes: &[Index],
    state: &State,
) -> Result<Vec<Text>, StoreRefusal>
    requires { length indexes.now ≡ length session.now.boards }
    ensures lines { IfOk result (λ lines. lines.items ≡ spec.apply_lines state.now
        (kept.kept_of (kept.indexed_boards session.now.boards indexes.now))) }
    ensures accepted { OnOk result
        (fault.applying_faults (kept.indexed_boards session.now.boards indexes.now) state.now ≡ []) }
    ensures refused { IfErr result
        (fault.TellsFirst (fault.applying_faults (kept.indexed_boards session.now.boards indexes.now) state.now)) }
{
    let saves = save_lines(alloc, session, indexes)?;
    let entries = state.as_slice();
    check_entries(alloc, session.boards.as_slice(), indexes, entries)?;
    let mut lines = writes(alloc, entries)?;
    lines.push(Text::copy_of(alloc, "dispatch")?)?;
    push_all(&mut lines, saves)?;
    Ok(lines)
}

/// Puts lines behind others.
fn push_all(lines: &mut Vec<Text>, others: Vec<Text>) -> Result<(), NoMemory>
    ensures { OnOk result (lines.new.items ≡ lines.old.items ++ others.items) }
{
    for line in others {
        lines.push(line)?;
    }
    Ok(())
}

/// The lines that read the kept registers of all boards.
fn reads(alloc: Global, boards: &[BoardSpec], indexes: &[Index]) -> Result<Vec<Text>, StoreRefusal>
    requires { length indexes.now ≡ length boards.now }
    ensures lines { IfOk result (λ lines. lines.items
        ≡ spec.save_lines (kept.kept_of (kept.indexed_boards boards.now indexes.now))) }
    ensures none { OnOk result (flat_map fault.overlap_faults (kept.indexed_boards boards.now indexes.now) ≡ []) }
    ensures first { IfErr result
        (fault.TellsFirst (flat_map fault.overlap_faults (kept.indexed_boards boards.now indexes.now))) }
{
    let mut lines = Vec::new(alloc);
    for i in 0..boards.len() {
        push_board(alloc, &mut lines, &boards[i], &indexes[i])?;
    }
    Ok(lines)
}

/// Adds the lines of one board.
fn push_board(
    alloc: Global,
    lines: &mut Vec<Text>,
    board: &BoardSpec,
    index: &Index,
) -> Result<(), StoreRefusal>
    ensures lines { OnOk result (lines.new.items
        ≡ lines.old.items ++ spec.save_lines (kept.kept_on (board.now, index.now))) }
    ensures none { OnOk result (fault.overlap_faults (board.now, index.now) ≡ []) }
    ensures first { IfErr result (fault.TellsFirst (fault.overlap_faults (board.now, index.now))) }
{
    let board = board.name.as_str();
    let found = kept_registers(alloc, index)?;
    check_overlaps(alloc, board, found.as_slice())?;
    Ok(push_reads(alloc, lines, board, found.as_slice())?)
}

fn push_reads(
    alloc: Global,
    lines: &mut Vec<Text>,
    board: &str,
    found: &[Entry],
) -> Result<(), NoMemory>
    ensures { OnOk result (lines.new.items
        ≡ lines.old.items ++ spec.save_lines (map (kept.kept_register board.now) found.now)) }
{
    for entry in found {
        lines.push(read(alloc, board, entry.0.as_str())?)?;
    }
    Ok(())
}

fn read(alloc: Global, board: &str, name: &str) -> Result<Text, NoMemory>
    ensures { IfOk result (λ line. line ≡ spec.read_text board.now name.now) }
{
    Ok(Text::from_string(format!(in alloc; "read {board}:{name}")?))
}

/// The lines that write values, in their order.
fn writes(alloc: Global, entries: &[StateEntry]) -> Result<Vec<Text>, NoMemory>
    ensures { IfOk result (λ lines. lines.items ≡ map spec.write_line entries.now) }
{
    let mut lines = Vec::new(alloc);
    for entry in entries {
        lines.push(write(alloc, entry)?)?;
    }
    Ok(lines)
}

fn write(alloc: Global, entry: &StateEntry) -> Result<Text, NoMemory>
    ensures { IfOk result (λ line. line ≡ spec.write_line entry.now) }
{
    let board = entry.board.as_str();
    let name = entry.name.as_str();
    let value = entry.value;
    let line = format!(in alloc; "write {board}:{name} {value}")?;
    Ok(Text::from_string(line))
}
