//! The values that a document gives to registers.

ghost use Rattle.std.specs.Prelude.{◌≡◌, ◌++◌, [], IfOk, OnOk, IfErr, option_map, option_to_list};
ghost use Rattle.std.specs.Option.{option_map_or};
ghost use Rattle.toml.specs.Data.{as_table};
ghost use Rattle.toml.specs.View.{view, table_view};
ghost use Rattle.config_store.specs.declared.refusal.StoreRefusal.TheVariants.{At};
ghost use Rattle.config_store.specs.declared.refusal.StoreWhy.TheVariants.{Shape};
ghost use Rattle.config_store.specs.Order.{AreInOrder};
ghost use Rattle.config_store.specs.Refusals.{TellsFirst};
ghost use Rattle.config_store.specs.States as spec;

use crate::refusal::{StoreRefusal, StoreWhy, refused_at};
use crate::state::{State, StateEntry};
use address_table::number;
use ipb_base::Text;
use std::alloc::Global;
use toml::{Table, Value};

/// The values under the key `state` of a document (profile): a table of tables of numbers, by the names of boards and of
/// registers. Refused is the first place, in byte order of the boards and then of the registers, where there is no
/// table or no number.
pub fn read_state(alloc: Global, value: &Value) -> Result<State, StoreRefusal>
    ensures read { IfOk result (λ state. state ≡ spec.state_entries (view value.now)) }
    ensures ordered { IfOk result AreInOrder }
    ensures accepted { OnOk result (spec.shape_faults (view value.now) ≡ []) }
    ensures refused { IfErr result (TellsFirst (spec.shape_faults (view value.now))) }
{
    let mut entries = Vec::new(alloc);
    match value.as_table() {
        Some(boards) => push_boards(alloc, &mut entries, boards)?,
        None => return Err(refused_at(alloc, "", "", StoreWhy::Shape)),
    }
    Ok(State::from_vec(entries))
}

/// The refusal of a document that has no state (profile). It takes no memory.
pub fn missing_state(alloc: Global) -> StoreRefusal
    ensures { result ≡ At [] [] Shape }
{
    StoreRefusal::At {
        board: Text::from_string(String::new(alloc)),
        name: Text::from_string(String::new(alloc)),
        why: StoreWhy::Shape,
    }
}

/// The values for the registers of all boards.
fn push_boards(
    alloc: Global,
    entries: &mut Vec<StateEntry>,
    boards: &Table,
) -> Result<(), StoreRefusal>
    ensures read { OnOk result (entries.new.items
        ≡ entries.old.items ++ spec.boards_entries (table_view boards.now)) }
    ensures ordered { OnOk result (AreInOrder (spec.boards_entries (table_view boards.now))) }
    ensures none { OnOk result (spec.board_faults (table_view boards.now) ≡ []) }
    ensures first { IfErr result (TellsFirst (spec.board_faults (table_view boards.now))) }
{
    for (board, value) in boards.iter() {
        push_board(alloc, entries, board.as_str(), value)?;
    }
    Ok(())
}

/// Adds the entries for the registers of one board.
fn push_board(
    alloc: Global,
    entries: &mut Vec<StateEntry>,
    board: &str,
    value: &Value,
) -> Result<(), StoreRefusal>
    ensures read { OnOk result (entries.new.items
        ≡ entries.old.items ++ spec.table_entries board.now (view value.now)) }
    ensures ordered { OnOk result (AreInOrder (spec.table_entries board.now (view value.now))) }
    ensures none { OnOk result (spec.table_faults board.now (view value.now) ≡ []) }
    ensures first { IfErr result (TellsFirst (spec.table_faults board.now (view value.now))) }
{
    match value.as_table() {
        Some(registers) => push_registers(alloc, entries, board, registers),
        None => Err(refused_at(alloc, board, "", StoreWhy::Shape)),
    }
}

fn push_registers(
    alloc: Global,
    entries: &mut Vec<StateEntry>,
    board: &str,
    registers: &Table,
) -> Result<(), StoreRefusal>
    ensures read { OnOk result (entries.new.items
        ≡ entries.old.items ++ spec.board_entries board.now (table_view registers.now)) }
    ensures ordered { OnOk result (AreInOrder (spec.board_entries board.now (table_view registers.now))) }
    ensures none { OnOk result (spec.number_faults board.now (table_view registers.now) ≡ []) }
    ensures first { IfErr result (TellsFirst (spec.number_faults board.now (table_view registers.now))) }
{
    for (name, value) in registers.iter() {
        push_register(alloc, entries, board, name.as_str(), value)?;
    }
    Ok(())
}

/// The value for a register.
fn push_register(
    alloc: Global,
    entries: &mut Vec<StateEntry>,
    board: &str,
    name: &str,
    value: &Value,
) -> Result<(), StoreRefusal>
    ensures read { OnOk result (entries.new.items
        ≡ entries.old.items ++ spec.number_entries board.now name.now (view value.now)) }
    ensures none { OnOk result (spec.number_fault board.now name.now (view value.now) ≡ []) }
    ensures first { IfErr result (TellsFirst (spec.number_fault board.now name.now (view value.now))) }
{
    let Some(value) = number(value) else {
        return Err(refused_at(alloc, board, name, StoreWhy::Shape));
    };
    let board = Text::copy_of(alloc, board)?;
    let name = Text::copy_of(alloc, name)?;
    entries.push(StateEntry { board, name, value })?;
    Ok(())
}
