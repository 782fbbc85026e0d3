//! The rules on boards: each compiles its table and has a bus.

ghost use Rattle.std.specs.Prelude.{◌≡◌, IfOk, IfErr, OnOk};
ghost use Rattle.std.specs.List.{AllByRecursion, AllZip};
ghost use Rattle.node_tree.specs.Refusals.{KeepsRules};
ghost use Rattle.node_tree.specs.Names.{IsIndexOf};
ghost use Rattle.session_input.specs.Deserved as spec;

use crate::refusal::{Refusal, Unread};
use board_bus::{BusRefusal, Range, check_ranges};
use board_specs::{BoardSpec, LinkSpec};
use ipb_base::{NoMemory, Text};
use node_tree::{CompileRefusal, Index, Tables, compile};
use std::alloc::Global;

/// The index of a table.
pub(crate) fn index_of(alloc: Global, tables: &Tables, root: &str) -> Result<Index, Unread>
    ensures index { IfOk result (λ index. IsIndexOf tables.now root.now index) }
    ensures kept { OnOk result (KeepsRules tables.now root.now) }
    ensures refused { IfErr result (spec.Tells (spec.TellsCompile tables.now root.now)) }
{
    match compile(alloc, tables, root) {
        Ok(index) => Ok(index),
        Err(CompileRefusal::At { table, path, why }) => {
            Err(Unread::Refused(Refusal::Compile { table, path, why }))
        }
        Err(CompileRefusal::NoMemory) => Err(Unread::NoMemory),
    }
}

/// The indexes of the boards' tables, in the boards' order (profile), or else the first rule that the first faulty table
/// breaks.
pub fn indexes_of(
    alloc: Global,
    tables: &Tables,
    boards: &[BoardSpec],
) -> Result<Vec<Index>, Unread>
    ensures compile { OnOk result (AllByRecursion (spec.Compiles tables.now) boards.now) }
    ensures indexes { IfOk result (λ indexes. AllZip (spec.HasIndex tables.now) boards.now indexes.items) }
    ensures refused { IfErr result (spec.Tells (spec.BreaksCompiling tables.now boards.now)) }
{
    let mut indexes = Vec::with_capacity(alloc, boards.len())?;
    for board in boards {
        indexes.push(index_of(alloc, tables, board.table.as_str())?)?;
    }
    Ok(indexes)
}

/// The ranges of a simulated board.
fn ranges_of(link: &LinkSpec) -> &[Range]
    ensures { result.now ≡ spec.ranges_of link.now }
{
    match link {
        LinkSpec::Sim { ranges, .. } => ranges.as_slice(),
        LinkSpec::Udp { .. } => &[],
    }
}

/// Whether the ranges of a board are a bus.
fn check_bus(alloc: Global, board: &BoardSpec) -> Result<(), Unread>
    ensures bus { OnOk result (spec.HasBus board.now) }
    ensures refused { IfErr result (spec.Tells (spec.TellsBus board.now)) }
{
    match check_ranges(alloc, ranges_of(&board.link)) {
        Ok(()) => Ok(()),
        Err(BusRefusal::NoMemory) => Err(Unread::NoMemory),
        Err(why) => {
            let name = Text::copy_of(alloc, board.name.as_str())?;
            Err(Unread::Refused(Refusal::Board { name, why }))
        }
    }
}

/// Whether the ranges of each board are a bus (profile); refused is the first board whose ranges are none.
pub fn check_buses(alloc: Global, boards: &[BoardSpec]) -> Result<(), Unread>
    ensures buses { OnOk result (AllByRecursion spec.HasBus boards.now) }
    ensures refused { IfErr result (spec.Tells (spec.TellsFirstBus boards.now)) }
{
    for board in boards {
        check_bus(alloc, board)?;
    }
    Ok(())
}
