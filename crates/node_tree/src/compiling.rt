ghost use Rattle.std.specs.Prelude.{◌≡◌, ◌≤◌, [], IfOk, IfErr, OnOk};
ghost use Rattle.node_tree.specs.Limits.{most_nodes};
ghost use Rattle.std.specs.FinMap as map;
ghost use Rattle.node_tree.specs.Maps.{AreRegisters, AreValidTables};
ghost use Rattle.node_tree.specs.Names.{IsIndexOf};
ghost use Rattle.node_tree.specs.Modules.{ReachesItself, NoTable};
ghost use Rattle.node_tree.specs.Refusals.{AreKnown, KeepsRules, IsRefusal, Refuses};
ghost use Rattle.node_tree.specs.Repeats.{TellsRepeated};

use crate::check_modules::first_unknown;
use crate::cycles::first_cycle;
use crate::name_map::NameMap;
use crate::walking::{Fault, Found, Level, Walker, nodes_of};
use crate::{CompileRefusal, CompileWhy, Index, NoMemory, Register, Tables};
use address_table::Text;
use std::alloc::Global;
use std::collections::BTreeMap;

/// The index of the registers that a table names (uHAL; at each index of a node with a count). The tables are compiled
/// exactly where they break no rule of `CompileWhy`, and then the index has the registers that the root names and no
/// others. Each mask and size fits its mode, and each register ends at an address of 32 bits. A refusal tells the first
/// rule that is broken, and where; one for a duplicate means that an earlier sibling of the node has its id.
pub fn compile(alloc: Global, tables: &Tables, root: &str) -> Result<Index, CompileRefusal>
    ensures names { IfOk result (λ index. IsIndexOf tables.now root.now index) }
    ensures only_if_kept { OnOk result (KeepsRules tables.now root.now) }
    ensures registers { IfOk result (λ index. AreRegisters index) }
    ensures refused { IfErr result (λ refusal. IsRefusal tables.now root.now refusal) }
    ensures repeated { IfErr result (λ refusal. TellsRepeated tables.now root.now refusal) }
{
    check_known(alloc, tables, root)?;
    check_acyclic(alloc, tables, root)?;
    let found = Found {
        names: NameMap::new(alloc),
        count: 0,
    };
    let mut walker = Walker { alloc, found };
    let top = Level { base: 0, ids: 1 };
    match walker.walk(tables, nodes_of(tables, root), "", top) {
        Ok(()) => Ok(index_of(alloc, walker.found)?),
        Err(Fault::At { name, why }) => Err(refused_at(alloc, root, name, why)),
        Err(Fault::NoMemory) => Err(CompileRefusal::NoMemory),
    }
}

/// Refuses unknown modules and an unknown root.
fn check_known(alloc: Global, tables: &Tables, root: &str) -> Result<(), CompileRefusal>
    ensures known { OnOk result (AreKnown tables.now root.now) }
    ensures valid { OnOk result (AreValidTables tables.now) }
    ensures refused { IfErr result (λ refusal. IsRefusal tables.now root.now refusal) }
{
    if let Some(name) = first_unknown(tables) {
        return Err(refused_table(alloc, name, CompileWhy::UnknownModule));
    }
    if !tables.by_name().contains(root) {
        return Err(refused_table(alloc, root, CompileWhy::UnknownModule));
    }
    Ok(())
}

/// Refuses a table that leads to itself.
fn check_acyclic(alloc: Global, tables: &Tables, root: &str) -> Result<(), CompileRefusal>
    requires { AreKnown tables.now root.now }
    ensures acyclic { OnOk result (NoTable tables.now (ReachesItself tables.now)) }
    ensures refused { IfErr result (λ refusal. IsRefusal tables.now root.now refusal) }
{
    match first_cycle(alloc, tables) {
        Ok(None) => Ok(()),
        Ok(Some(name)) => Err(refused_table(alloc, name, CompileWhy::ModuleCycle)),
        Err(NoMemory) => Err(CompileRefusal::NoMemory),
    }
}

/// A refusal of a table as a whole: its path is empty.
fn refused_table(alloc: Global, table: &str, why: CompileWhy) -> CompileRefusal
    ensures { Refuses table.now [] why result }
{
    let path = Text::from_string(String::new(alloc));
    refused_at(alloc, table, path, why)
}

/// A refusal of a place in a table.
fn refused_at(alloc: Global, table: &str, path: Text, why: CompileWhy) -> CompileRefusal
    ensures { Refuses table.now path why result }
{
    match Text::copy_of(alloc, table) {
        Ok(table) => CompileRefusal::At { table, path, why },
        Err(NoMemory) => CompileRefusal::NoMemory,
    }
}

/// The index of the registers that the walk found.
fn index_of(alloc: Global, found: Found) -> Result<Index, NoMemory>
    requires few { map.len found.names ≤ most_nodes }
    requires registers { AreRegisters found.names }
    ensures { IfOk result (λ index. index ≡ found.names) }
{
    let Found { names, count: _ } = found;
    let entries = entries_of(alloc, names.into_entries())?;
    Ok(Index::from_sorted(entries))
}

/// The entries of a map, in order.
fn entries_of(
    alloc: Global,
    names: BTreeMap<String, Register>,
) -> Result<Vec<(String, Register)>, NoMemory>
    ensures { IfOk result (λ list. list.items ≡ names.entries) }
{
    Ok(names.into_iter().collect(alloc)?)
}
