//! The tables that a table leads to.
ghost use Rattle.std.specs.Prelude.{◌≡◌, ◌⊎◌, IfOk};
ghost use Rattle.address_table.specs.declared.nodes.Node.{out-Node};
ghost use Rattle.node_tree.specs.Maps.{Name};
ghost use Rattle.node_tree.specs.Modules.{Mentions, Reaches, HasUnknown, NoTable, IsIn};
ghost use Rattle.node_tree.specs.CycleSearch.{names_of, OpensAll};

use crate::name_map::NameMap;
use crate::walking::nodes_of;
use crate::{NoMemory, Tables};
use address_table::Node;
use std::alloc::Global;

/// The tables that a table leads to, where all modules are tables.
pub(super) fn reached_from(
    alloc: Global,
    tables: &Tables,
    name: &str,
) -> Result<NameMap<()>, NoMemory>
    requires { NoTable tables.now (HasUnknown tables.now) }
    ensures all { IfOk result (λ reached. (m : Name) → Reaches tables.now name.now m → IsIn reached m) }
    ensures only { IfOk result (λ reached. (m : Name) → IsIn reached m → Reaches tables.now name.now m) }
{
    let mut reached = NameMap::new(alloc);
    let mut pending = Vec::new(alloc);
    reach_modules(alloc, &mut reached, &mut pending, nodes_of(tables, name))?;
    'reaching: while let Some(next) = pending.pop() {
        reach_modules(alloc, &mut reached, &mut pending, nodes_of(tables, next))?;
    }
    Ok(reached)
}

/// Puts the modules of the nodes, at any depth, into a set, and those that were not there into a list too.
fn reach_modules<'a>(
    alloc: Global,
    reached: &mut NameMap<()>,
    pending: &mut Vec<&'a str>,
    nodes: &'a [Node],
) -> Result<(), NoMemory>
    ensures { let before = names_of pending.old.items in
        let after = names_of pending.new.items in
        IfOk result (λ _. OpensAll reached.old reached.new before after (Mentions nodes.now)) }
{
    for node in nodes {
        reach_module(alloc, reached, pending, node)?;
        reach_modules(alloc, reached, pending, &node.nodes)?;
    }
    Ok(())
}

/// Puts the module of a node, if the node has one.
fn reach_module<'a>(
    alloc: Global,
    reached: &mut NameMap<()>,
    pending: &mut Vec<&'a str>,
    node: &'a Node,
) -> Result<(), NoMemory>
    ensures { let before = names_of pending.old.items in
        let after = names_of pending.new.items in
        IfOk result (λ _. OpensAll reached.old reached.new before after (λ m. (out-Node node.now).«module» ≡ Some m)) }
{
    if let Some(name) = &node.module {
        reach(alloc, reached, pending, name.as_str())?;
        return Ok(());
    }
    Ok(())
}

fn reach<'a>(
    alloc: Global,
    reached: &mut NameMap<()>,
    pending: &mut Vec<&'a str>,
    name: &'a str,
) -> Result<(), NoMemory>
    ensures { let before = names_of pending.old.items in
        let after = names_of pending.new.items in
        IfOk result (λ _. OpensAll reached.old reached.new before after (λ m. name.now ≡ m)) }
{
    if reached.contains(name) {
        return Ok(());
    }
    reached.insert(alloc, name, ())?;
    pending.push(name)?;
    Ok(())
}
