//! The modules of nodes, and the first table with an unknown one.
ghost use Rattle.std.specs.Prelude.{MatchBool, MatchOption};
ghost use Rattle.node_tree.specs.Modules.{HasUnknown, NoTable, IsFirstTable, HasAll, LacksOne, HasOwn, LacksOwn};

use crate::Tables;
use crate::name_map::NameMap;
use address_table::Node;

/// The first table, by the bytes of its name, one of whose nodes names a module that is no table.
pub(crate) fn first_unknown(tables: &Tables) -> Option<&str>
    ensures { let unknown = HasUnknown tables.now in
        MatchOption result (NoTable tables.now unknown) (λ name. IsFirstTable tables.now unknown name.now) }
{
    for (name, table) in tables.entries() {
        if !has_modules(tables.by_name(), &table.nodes) {
            return Some(name.as_str());
        }
    }
    None
}

/// Whether a map has each module of the nodes, at any depth.
pub(crate) fn has_modules<V: Drop>(known: &NameMap<V>, nodes: &[Node]) -> bool
    ensures { MatchBool result (HasAll known.now nodes.now) (LacksOne known.now nodes.now) }
{
    for node in nodes {
        if !has_module(known, node) {
            return false;
        }
        if !has_modules(known, &node.nodes) {
            return false;
        }
    }
    true
}

/// Whether a map has the module of a node, if the node has one.
fn has_module<V: Drop>(known: &NameMap<V>, node: &Node) -> bool
    ensures { MatchBool result (HasOwn known.now node.now) (LacksOwn known.now node.now) }
{
    match &node.module {
        Some(name) => known.contains(name.as_str()),
        None => true,
    }
}
