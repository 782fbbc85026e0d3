//! Whether ranks of tables rise along modules.
ghost use Rattle.std.specs.Prelude.{◌≡◌, ◌<◌, ◌+◌, IsTrue};
ghost use Rattle.std.specs.FinMap as finite;
ghost use Rattle.address_table.specs.declared.nodes.Node.{out-Node};
ghost use Rattle.node_tree.specs.Maps.{Name, nodes_of as table_nodes};
ghost use Rattle.node_tree.specs.CycleSearch.{IsRanked, AllRanked, AreRising, IsBelowModules};

use crate::Tables;
use crate::name_map::NameMap;
use crate::walking::nodes_of;
use address_table::Node;

/// Whether no table has a rank above that of a module of its nodes, and all modules of tables with a rank have one.
pub(super) fn are_rising(tables: &Tables, ranks: &NameMap<u64>) -> bool
    ensures { IsTrue result → AreRising tables.now ranks.now }
{
    for (name, table) in tables.entries() {
        if let Some(rank) = ranks.get(name.as_str()) {
            if !all_ranked(ranks, *rank, &table.nodes) {
                return false;
            }
        }
    }
    true
}

/// Whether a table has a rank below those of all its modules.
pub(super) fn is_below_modules(tables: &Tables, ranks: &NameMap<u64>, name: &str) -> bool
    ensures { IsTrue result → IsBelowModules tables.now ranks.now name.now }
{
    let Some(rank) = ranks.get(name) else {
        return false;
    };
    let Some(least) = rank.checked_add(1) else {
        return false;
    };
    all_ranked(ranks, least, nodes_of(tables, name))
}

/// Whether each module of the nodes, at any depth, has a rank of at least `least`.
fn all_ranked(ranks: &NameMap<u64>, least: u64, nodes: &[Node]) -> bool
    ensures { IsTrue result → AllRanked ranks.now least nodes.now }
{
    for node in nodes {
        if !is_ranked(ranks, least, node) {
            return false;
        }
        if !all_ranked(ranks, least, &node.nodes) {
            return false;
        }
    }
    true
}

/// Whether the module of a node, if the node has one, has a rank of at least `least`.
fn is_ranked(ranks: &NameMap<u64>, least: u64, node: &Node) -> bool
    ensures { IsTrue result → (m : Name) → (out-Node node.now).«module» ≡ Some m → IsRanked ranks.now least m }
{
    match &node.module {
        Some(name) => has_rank(ranks, least, name.as_str()),
        None => true,
    }
}

fn has_rank(ranks: &NameMap<u64>, least: u64, name: &str) -> bool
    ensures { IsTrue result → IsRanked ranks.now least name.now }
{
    match ranks.get(name) {
        Some(rank) => *rank >= least,
        None => false,
    }
}
