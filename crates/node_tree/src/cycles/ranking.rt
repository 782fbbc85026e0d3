//! Ranks of tables: those that lead to each other have one rank, which is below the ranks of all else that they lead
//! to. The search is Tarjan's for strongly connected components, in Pearce's form and without recursion: each table
//! is entered and left once. What is proved here is that it ends; what is rested on is looked at in `rising`.
ghost use Rattle.std.specs.Prelude.{◌≡◌, ◌≤◌, IfOk, IfSome, IsTrue};
ghost use Rattle.node_tree.specs.CycleSearch.{KeepsNames, RanksMore, IsNewTable};

use crate::name_map::NameMap;
use crate::walking::nodes_of;
use crate::{NoMemory, Tables};
use address_table::Node;
use std::alloc::Global;

/// What is left to do with a table.
#[derive(Clone, Copy)]
enum Step<'a> {
    /// It may not have been come to yet.
    Enter(&'a str),
    /// Its modules were gone through.
    Leave(&'a str),
}

/// The ranks so far. A table that was entered has the number of an entered table, at first its own; once all that it
/// leads to is known, it has a rank above these.
#[derive(Drop)]
struct Ranking<'a> {
    ranks: NameMap<u64>,
    /// How many tables were entered.
    entered: u64,
    /// The rank that the next table gets.
    next: u64,
    /// Tables that were left with the number of a table that was not left yet.
    pending: Vec<&'a str>,
}

/// Ranks of all tables, where all modules are tables.
pub(super) fn ranks_of(alloc: Global, tables: &Tables) -> Result<NameMap<u64>, NoMemory> {
    let mut steps = first_steps(alloc, tables)?;
    let mut ranking = Ranking {
        ranks: NameMap::new(alloc),
        entered: 0,
        next: u64::MAX - 1,
        pending: Vec::new(alloc),
    };
    rank_all(alloc, tables, &mut ranking, &mut steps)?;
    Ok(ranking.ranks)
}

/// Puts off all tables.
fn first_steps<'a>(alloc: Global, tables: &'a Tables) -> Result<Vec<Step<'a>>, NoMemory> {
    let mut steps = Vec::new(alloc);
    for (name, _table) in tables.entries() {
        steps.push(Step::Enter(name.as_str()))?;
    }
    Ok(steps)
}

/// Does what is left to do, until all tables that it comes to have ranks.
fn rank_all<'a>(
    alloc: Global,
    tables: &'a Tables,
    ranking: &mut Ranking<'a>,
    steps: &mut Vec<Step<'a>>,
) -> Result<(), NoMemory> {
    'entering: while let Some(name) = next_table(alloc, tables, ranking, steps)? {
        enter(alloc, ranking, name)?;
        steps.push(Step::Leave(name))?;
        push_modules(steps, nodes_of(tables, name))?;
    }
    Ok(())
}

/// Leaves tables up to the next one to be entered.
fn next_table<'a>(
    alloc: Global,
    tables: &Tables,
    ranking: &mut Ranking<'a>,
    steps: &mut Vec<Step<'a>>,
) -> Result<Option<&'a str>, NoMemory>
    ensures kept { IfOk result (λ _. KeepsNames ranking.old.ranks ranking.new.ranks) }
    ensures found { IfOk result (λ next. IfSome next (λ name. IsNewTable tables.now ranking.new.ranks name.now)) }
{
    'leaving: while let Some(step) = steps.pop() {
        match step {
            Step::Leave(name) => leave(alloc, tables, ranking, name)?,
            Step::Enter(name) => {
                if is_new(tables, &ranking.ranks, name) {
                    return Ok(Some(name));
                }
            }
        }
    }
    Ok(None)
}

/// Whether there is such a table, and it has no rank yet.
fn is_new(tables: &Tables, ranks: &NameMap<u64>, name: &str) -> bool
    ensures { IsTrue result → IsNewTable tables.now ranks.now name.now }
{
    match tables.get(name) {
        Some(_) => !ranks.contains(name),
        None => false,
    }
}

fn enter(alloc: Global, ranking: &mut Ranking, name: &str) -> Result<(), NoMemory>
    ensures { IfOk result (λ _. RanksMore ranking.old.ranks ranking.new.ranks name.now) }
{
    ranking.ranks.insert(alloc, name, ranking.entered)?;
    ranking.entered = ranking.entered.saturating_add(1);
    Ok(())
}

/// Keeps the least number that a table leads to; where that is its own, it is ranked with those that lead to it.
fn leave<'a>(
    alloc: Global,
    tables: &Tables,
    ranking: &mut Ranking<'a>,
    name: &'a str,
) -> Result<(), NoMemory>
    ensures { IfOk result (λ _. KeepsNames ranking.old.ranks ranking.new.ranks) }
{
    let own = rank_of(&ranking.ranks, name);
    let least = least_rank(&ranking.ranks, nodes_of(tables, name), own);
    if least == own {
        return rank_group(alloc, ranking, name, own);
    }
    ranking.ranks.insert(alloc, name, least)?;
    ranking.pending.push(name)?;
    Ok(())
}

/// Ranks a table, and with it the pending tables that were entered after it.
fn rank_group<'a>(
    alloc: Global,
    ranking: &mut Ranking<'a>,
    name: &'a str,
    own: u64,
) -> Result<(), NoMemory>
    ensures { IfOk result (λ _. KeepsNames ranking.old.ranks ranking.new.ranks) }
{
    rank_pending(alloc, ranking, own)?;
    ranking.ranks.insert(alloc, name, ranking.next)?;
    ranking.next = ranking.next.saturating_sub(1);
    Ok(())
}

/// Ranks the last pending tables that have a number from `own` on.
fn rank_pending(alloc: Global, ranking: &mut Ranking, own: u64) -> Result<(), NoMemory>
    ensures { IfOk result (λ _. KeepsNames ranking.old.ranks ranking.new.ranks) }
{
    'members: while let Some(member) = ranking.pending.pop() {
        if rank_of(&ranking.ranks, member) < own {
            ranking.pending.push(member)?;
            return Ok(());
        }
        ranking.ranks.insert(alloc, member, ranking.next)?;
    }
    Ok(())
}

/// The rank of a table; above all others where there is none.
fn rank_of(ranks: &NameMap<u64>, name: &str) -> u64 {
    match ranks.get(name) {
        Some(rank) => *rank,
        None => u64::MAX,
    }
}

/// The least of a rank and those of the modules of the nodes, at any depth.
fn least_rank(ranks: &NameMap<u64>, nodes: &[Node], least: u64) -> u64
    ensures { result ≤ least }
{
    let mut least = least;
    for node in nodes {
        if let Some(name) = &node.module {
            least = least.min(rank_of(ranks, name.as_str()));
        }
        least = least_rank(ranks, &node.nodes, least);
    }
    least
}

/// Puts off the modules of the nodes, at any depth.
fn push_modules<'a>(steps: &mut Vec<Step<'a>>, nodes: &'a [Node]) -> Result<(), NoMemory> {
    for node in nodes {
        if let Some(name) = &node.module {
            steps.push(Step::Enter(name.as_str()))?;
        }
        push_modules(steps, &node.nodes)?;
    }
    Ok(())
}
