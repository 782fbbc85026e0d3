//! The first table that leads to itself through modules. Each table gets a rank that no module of it is below, so that a
//! table below all its modules does not lead to itself: accepted tables are gone through a few times and no more. Only
//! a table that shares its rank with a module is searched from.
ghost use Rattle.std.specs.Prelude.{◌≡◌, MatchBool, MatchOption, IfOk, IsTrue};
ghost use Rattle.node_tree.specs.Modules.{HasUnknown, ReachesItself, NoTable, IsFirstTable};
ghost use Rattle.node_tree.specs.CycleSearch.{AreRising};

mod ranking;
mod reaching;
mod rising;

use self::ranking::ranks_of;
use self::reaching::reached_from;
use self::rising::{are_rising, is_below_modules};
use crate::name_map::NameMap;
use crate::{NoMemory, Tables};
use std::alloc::Global;

/// The first table in byte order that leads to itself, where all modules are tables.
pub(crate) fn first_cycle<'a>(
    alloc: Global,
    tables: &'a Tables,
) -> Result<Option<&'a str>, NoMemory>
    requires { NoTable tables.now (HasUnknown tables.now) }
    ensures { let loops = ReachesItself tables.now in
        let found = IsFirstTable tables.now loops in
        IfOk result (λ first. MatchOption first (NoTable tables.now loops) (λ name. found name.now)) }
{
    let ranks = rising_ranks(alloc, tables)?;
    for (name, _table) in tables.entries() {
        let leads = leads_to_itself(alloc, tables, &ranks, name.as_str())?;
        if leads {
            return Ok(Some(name.as_str()));
        }
    }
    Ok(None)
}

/// Ranks of tables, none of which is above that of a module of its table. The proof rests on the look at the ranks and
/// not on the way to them; were they not as said, there would be none.
fn rising_ranks(alloc: Global, tables: &Tables) -> Result<NameMap<u64>, NoMemory>
    ensures { IfOk result (λ ranks. AreRising tables.now ranks) }
{
    let ranks = ranks_of(alloc, tables)?;
    if are_rising(tables, &ranks) {
        return Ok(ranks);
    }
    Ok(NameMap::new(alloc))
}

/// Whether a table leads to itself.
fn leads_to_itself(
    alloc: Global,
    tables: &Tables,
    ranks: &NameMap<u64>,
    name: &str,
) -> Result<bool, NoMemory>
    requires known { NoTable tables.now (HasUnknown tables.now) }
    requires rising { AreRising tables.now ranks.now }
    ensures { let loops = ReachesItself tables.now name.now in
        IfOk result (λ leads. MatchBool leads loops (loops → ⊥)) }
{
    if is_below_modules(tables, ranks, name) {
        return Ok(false);
    }
    let reached = reached_from(alloc, tables, name)?;
    if reached.contains(name) {
        return Ok(true);
    }
    Ok(false)
}
