//! Copies of the texts of a node, and refusals at their places.
ghost use Rattle.std.specs.Prelude.{◌≡◌, ℕ, List, Option, Some, IsSome, IfOk, [], ◌∷◌, codes, option_map};
ghost use Rattle.toml.specs.View.{table_view};
ghost use Rattle.address_table.specs.declared.refusal.TableWhy.{TableWhy as Why};
ghost use Rattle.address_table.specs.Keys.{text_at as text_at_lem, module_at};
ghost use Rattle.address_table.specs.Tables.{IsFault};

use crate::keys::{has_key, text_at};
use crate::{NoMemory, Path, TableRefusal, TableWhy, Text};
use std::alloc::Global;
use toml::Table;

/// A copy of the text at a key, empty where the key is left out.
pub(crate) fn copy_at(alloc: Global, members: &Table, key: &str) -> Result<Text, NoMemory>
    requires { IsSome (text_at_lem key.now (table_view members.now)) }
    ensures { IfOk result (λ text. text_at_lem key.now (table_view members.now) ≡ Some text) }
{
    let text = text_at(members, key).unwrap_or("");
    Text::copy_of(alloc, text)
}

/// A copy of the name of the table whose nodes are the children.
pub(crate) fn copy_module(alloc: Global, members: &Table) -> Result<Option<Text>, NoMemory>
    requires { IsSome (text_at_lem (codes "module") (table_view members.now)) }
    ensures { IfOk result (λ name. module_at (table_view members.now) ≡ Some name) }
{
    if !has_key(members, "module") {
        return Ok(None);
    }
    Ok(Some(copy_at(alloc, members, "module")?))
}

/// A refusal of the value itself.
pub(crate) fn refused_here(alloc: Global, why: TableWhy) -> TableRefusal
    ensures { IsFault (Some ([], why)) result }
{
    TableRefusal::At {
        path: Path::from_vec(Vec::new(alloc)),
        why,
    }
}

/// A refusal of an item's node, or of one below it, as it stands from the array.
pub(crate) fn refused_below(position: u64, refusal: TableRefusal) -> TableRefusal
    ensures { (fault : Option (List ℕ × Why))
        → IsFault fault refusal
        → IsFault (option_map (λ f. (position ∷ f.0, f.1)) fault) result }
{
    match refusal {
        TableRefusal::At { path, why } => {
            let mut positions = path.into_vec();
            match positions.insert(0, position) {
                Ok(()) => TableRefusal::At {
                    path: Path::from_vec(positions),
                    why,
                },
                Err(_) => TableRefusal::NoMemory,
            }
        }
        TableRefusal::NoMemory => TableRefusal::NoMemory,
    }
}
