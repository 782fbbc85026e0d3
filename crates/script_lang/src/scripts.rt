//! The scripts of a document, whose lines are moved out of it: each stays in the memory that it was read into.

ghost use Rattle.std.specs.Prelude.{◌≡◌, IfOk, map, option_map, option_and_then};
ghost use Rattle.toml.specs.Data.{as_array, as_str, as_table, get_member};
ghost use Rattle.toml.specs.View.{array_view, table_view, view};
ghost use Rattle.script_lang.specs.Fields.{items_at, tables_in, texts_in};
ghost use Rattle.script_lang.specs.Sessions as spec;

use crate::aside::take_key;
use crate::session::{Script, Scripts};
use ipb_base::{NoMemory, Text};
use std::alloc::Global;
use toml::value::Array;
use toml::{Table, Value};

/// The text that a value is.
fn into_text(value: Value) -> Option<Text>
    ensures { result ≡ as_str (view value) }
{
    match value {
        Value::String(text) => Some(Text::from_string(text)),
        _ => None,
    }
}

/// The table that a value is.
fn into_table(value: Value) -> Option<Table>
    ensures { option_map (λ members. table_view members) result ≡ as_table (view value) }
{
    match value {
        Value::Table(members) => Some(members),
        _ => None,
    }
}

/// The array that a value is.
fn into_array(value: Value) -> Option<Array>
    ensures { option_map (λ items. array_view items) result ≡ as_array (view value) }
{
    match value {
        Value::Array(items) => Some(items),
        _ => None,
    }
}

/// The array under a key.
fn some_array(members: Table, name: &str) -> Option<Array>
    ensures { option_map (λ items. array_view items) result
        ≡ option_and_then as_array (get_member name.now (table_view members)) }
{
    let mut members = members;
    into_array(take_key(&mut members, name)?)
}

/// The items of the array under a key, none where it is left out. The rest of the table is let go.
#[tactic(auto, using(crate::proofs::Values::values_of_view))]
fn into_items(alloc: Global, members: Table, name: &str) -> Array
    ensures { map view result.items ≡ items_at name.now (table_view members) }
{
    match some_array(members, name) {
        Some(items) => items,
        None => Vec::new(alloc),
    }
}

/// The lines of a client.
fn script(alloc: Global, items: Array) -> Result<Script, NoMemory>
    ensures { IfOk result (λ script. script ≡ texts_in (map view items.items)) }
{
    let mut lines = Vec::with_capacity(alloc, items.len())?;
    for item in items {
        if let Some(line) = into_text(item) {
            lines.push(line)?;
        }
    }
    Ok(Script::from_vec(lines))
}

/// The scripts of a document's clients.
pub(crate) fn scripts(alloc: Global, document: Table) -> Result<Scripts, NoMemory>
    ensures { IfOk result (λ scripts. scripts ≡ spec.scripts_of (table_view document)) }
{
    each_script(alloc, into_items(alloc, document, "client"))
}

fn each_script(alloc: Global, items: Array) -> Result<Scripts, NoMemory>
    ensures { IfOk result (λ scripts. scripts ≡ tables_in spec.script_of (map view items.items)) }
{
    let mut scripts = Vec::with_capacity(alloc, items.len())?;
    for item in items {
        if let Some(members) = into_table(item) {
            scripts.push(script(alloc, into_items(alloc, members, "script"))?)?;
        }
    }
    Ok(Scripts::from_vec(scripts))
}
