//! The check of a document: the first faulty place.

ghost use Rattle.std.specs.Prelude.{◌≡◌, [], OnOk, IfErr};
ghost use Rattle.ipb_base.specs.Digits.{is_between};
ghost use Rattle.address_table.specs.Numbers.{number as number_of};
ghost use Rattle.address_table.specs.Rules.{holds_of};
ghost use Rattle.toml.specs.View.{view, array_view, table_view};
ghost use Rattle.script_lang.specs.Forms.{form_keys};
ghost use Rattle.script_lang.specs.Reading.{TellsFirst};
ghost use Rattle.script_lang.specs.Walk as spec;

use crate::keys::{Form, ItemKind, Kind, TableKind, first_missing, form_of, kind_at};
use crate::steps::{Misfit, below_item, below_key, check, misfit_here};
use crate::texts::keeps_rule;
use address_table::{is_id, number};
use std::alloc::Global;
use toml::value::Array;
use toml::{Table, Value};

/// Whether a value is a number between two others.
fn is_number_between(value: &Value, least: u32, most: u32) -> bool
    ensures { result ≡ holds_of (is_between least most) (number_of (view value.now)) }
{
    match number(value) {
        Some(found) => least <= found && found <= most,
        None => false,
    }
}

/// A table whose keys are to be ids.
fn check_names(alloc: Global, value: &Value) -> Result<(), Misfit>
    ensures none { OnOk result (spec.name_table_faults (view value.now) ≡ []) }
    ensures first { IfErr result (TellsFirst (spec.name_table_faults (view value.now))) }
{
    match value.as_table() {
        Some(members) => check_each_name(alloc, members),
        None => Err(misfit_here(alloc)),
    }
}

fn check_each_name(alloc: Global, members: &Table) -> Result<(), Misfit>
    ensures none { OnOk result (spec.names_faults (table_view members.now) ≡ []) }
    ensures first { IfErr result (TellsFirst (spec.names_faults (table_view members.now))) }
{
    for (name, _value) in members.iter() {
        if !is_id(name.as_bytes()) {
            return Err(below_key(alloc, name.as_str(), misfit_here(alloc)));
        }
    }
    Ok(())
}

/// The needed keys of a table.
fn check_missing(alloc: Global, form: Form, members: &Table) -> Result<(), Misfit>
    ensures none { OnOk result (spec.missing (form_keys form) (table_view members.now) ≡ []) }
    ensures first { IfErr result (TellsFirst (spec.missing (form_keys form) (table_view members.now))) }
{
    match first_missing(form, members) {
        Some(name) => Err(below_key(alloc, name, misfit_here(alloc))),
        None => Ok(()),
    }
}

/// A value under a key, judged by what may stand there.
#[cycle(walk)]
fn check_value(alloc: Global, kind: Option<Kind>, value: &Value) -> Result<(), Misfit>
    ensures none { OnOk result (spec.value_faults kind (view value.now) ≡ []) }
    ensures first { IfErr result (TellsFirst (spec.value_faults kind (view value.now))) }
{
    match kind {
        None => Err(misfit_here(alloc)),
        Some(Kind::Number(least, most, _)) => check(alloc, is_number_between(value, least, most)),
        Some(Kind::Text(rule)) => check(alloc, keeps_rule(rule, value)),
        Some(Kind::Names) => check_names(alloc, value),
        Some(Kind::Array(item)) => match value.as_array() {
            Some(items) => check_items(alloc, item, items),
            None => Err(misfit_here(alloc)),
        },
    }
}

/// The items of an array.
#[cycle(walk)]
fn check_items(alloc: Global, kind: ItemKind, items: &Array) -> Result<(), Misfit>
    ensures none { OnOk result (spec.items_faults kind 0 (array_view items.now) ≡ []) }
    ensures first { IfErr result (TellsFirst (spec.items_faults kind 0 (array_view items.now))) }
{
    for (i, item) in items.iter().enumerate() {
        match check_item(alloc, kind, item) {
            Ok(()) => {}
            Err(misfit) => return Err(below_item(i as u64, misfit)),
        }
    }
    Ok(())
}

#[cycle(walk)]
fn check_item(alloc: Global, kind: ItemKind, value: &Value) -> Result<(), Misfit>
    ensures none { OnOk result (spec.item_faults kind (view value.now) ≡ []) }
    ensures first { IfErr result (TellsFirst (spec.item_faults kind (view value.now))) }
{
    match kind {
        ItemKind::Number => check(alloc, number(value).is_some()),
        ItemKind::Text => check(alloc, value.as_str().is_some()),
        ItemKind::Table(kind) => match value.as_table() {
            Some(members) => check_table(alloc, form_of(kind, members), members),
            None => Err(misfit_here(alloc)),
        },
    }
}

/// The keys of a table that are there, and then those that are missing.
#[cycle(walk)]
pub(crate) fn check_table(alloc: Global, form: Form, members: &Table) -> Result<(), Misfit>
    ensures none { OnOk result (spec.table_faults (form_keys form) (table_view members.now) ≡ []) }
    ensures first { IfErr result (TellsFirst (spec.table_faults (form_keys form) (table_view members.now))) }
{
    check_keys(alloc, form, members)?;
    check_missing(alloc, form, members)
}

#[cycle(walk)]
fn check_keys(alloc: Global, form: Form, members: &Table) -> Result<(), Misfit>
    ensures none { OnOk result (spec.keys_faults (form_keys form) (table_view members.now) ≡ []) }
    ensures first { IfErr result (TellsFirst (spec.keys_faults (form_keys form) (table_view members.now))) }
{
    for (name, value) in members.iter() {
        match check_value(alloc, kind_at(form, name.as_str()), value) {
            Ok(()) => {}
            Err(misfit) => return Err(below_key(alloc, name.as_str(), misfit)),
        }
    }
    Ok(())
}
