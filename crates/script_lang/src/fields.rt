//! What stands under the keys of a table.

ghost use Rattle.std.specs.Prelude.{◌≡◌, option_copied, option_map, option_and_then, map};
ghost use Rattle.address_table.specs.Rules as rule;
ghost use Rattle.ipb_base.specs.Digits.{is_between};
ghost use Rattle.address_table.specs.Numbers.{number as number_of};
ghost use Rattle.toml.specs.Data.{get_member, as_str, as_table, as_array};
ghost use Rattle.toml.specs.View.{view, table_view, array_view};
ghost use Rattle.script_lang.specs.Forms.{form_keys};
ghost use Rattle.script_lang.specs.Fields as spec;
ghost use Rattle.script_lang.specs.Keys as keys;
ghost use Rattle.script_lang.specs.Texts.{checked_value};

use crate::keys::{Form, Kind, kind_at};
use address_table::number;
use toml::value::Array;
use toml::{Table, Value};

/// The value under a key.
pub(crate) fn value_at<'a>(members: &'a Table, name: &str) -> Option<&'a Value>
    ensures { option_map (λ value. view value.now) result ≡ get_member name.now (table_view members.now) }
{
    members.get(name)
}

pub(crate) fn has_key(members: &Table, name: &str) -> bool
    ensures { result ≡ rule.has_key name.now (table_view members.now) }
{
    value_at(members, name).is_some()
}

/// The text under a key, if there is one.
fn some_text<'a>(members: &'a Table, name: &str) -> Option<&'a str>
    ensures { option_copied result ≡ option_and_then as_str (get_member name.now (table_view members.now)) }
{
    value_at(members, name)?.as_str()
}

/// The text under a key, empty where it is left out.
pub(crate) fn text_at<'a>(members: &'a Table, name: &str) -> &'a str
    ensures { result.now ≡ spec.text_at name.now (table_view members.now) }
{
    some_text(members, name).unwrap_or("")
}

/// Whether a board stands behind a UDP port.
pub(crate) fn is_udp(members: &Table) -> bool
    ensures { result ≡ keys.is_udp (table_view members.now) }
{
    match some_text(members, "link") {
        Some(link) => link == "udp",
        None => false,
    }
}

/// The table under a key.
pub(crate) fn table_at<'a>(members: &'a Table, name: &str) -> Option<&'a Table>
    ensures { option_map (λ t. table_view t.now) result
        ≡ option_and_then as_table (get_member name.now (table_view members.now)) }
{
    value_at(members, name)?.as_table()
}

/// The items of the array under a key, none where it is left out.
#[tactic(auto, using(crate::proofs::Values::values_of_view))]
pub(crate) fn items_at<'a>(members: &'a Table, name: &str) -> &'a [Value]
    ensures { map view result.now ≡ spec.items_at name.now (table_view members.now) }
{
    match some_array(members, name) {
        Some(items) => items.as_slice(),
        None => &[],
    }
}

/// The array under a key.
fn some_array<'a>(members: &'a Table, name: &str) -> Option<&'a Array>
    ensures { option_map (λ items. array_view items.now) result
        ≡ option_and_then as_array (get_member name.now (table_view members.now)) }
{
    value_at(members, name)?.as_array()
}

/// The number that keeps the rule of its key, or the default.
pub(crate) fn number_at(form: Form, members: &Table, name: &str) -> u32
    ensures { result ≡ spec.number_at (form_keys form) name.now (table_view members.now) }
{
    match kind_at(form, name) {
        Some(Kind::Number(least, most, default)) => {
            number_between(members, name, least, most).unwrap_or(default)
        }
        _ => 0,
    }
}

/// The number under a key, if it lies between two others.
fn number_between(members: &Table, name: &str, least: u32, most: u32) -> Option<u32>
    ensures { let found = option_and_then number_of (get_member name.now (table_view members.now)) in
        result ≡ checked_value (is_between least most) found }
{
    let found = number(value_at(members, name)?)?;
    if least <= found && found <= most {
        Some(found)
    } else {
        None
    }
}
