//! The tables of keys: what may stand under each key.

ghost use Rattle.std.specs.Prelude.{◌≡◌, ◌∷◌, [], MatchOption, Some, slice_get, option_copied};
ghost use Rattle.toml.specs.View.{table_view};
ghost use Rattle.script_lang.specs.Forms.{first_absent, form_keys};
ghost use Rattle.script_lang.specs.Keys as spec;
ghost use Rattle.script_lang.specs.Walk.{missing};
ghost use Rattle.script_lang.specs.declared.steps.PathStep.TheVariants.{Key};

use crate::fields::{has_key, is_udp};
use crate::named::value_named;
use toml::Table;
use world_model::MAX_WINDOW;

/// The rule of a text.
#[derive(Clone, Copy)]
pub(crate) enum TextRule {
    Any,
    Id,
    Link,
    RangeWord,
    Fates,
    Endpoint,
}

/// The tables that stand in arrays.
#[derive(Clone, Copy)]
pub(crate) enum TableKind {
    Board,
    Range,
    Client,
}

/// What the items of an array are.
#[derive(Clone, Copy)]
pub(crate) enum ItemKind {
    Number,
    Text,
    Table(TableKind),
}

/// What stands under a key.
#[derive(Clone, Copy)]
pub(crate) enum Kind {
    /// A number from the first to the second, and the third where the key is left out.
    Number(u32, u32, u32),
    /// A text that keeps a rule.
    Text(TextRule),
    /// A table of any values, whose keys are ids.
    Names,
    /// An array; empty where it is left out.
    Array(ItemKind),
}

/// The tables whose keys differ.
#[derive(Clone, Copy)]
pub(crate) enum Form {
    Document,
    /// A simulated board with `fates`, which has no `noise`.
    SimBoard,
    /// A simulated board without `fates`.
    NoisyBoard,
    UdpBoard,
    Range,
    Client,
}

/// Any number of 32 bits, and 0 where it is left out.
const WORD: Kind = Kind::Number(0, u32::MAX, 0);

const DOCUMENT_KEYS: [(&str, Kind); 6] = [
    ("board", Kind::Array(ItemKind::Table(TableKind::Board))),
    ("client", Kind::Array(ItemKind::Table(TableKind::Client))),
    ("format", Kind::Number(1, 2, 1)),
    ("rounds", Kind::Number(1, 255, 8)),
    ("tables", Kind::Names),
    ("window", Kind::Number(1, MAX_WINDOW as u32, 16)),
];

/// A simulated board's, besides `noise`.
const SIM_KEYS: [(&str, Kind); 8] = [
    ("buffers", Kind::Number(1, 64, 16)),
    ("fates", Kind::Text(TextRule::Fates)),
    ("first", Kind::Number(1, 65535, 1)),
    ("link", Kind::Text(TextRule::Link)),
    ("mtu", Kind::Number(92, 9000, 1500)),
    ("name", Kind::Text(TextRule::Id)),
    ("ranges", Kind::Array(ItemKind::Table(TableKind::Range))),
    ("table", Kind::Text(TextRule::Any)),
];

const UDP_KEYS: [(&str, Kind); 5] = [
    ("address", Kind::Text(TextRule::Endpoint)),
    ("link", Kind::Text(TextRule::Link)),
    ("name", Kind::Text(TextRule::Id)),
    ("table", Kind::Text(TextRule::Any)),
    ("wait", Kind::Number(1, 10000, 100)),
];

const RANGE_KEYS: [(&str, Kind); 4] = [
    ("base", WORD),
    ("init", Kind::Array(ItemKind::Number)),
    ("kind", Kind::Text(TextRule::RangeWord)),
    ("size", WORD),
];

const CLIENT_KEYS: [(&str, Kind); 1] = [("script", Kind::Array(ItemKind::Text))];

/// The form of a table that is an item.
pub(crate) fn form_of(kind: TableKind, members: &Table) -> Form
    ensures { form_keys result ≡ spec.keys_of kind (table_view members.now) }
{
    match kind {
        TableKind::Board => board_form(members),
        TableKind::Range => Form::Range,
        TableKind::Client => Form::Client,
    }
}

fn board_form(members: &Table) -> Form
    ensures { form_keys result ≡ spec.board_keys (table_view members.now) }
{
    if is_udp(members) {
        Form::UdpBoard
    } else if has_key(members, "fates") {
        Form::SimBoard
    } else {
        Form::NoisyBoard
    }
}

/// What stands under a key of a table of this form, if it has that key.
pub(crate) fn kind_at(form: Form, name: &str) -> Option<Kind>
    ensures { result ≡ spec.kind_at (form_keys form) name.now }
{
    match form {
        Form::Document => value_named(&DOCUMENT_KEYS, name),
        Form::SimBoard => value_named(&SIM_KEYS, name),
        Form::NoisyBoard => noisy_kind(name),
        Form::UdpBoard => value_named(&UDP_KEYS, name),
        Form::Range => value_named(&RANGE_KEYS, name),
        Form::Client => value_named(&CLIENT_KEYS, name),
    }
}

fn noisy_kind(name: &str) -> Option<Kind>
    ensures { result ≡ spec.kind_at spec.sim_keys_with_noise name.now }
{
    if "noise" == name {
        Some(WORD)
    } else {
        value_named(&SIM_KEYS, name)
    }
}

/// The first needed key that a table does not have.
pub(crate) fn first_missing(form: Form, members: &Table) -> Option<&'static str>
    ensures { let lacking = missing (form_keys form) (table_view members.now) in
        MatchOption result (lacking ≡ []) (λ name. slice_get lacking 0 ≡ Some (Key name.now ∷ [])) }
{
    match form {
        Form::Document => None,
        Form::SimBoard | Form::NoisyBoard => first_of_two(members, "name", "table"),
        Form::UdpBoard => {
            if !has_key(members, "address") {
                return Some("address");
            }
            first_of_two(members, "name", "table")
        }
        Form::Range => first_of_two(members, "base", "size"),
        Form::Client => {
            if !has_key(members, "script") {
                return Some("script");
            }
            None
        }
    }
}

/// The first of two keys that a table does not have.
fn first_of_two(members: &Table, first: &'static str, second: &'static str) -> Option<&'static str>
    ensures { option_copied result ≡ first_absent first.now second.now (table_view members.now) }
{
    if !has_key(members, first) {
        return Some(first);
    }
    if !has_key(members, second) {
        return Some(second);
    }
    None
}
