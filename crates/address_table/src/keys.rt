//! The keys of one node: what they say, and the first rule that they break.
ghost use Rattle.std.specs.Prelude.{◌≡◌, None, Some, codes, is_some, IfOk, IfErr, OnOk, option_copied, option_map};
ghost use Rattle.std.specs.Prelude.{option_and_then};
ghost use Rattle.std.specs.List.{list_all};
ghost use Rattle.toml.specs.Data.{get_member, as_array};
ghost use Rattle.toml.specs.View.{view, array_view, table_view};
ghost use Rattle.address_table.specs.Numbers.{number as number_of};
ghost use Rattle.address_table.specs.Keys as spec;
ghost use Rattle.address_table.specs.Rules as rule;
ghost use Rattle.address_table.specs.Fields.{SaysFields};

use crate::kinds::{is_one_of, mode_named, permission_named};
use crate::{MAX_ID_BYTES, MAX_INDEXES, MAX_WORDS, Mode, Permission, TableWhy, number};
use toml::value::Array;
use toml::{Table, Value};

/// The keys of a node of any format.
const COMMON_KEYS: [&str; 10] = [
    "id",
    "address",
    "mask",
    "permission",
    "mode",
    "size",
    "module",
    "tags",
    "description",
    "nodes",
];

/// What a node says of its registers.
#[derive(Clone, Copy)]
pub(crate) struct Fields {
    pub address: u32,
    pub mask: u32,
    pub permission: Permission,
    pub mode: Mode,
    pub size: u32,
    pub count: Option<u32>,
    pub stride: u32,
}

/// Whether a text is an id (profile): 1 to `MAX_ID_BYTES` letters, digits, `_` and `-`. Nodes, tables and boards are
/// named so.
pub fn is_id(text: &[u8]) -> bool
    ensures { result ≡ rule.is_id text.now }
{
    !text.is_empty() && text.len() <= MAX_ID_BYTES && has_id_bytes(text)
}

fn has_id_bytes(text: &[u8]) -> bool
    ensures { result ≡ list_all rule.is_id_byte text.now }
{
    text.iter().all(|byte| is_id_byte(*byte))
}

fn is_id_byte(byte: u8) -> bool
    ensures { result ≡ rule.is_id_byte byte }
{
    matches!(byte, b'A'..=b'Z' | b'a'..=b'z' | b'0'..=b'9' | b'_' | b'-')
}

/// What a node says of its registers, or the first rule of the format that the node breaks, its children left aside.
#[tactic(auto, unfolding(crate::specs::Rules::broken_rule))]
pub(crate) fn read_fields(members: &Table, format: u32) -> Result<Fields, TableWhy>
    ensures kept { OnOk result (rule.broken_rule format (table_view members.now) ≡ None) }
    ensures read { IfOk result (λ fields. SaysFields (table_view members.now) fields) }
    ensures refused { IfErr result (λ why. rule.broken_rule format (table_view members.now) ≡ Some why) }
{
    if !has_shape(members) {
        return Err(TableWhy::Shape);
    }
    if !has_node_keys(members, format) {
        return Err(TableWhy::UnknownKey);
    }
    if !has_key(members, "id") {
        return Err(TableWhy::MissingId);
    }
    if !has_good_id(members) {
        return Err(TableWhy::BadId);
    }
    read_register(members)
}

/// Reads the fields of a register whose other keys are right: the rules of its numbers are tried here.
fn read_register(members: &Table) -> Result<Fields, TableWhy>
    ensures kept { OnOk result (rule.first_broken (rule.register_rules (table_view members.now)) ≡ None) }
    ensures read { IfOk result (λ fields. SaysFields (table_view members.now) fields) }
    ensures refused { let broken = rule.first_broken (rule.register_rules (table_view members.now)) in
        IfErr result (λ why. broken ≡ Some why) }
{
    let Some(address) = number_at(members, "address", 0) else {
        return Err(TableWhy::BadNumber);
    };
    let Some(mask) = number_at(members, "mask", u32::MAX) else {
        return Err(TableWhy::BadNumber);
    };
    let Some(size) = number_at(members, "size", 1) else {
        return Err(TableWhy::BadNumber);
    };
    let Some(count) = count_at(members) else {
        return Err(TableWhy::BadNumber);
    };
    let Some(stride) = number_at(members, "stride", 1) else {
        return Err(TableWhy::BadNumber);
    };
    if mask == 0 {
        return Err(TableWhy::BadMask);
    }
    let Some(permission) = permission_at(members) else {
        return Err(TableWhy::BadPermission);
    };
    let Some(mode) = mode_at(members) else {
        return Err(TableWhy::BadMode);
    };
    if !takes_mask(mode, mask) {
        return Err(TableWhy::BadMode);
    }
    if !takes_size(mode, size) {
        return Err(TableWhy::BadSize);
    }
    if !has_count(members, count, stride) {
        return Err(TableWhy::BadCount);
    }
    Ok(Fields {
        address,
        mask,
        permission,
        mode,
        size,
        count,
        stride,
    })
}

/// Whether the keys that are to have texts and arrays have them, and `module` does not stand beside `nodes`.
#[tactic(auto, unfolding(crate::specs::Rules::has_shape))]
fn has_shape(members: &Table) -> bool
    ensures { result ≡ rule.has_shape (table_view members.now) }
{
    has_texts(members)
        && has_array_of_nodes(members)
        && !(has_key(members, "module") && has_key(members, "nodes"))
}

#[tactic(auto, unfolding(crate::specs::Rules::has_texts))]
fn has_texts(members: &Table) -> bool
    ensures { result ≡ rule.has_texts (table_view members.now) }
{
    text_at(members, "id").is_some()
        && text_at(members, "permission").is_some()
        && text_at(members, "mode").is_some()
        && text_at(members, "module").is_some()
        && text_at(members, "tags").is_some()
        && text_at(members, "description").is_some()
}

/// Whether each key is one that a node of the format may have.
fn has_node_keys(members: &Table, format: u32) -> bool
    ensures { result ≡ spec.has_node_keys format (table_view members.now) }
{
    for (key, _value) in members.iter() {
        if !is_node_key(key.as_str(), format) {
            return false;
        }
    }
    true
}

fn is_node_key(key: &str, format: u32) -> bool
    ensures { result ≡ spec.is_node_key format key.now }
{
    is_common_key(key) || (format == 2 && is_array_key(key))
}

/// The keys of an array of nodes.
fn is_array_key(key: &str) -> bool
    ensures { result ≡ spec.is_array_key key.now }
{
    key == "count" || key == "stride"
}

fn is_common_key(key: &str) -> bool
    ensures { result ≡ spec.is_common_key key.now }
{
    is_one_of(&COMMON_KEYS, key)
}

pub(crate) fn has_key(members: &Table, key: &str) -> bool
    ensures { result ≡ rule.has_key key.now (table_view members.now) }
{
    value_at(members, key).is_some()
}

fn has_good_id(members: &Table) -> bool
    ensures { result ≡ rule.holds_of rule.is_id (spec.text_at (codes "id") (table_view members.now)) }
{
    match text_at(members, "id") {
        Some(id) => is_id(id.as_bytes()),
        None => false,
    }
}

fn takes_mask(mode: Mode, mask: u32) -> bool
    ensures { result ≡ rule.takes_mask mode mask }
{
    match mode {
        Mode::Block | Mode::Port => mask == u32::MAX,
        Mode::Single | Mode::Hierarchical => true,
    }
}

fn takes_size(mode: Mode, size: u32) -> bool
    ensures { result ≡ rule.takes_size mode size }
{
    match mode {
        Mode::Block | Mode::Port => 1 <= size && size <= MAX_WORDS,
        Mode::Single | Mode::Hierarchical => size == 1,
    }
}

/// Whether the count, if there is one, and the stride are in their ranges, and a stride is said only where a count is.
#[tactic(auto, unfolding(crate::specs::Rules::has_count))]
fn has_count(members: &Table, count: Option<u32>, stride: u32) -> bool
    requires counted { spec.count_at (table_view members.now) ≡ Some count }
    requires strided { spec.stride_at (table_view members.now) ≡ Some stride }
    ensures { result ≡ rule.has_count (table_view members.now) }
{
    takes_count(count) && 1 <= stride && (has_key(members, "count") || !has_key(members, "stride"))
}

fn takes_count(count: Option<u32>) -> bool
    ensures { result ≡ rule.takes_count count }
{
    match count {
        Some(count) => 1 <= count && count <= MAX_INDEXES,
        None => true,
    }
}

/// The value at a key.
fn value_at<'a>(members: &'a Table, key: &str) -> Option<&'a Value>
    ensures { option_map (λ value. view value.now) result ≡ get_member key.now (table_view members.now) }
{
    members.get(key)
}

/// The text at a key, or the empty text where the key is left out.
pub(crate) fn text_at<'a>(members: &'a Table, key: &str) -> Option<&'a str>
    ensures { option_copied result ≡ spec.text_at key.now (table_view members.now) }
{
    match value_at(members, key) {
        Some(value) => value.as_str(),
        None => Some(""),
    }
}

/// Whether the children that stand in the node itself, if any, are an array.
fn has_array_of_nodes(members: &Table) -> bool
    ensures { result ≡ is_some (spec.nodes_at (table_view members.now)) }
{
    match value_at(members, "nodes") {
        Some(value) => value.is_array(),
        None => true,
    }
}

/// The items that the children are written as, where there are any.
pub(crate) fn child_items(members: &Table) -> Option<&Array>
    ensures { let value = get_member (codes "nodes") (table_view members.now) in
        option_map (λ items. array_view items.now) result ≡ option_and_then as_array value }
{
    value_at(members, "nodes")?.as_array()
}

fn number_at(members: &Table, key: &str, default: u32) -> Option<u32>
    ensures { result ≡ spec.at_key key.now default number_of (table_view members.now) }
{
    match value_at(members, key) {
        Some(value) => number(value),
        None => Some(default),
    }
}

/// How many registers the node names by indexes, if it says so.
fn count_at(members: &Table) -> Option<Option<u32>>
    ensures { result ≡ spec.count_at (table_view members.now) }
{
    match value_at(members, "count") {
        Some(value) => match number(value) {
            Some(count) => Some(Some(count)),
            None => None,
        },
        None => Some(None),
    }
}

fn permission_at(members: &Table) -> Option<Permission>
    ensures { result ≡ spec.permission_at (table_view members.now) }
{
    match value_at(members, "permission") {
        Some(value) => permission_named(value.as_str()?),
        None => Some(Permission::Rw),
    }
}

fn mode_at(members: &Table) -> Option<Mode>
    ensures { result ≡ spec.mode_at (table_view members.now) }
{
    match value_at(members, "mode") {
        Some(value) => mode_named(value.as_str()?),
        None => Some(Mode::Single),
    }
}
