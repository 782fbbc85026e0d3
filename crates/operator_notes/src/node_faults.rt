//! Which key of a node, or which value, breaks a rule of register tables.

use crate::document_lines::say_lines;
use crate::document_ways::{Way, value_at};
use crate::shown_values::ShownValue;
use crate::unread::found;
use address_table::{TableWhy, number};
use ipb_base::NoMemory;
use note_lines::{Notes, OneLine};
use script_lang::parse_document;
use std::alloc::Global;
use toml::{Table, Value};

/// The keys of a node of any format.
const NODE_KEYS: [&str; 10] = [
    "id",
    "address",
    "mask",
    "permission",
    "mode",
    "size",
    "module",
    "tags",
    "description",
    "nodes",
];

/// The keys that a node of format 2 has besides.
const ARRAY_KEYS: [&str; 2] = ["count", "stride"];

/// The keys of numbers.
const NUMBERS: [&str; 5] = ["address", "mask", "size", "count", "stride"];

/// The keys of texts.
const TEXTS: [&str; 6] = ["id", "permission", "mode", "module", "tags", "description"];

/// Says which key of a node breaks a rule, with its value, the id of the node, and the lines of the document. The node is
/// told by its positions from 0, from the top of the table down.
pub(crate) fn say_node(
    notes: &mut Notes,
    table: &str,
    positions: &[u64],
    why: TableWhy,
    bytes: &[u8],
) {
    let Some(document) = found(parse_document(notes.alloc, bytes), notes) else {
        return;
    };
    let Some(way) = notes.made(way_to(notes.alloc, table, positions)) else {
        return;
    };
    let Some(node) = value_at(&document, way.as_slice()) else {
        return;
    };
    match say_value(notes, node, positions.is_empty(), why, format_of(&document)) {
        Some(key) => say_key_lines(notes, table, positions, key, bytes),
        None => say_lines(notes, bytes, way.as_slice()),
    }
}

/// Says in which lines a key of a node stands.
fn say_key_lines<'a>(
    notes: &mut Notes,
    table: &'a str,
    positions: &[u64],
    key: &'a str,
    bytes: &[u8],
) {
    if let Some(way) = notes.made(way_to_key(notes.alloc, table, positions, key)) {
        say_lines(notes, bytes, way.as_slice());
    }
}

/// The way to a key of a node.
fn way_to_key<'a>(
    alloc: Global,
    table: &'a str,
    positions: &[u64],
    key: &'a str,
) -> Result<Vec<Way<'a>>, NoMemory> {
    let mut way = way_to(alloc, table, positions)?;
    way.push(Way::Key(key))?;
    Ok(way)
}

/// The format of the tables of a document.
fn format_of(document: &Table) -> u32 {
    match document.get("format") {
        Some(value) => number(value).unwrap_or(1),
        None => 1,
    }
}

/// The way to a node.
fn way_to<'a>(alloc: Global, table: &'a str, positions: &[u64]) -> Result<Vec<Way<'a>>, NoMemory> {
    let mut way = Vec::new(alloc);
    way.push(Way::Key("tables"))?;
    way.push(Way::Key(table))?;
    for (depth, position) in positions.iter().enumerate() {
        if depth > 0 {
            way.push(Way::Key("nodes"))?;
        }
        way.push(Way::Item(*position as usize))?;
    }
    Ok(way)
}

/// Says what of a value is no node, or no table of nodes. It answers the key at fault, if it is there.
fn say_value<'a>(
    notes: &mut Notes,
    value: &'a Value,
    is_table: bool,
    why: TableWhy,
    format: u32,
) -> Option<&'a str> {
    match value {
        Value::Table(members) if !is_table => say_members(notes, members, why, format),
        _ => {
            let wanted = if is_table {
                "an array of nodes"
            } else {
                "a table of keys"
            };
            let shown = ShownValue(value);
            notes.say(format_args!("it is {shown}, and no {wanted}"));
            None
        }
    }
}

/// Says what of a node breaks a rule.
fn say_members<'a>(
    notes: &mut Notes,
    members: &'a Table,
    why: TableWhy,
    format: u32,
) -> Option<&'a str> {
    match why {
        TableWhy::UnknownKey => say_unknown(notes, members, format),
        TableWhy::Shape => say_shape(notes, members),
        TableWhy::MissingId => None,
        TableWhy::BadId => say_key(notes, members, "id"),
        TableWhy::BadNumber => say_key(notes, members, first_no_number(members)),
        TableWhy::BadMask => say_key(notes, members, "mask"),
        TableWhy::BadPermission => say_key(notes, members, "permission"),
        TableWhy::BadMode => say_beside(notes, members, "mode", "mask"),
        TableWhy::BadSize => say_beside(notes, members, "size", "mode"),
        TableWhy::BadCount => say_beside(notes, members, "count", "stride"),
    }
}

/// The id of a node, as it is shown.
fn id_of(members: &Table) -> OneLine<'_> {
    match members.get("id") {
        Some(Value::String(id)) => OneLine(id.as_str()),
        _ => OneLine(""),
    }
}

/// Says a key of a node with its value, if the node has it.
fn say_key<'a>(notes: &mut Notes, members: &'a Table, key: &str) -> Option<&'a str> {
    let (key, value) = members.get_key_value(key)?;
    let id = id_of(members);
    let shown = ShownValue(value);
    let name = OneLine(key.as_str());
    notes.say(format_args!("the node \"{id}\" has {name} = {shown}"));
    Some(key.as_str())
}

/// Says two keys of a node that are judged together.
fn say_beside<'a>(
    notes: &mut Notes,
    members: &'a Table,
    key: &str,
    other: &str,
) -> Option<&'a str> {
    let found = say_key(notes, members, key);
    let beside = say_key(notes, members, other);
    if found.is_some() { found } else { beside }
}

fn say_unknown<'a>(notes: &mut Notes, members: &'a Table, format: u32) -> Option<&'a str> {
    for (key, _value) in members.iter() {
        let is_known = NODE_KEYS.contains(&key.as_str())
            || format == 2 && ARRAY_KEYS.contains(&key.as_str());
        if !is_known {
            return say_key(notes, members, key.as_str());
        }
    }
    None
}

/// The first key of a number that has none as its value.
fn first_no_number(members: &Table) -> &'static str {
    for key in NUMBERS {
        if let Some(value) = members.get(key)
            && number(value).is_none()
        {
            return key;
        }
    }
    ""
}

/// Says which value of a node is of another kind, or that the node has keys that exclude one another.
fn say_shape<'a>(notes: &mut Notes, members: &'a Table) -> Option<&'a str> {
    for key in TEXTS {
        if let Some(value) = members.get(key)
            && !value.is_str()
        {
            notes.say("here belongs a text");
            return say_key(notes, members, key);
        }
    }
    match members.get("nodes") {
        Some(nodes) if !nodes.is_array() => notes.say("here belongs an array of nodes"),
        _ => notes.say(
            "module and nodes stand side by side, and each says which children the node has",
        ),
    }
    say_key(notes, members, "nodes")
}
