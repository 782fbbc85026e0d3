//! Which value of a document is not of the form that belongs there, and why.

use crate::document_lines::say_lines;
use crate::document_ways::{Way, value_at};
use crate::shown_values::ShownValue;
use crate::unread::found;
use ipb_base::{NoMemory, number_in_text};
use note_lines::{Notes, OneLine};
use script_lang::parse_document;
use std::alloc::Global;
use toml::{Table, Value};

/// The keys of a kind of tables, each with what belongs there.
type Keys = &'static [(&'static str, &'static str)];

const DOCUMENT: Keys = &[
    ("board", "an array of tables"),
    ("client", "an array of tables"),
    ("format", "1 or 2"),
    ("rounds", "a number from 1 to 255"),
    ("tables", "a table of register tables, whose names are ids"),
    ("window", "a number from 1 to 16"),
];

const SIM_BOARD: Keys = &[
    ("buffers", "a number from 1 to 64"),
    ("fates", "a text of d, l, r and 1 to 9"),
    ("first", "a number from 1 to 65535"),
    ("link", "\"sim\" or \"udp\""),
    ("mtu", "a number from 92 to 9000"),
    ("name", "an id: 1 to 64 letters, digits, _ and -"),
    ("noise", "a number of 32 bits, and not beside fates"),
    ("ranges", "an array of tables"),
    ("table", "a text"),
];

const UDP_BOARD: Keys = &[
    (
        "address",
        "an IPv4 address and a port, as \"10.0.0.1:50001\"",
    ),
    ("link", "\"sim\" or \"udp\""),
    ("name", "an id: 1 to 64 letters, digits, _ and -"),
    ("table", "a text"),
    ("wait", "a number from 1 to 10000"),
];

const RANGE: Keys = &[
    ("base", "a number of 32 bits"),
    ("init", "an array of numbers of 32 bits"),
    ("kind", "\"rw\", \"ro\", \"wo\" or \"slow\""),
    ("size", "a number of 32 bits"),
];

const CLIENT: Keys = &[("script", "an array of texts")];

const RULE: Keys = &[
    ("access", "\"r\", \"w\" or \"rw\""),
    ("client", "a number from 1 to 64"),
    ("effect", "\"allow\" or \"deny\""),
    ("name", "a pattern, as \"fe0:ch[*].threshold\""),
];

/// Says why the value at a path of a document is not what belongs there: what it is, that its key is missing, or that no
/// such key belongs there. The path is that of the refusal.
pub(crate) fn say_shape(notes: &mut Notes, path: &str, bytes: &[u8]) {
    let Some(document) = found(parse_document(notes.alloc, bytes), notes) else {
        return;
    };
    let Some(way) = notes.made(way_of(notes.alloc, path)) else {
        return;
    };
    let whole = way.as_slice();
    if let [above @ .., last] = whole {
        if say_place(notes, &document, above, *last, whole) {
            say_lines(notes, bytes, whole);
        } else {
            say_lines(notes, bytes, above);
        }
    }
}

/// The way that a path writes. Keys of tables may have dots, which begin no step of their own there.
fn way_of(alloc: Global, path: &str) -> Result<Vec<Way<'_>>, NoMemory> {
    let mut way = Vec::new(alloc);
    if let Some(name) = path.strip_prefix("tables.") {
        way.push(Way::Key("tables"))?;
        way.push(Way::Key(name))?;
        return Ok(way);
    }
    for step in path.split('.') {
        way.push(match number_in_text(step.as_bytes()) {
            Some(position) if !way.is_empty() => Way::Item(position as usize),
            _ => Way::Key(step),
        })?;
    }
    Ok(way)
}

/// Says what is wrong at the last step of a way. It says whether a value is there.
fn say_place(
    notes: &mut Notes,
    document: &Table,
    above: &[Way<'_>],
    last: Way<'_>,
    way: &[Way<'_>],
) -> bool {
    let wanted = match last {
        Way::Key(key) => what_belongs(keys_at(document, above), key),
        Way::Item(_) => item_wanted(above),
    };
    match (value_at(document, way), wanted) {
        (Some(value), Some(wanted)) => {
            let shown = ShownValue(value);
            notes.say(format_args!("it is {shown}, and here belongs {wanted}"));
            true
        }
        (Some(_), None) => {
            notes.say("no key of this name belongs there");
            true
        }
        (None, _) => {
            notes.say("this key is missing");
            false
        }
    }
}

/// What belongs to a key, if it is one of these.
fn what_belongs(keys: Keys, key: &str) -> Option<&'static str> {
    for (name, wanted) in keys {
        if *name == key {
            return Some(*wanted);
        }
    }
    None
}

/// What belongs into an array.
fn item_wanted(above: &[Way<'_>]) -> Option<&'static str> {
    match above.last() {
        Some(Way::Key("script")) => Some("a text, a line of the script"),
        Some(Way::Key("init")) => Some("a number of 32 bits"),
        _ => Some("a table"),
    }
}

/// The keys of the table at a way.
fn keys_at(document: &Table, way: &[Way<'_>]) -> Keys {
    match way {
        [] => DOCUMENT,
        [Way::Key("board"), _] => board_keys(value_at(document, way)),
        [Way::Key("board"), _, Way::Key("ranges"), _] => RANGE,
        [Way::Key("client"), _] => CLIENT,
        [Way::Key("policy"), _] => RULE,
        _ => &[],
    }
}

/// The keys of a board, by its link.
fn board_keys(board: Option<&Value>) -> Keys {
    let Some(Value::Table(members)) = board else {
        return SIM_BOARD;
    };
    match members.get("link") {
        Some(Value::String(link)) if link.as_str() == "udp" => UDP_BOARD,
        _ => SIM_BOARD,
    }
}
