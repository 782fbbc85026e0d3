//! Ways to values of a document.

use toml::{Table, Value};

/// A step on the way to a value: into a table by a key, or into an array by a position from 0.
#[derive(Clone, Copy)]
pub(crate) enum Way<'a> {
    Key(&'a str),
    Item(usize),
}

/// The value at the end of a way, if the document has it. A way without steps leads to none.
pub(crate) fn value_at<'a>(document: &'a Table, way: &[Way<'_>]) -> Option<&'a Value> {
    let [first, rest @ ..] = way else {
        return None;
    };
    let Way::Key(key) = first else {
        return None;
    };
    value_below(document.get(*key)?, rest)
}

/// The value at the end of a way that begins at a value.
pub(crate) fn value_below<'a>(value: &'a Value, way: &[Way<'_>]) -> Option<&'a Value> {
    let mut value = value;
    for step in way {
        value = match *step {
            Way::Key(key) => value.as_table()?.get(key)?,
            Way::Item(position) => value.as_array()?.get(position)?,
        };
    }
    Some(value)
}
