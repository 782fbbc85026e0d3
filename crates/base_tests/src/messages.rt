//! The texts of errors.

use address_table::{Path, TableRefusal, TableWhy};
use board_bus::{BusFault, BusRefusal};
use ipb_base::{NoMemory, Text};
use node_tree::{CompileRefusal, CompileWhy};
use reply_join::JoinRefusal;
use std::alloc::Global;
use transaction_codec::{BadWords, Why};

/// The texts of an error of each kind, one below the other.
fn texts(alloc: Global) -> Option<String> {
    let words = BadWords::At {
        place: 2,
        why: Why::Version,
    };
    let reply = JoinRefusal::Garbled { place: 1 };
    let fault = BusFault::WriteTimeout;
    let ranges = BusRefusal::Overlap;
    format!(in alloc; "{}\n{words}\n{reply}\n{fault}\n{ranges}", NoMemory).ok()
}

/// Whether there is a text, and this one.
fn is_text(text: Option<String>, wanted: &str) -> bool {
    match text {
        Some(text) => text.as_str() == wanted,
        None => false,
    }
}

const TEXTS: &str = "out of memory\nword 2: the version is not 2\nword 1 is not that of a reply\n\
bus timeout on write\ntwo ranges share an address";

/// The text of the refusal of a table.
fn table_text(alloc: Global) -> Option<String> {
    let refusal = TableRefusal::At {
        path: Path::from_vec([0, 1].to_vec(alloc).ok()?),
        why: TableWhy::BadMask,
    };
    format!(in alloc; "{refusal}").ok()
}

/// The text of the refusal of a tree of tables.
fn tree_text(alloc: Global) -> Option<String> {
    let refusal = CompileRefusal::At {
        table: Text::copy_of(alloc, "main").ok()?,
        path: Text::copy_of(alloc, "x").ok()?,
        why: CompileWhy::Duplicate,
    };
    format!(in alloc; "{refusal}").ok()
}

const TREE: &str = "table main x: an id that an earlier sibling has";

#[test]
fn errors_have_texts(rt: HostRuntime) {
    assert!(rt; is_text(texts(rt.alloc()), TEXTS));
    assert!(rt; is_text(table_text(rt.alloc()), "node [0, 1]: a mask of 0"));
    assert!(rt; is_text(tree_text(rt.alloc()), TREE));
}
