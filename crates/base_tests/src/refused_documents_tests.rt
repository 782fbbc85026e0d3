//! Values, tables, documents and scripts that readers refuse: by the rule that is stated, and by it again when they are
//! asked again.

ghost use Rattle.std.specs.Prelude.{IfSome};
ghost use Rattle.address_table.specs.Valid.{IsValid};
ghost use Rattle.script_lang.specs.Limits.{IsWithin};

use address_table::{Table, TableRefusal, TableWhy, number, read_table};
use node_tree::{CompileRefusal, CompileWhy, Index, Tables, compile};
use script_lang::{
    DocWhy, ScriptRefusal, ScriptWhy, Session, SessionRefusal, compile_scripts, read_session,
    take_key,
};
use std::alloc::Global;
use std::slice;
use toml::Value;

/// The value under the key `t` of a document.
fn value_of(alloc: Global, document: &str) -> Option<Value> {
    let mut members = toml::table_from_str(alloc, document).ok()?;
    take_key(&mut members, "t")
}

/// Values that are no number of 32 bits.
const NO_NUMBERS: [&str; 8] = [
    "t = -1",
    "t = 4294967296",
    "t = 1.0",
    "t = true",
    "t = []",
    "t = {}",
    "t = 1979-05-27",
    "t = \"1 \"",
];

fn is_no_number(alloc: Global, text: &str) -> bool {
    match value_of(alloc, text) {
        Some(value) => number(&value).is_none() && number(&value).is_none(),
        None => false,
    }
}

#[test]
fn values_are_refused_again(rt: HostRuntime) {
    for text in &NO_NUMBERS {
        assert!(rt; is_no_number(rt.alloc(), text));
    }
}

/// A table at the key `t`, the place of the first faulty node, and the first rule that it breaks.
const TABLES: [(&str, &[u64], TableWhy); 13] = [
    ("t = 1", &[], TableWhy::Shape),
    ("t = [1]", &[0], TableWhy::Shape),
    (
        "t = [{ id = \"a\", nodes = [], module = \"m\" }]",
        &[0],
        TableWhy::Shape,
    ),
    ("t = [{ x = 1 }]", &[0], TableWhy::UnknownKey),
    (
        "t = [{ id = \"a\" }, { id = \"b\", nodes = [{}] }]",
        &[1, 0],
        TableWhy::MissingId,
    ),
    ("t = [{ id = \"a b\" }]", &[0], TableWhy::BadId),
    (
        "t = [{ id = \"a\", address = -1, mask = 0 }]",
        &[0],
        TableWhy::BadNumber,
    ),
    (
        "t = [{ id = \"a\", size = 0, mask = 0 }]",
        &[0],
        TableWhy::BadMask,
    ),
    (
        "t = [{ id = \"a\", permission = \"x\" }]",
        &[0],
        TableWhy::BadPermission,
    ),
    (
        "t = [{ id = \"a\", mode = \"x\" }]",
        &[0],
        TableWhy::BadMode,
    ),
    ("t = [{ id = \"a\", size = 0 }]", &[0], TableWhy::BadSize),
    ("t = [{ id = \"a\", count = 0 }]", &[0], TableWhy::BadCount),
    ("t = [{ id = \"a\", stride = 2 }]", &[0], TableWhy::BadCount),
];

/// Whether a refusal names this node and this rule.
fn is_at_node(refusal: &TableRefusal, place: &[u64], rule: TableWhy) -> bool {
    match refusal {
        TableRefusal::At { path, why } => path.as_slice() == place && *why == rule,
        TableRefusal::NoMemory => false,
    }
}

/// Whether a value is refused as a table at this node by this rule.
fn is_refused_at(alloc: Global, value: &Value, place: &[u64], rule: TableWhy) -> bool {
    match read_table(alloc, value, 2) {
        Err(refusal) => is_at_node(&refusal, place, rule),
        Ok(_) => false,
    }
}

fn is_no_table(alloc: Global, text: &str, place: &[u64], rule: TableWhy) -> bool {
    match value_of(alloc, text) {
        Some(value) => {
            is_refused_at(alloc, &value, place, rule) && is_refused_at(alloc, &value, place, rule)
        }
        None => false,
    }
}

#[test]
fn tables_are_refused_again(rt: HostRuntime) {
    for &(text, place, rule) in &TABLES {
        assert!(rt; is_no_table(rt.alloc(), text, place, rule));
    }
}

/// Documents, the place of the first fault, and the first rule that they break.
const DOCUMENTS: [(&[u8], &str, DocWhy); 9] = [
    (b"\xff", "", DocWhy::NotToml),
    (b"a = 1\na = 2", "", DocWhy::NotToml),
    (b"", "", DocWhy::NoBoards),
    (b"x = 1", "x", DocWhy::Shape),
    (b"rounds = 0", "rounds", DocWhy::Shape),
    (b"tables = 1", "tables", DocWhy::Shape),
    (b"board = [1]", "board.0", DocWhy::Shape),
    (
        b"board = [{ name = \"b\", table = \"t\" }, { name = \"b\", table = \"t\" }]",
        "board.1.name",
        DocWhy::DuplicateBoard,
    ),
    (
        b"board = [{ name = \"b\", table = \"t\", link = \"udp\" }]",
        "board.0.address",
        DocWhy::Shape,
    ),
];

/// Whether a refusal names this place of a document and this rule.
fn is_at_place(refusal: &SessionRefusal, place: &str, rule: DocWhy) -> bool {
    match refusal {
        SessionRefusal::Document { path, why } => path.as_str() == place && *why == rule,
        _ => false,
    }
}

/// Whether a document is refused at this place by this rule.
fn is_no_session(alloc: Global, bytes: &[u8], place: &str, rule: DocWhy) -> bool {
    match read_session(alloc, bytes) {
        Err(refusal) => is_at_place(&refusal, place, rule),
        Ok(_) => false,
    }
}

fn is_never_a_session(alloc: Global, bytes: &[u8], place: &str, rule: DocWhy) -> bool {
    is_no_session(alloc, bytes, place, rule) && is_no_session(alloc, bytes, place, rule)
}

#[test]
fn documents_are_refused_again(rt: HostRuntime) {
    for &(bytes, place, rule) in &DOCUMENTS {
        assert!(rt; is_never_a_session(rt.alloc(), bytes, place, rule));
    }
}

/// The table `main`, the root, the first name that is at fault, and the first rule that is broken from the root.
const TREES: [(&str, &str, &str, CompileWhy); 6] = [
    ("t = []", "other", "", CompileWhy::UnknownModule),
    (
        "t = [{ id = \"a\", module = \"m\" }]",
        "main",
        "",
        CompileWhy::UnknownModule,
    ),
    (
        "t = [{ id = \"a\", module = \"main\" }]",
        "main",
        "",
        CompileWhy::ModuleCycle,
    ),
    (
        "t = [{ id = \"a\" }, { id = \"a\" }]",
        "main",
        "a",
        CompileWhy::Duplicate,
    ),
    (
        "t = [{ id = \"y\", address = 0xffffffff, nodes = [{ id = \"z\", address = 1 }] }]",
        "main",
        "y.z",
        CompileWhy::AddressPastEnd,
    ),
    (
        "t = [{ id = \"a\", count = 65536 }, { id = \"b\" }]",
        "main",
        "b",
        CompileWhy::TooMany,
    ),
];

/// The table of a document.
fn table(alloc: Global, text: &str) -> Option<Table>
    ensures valid { IfSome result IsValid }
{
    read_table(alloc, &value_of(alloc, text)?, 2).ok()
}

/// Tables of which `main` is that of a document.
fn tables(alloc: Global, text: &str) -> Option<Tables> {
    let table = table(alloc, text)?;
    let mut tables = Tables::new(alloc);
    tables.put("main", table).ok()?;
    Some(tables)
}

/// Whether a refusal names this table, this name and this rule.
fn is_at_name(refusal: &CompileRefusal, at: &str, name: &str, rule: CompileWhy) -> bool {
    match refusal {
        CompileRefusal::At { table, path, why } => {
            table.as_str() == at && path.as_str() == name && *why == rule
        }
        CompileRefusal::NoMemory => false,
    }
}

/// Whether tables are refused from this root by this rule.
fn is_refused_by(alloc: Global, tables: &Tables, at: &str, name: &str, rule: CompileWhy) -> bool {
    match compile(alloc, tables, at) {
        Err(refusal) => is_at_name(&refusal, at, name, rule),
        Ok(_) => false,
    }
}

fn is_no_tree(alloc: Global, text: &str, at: &str, name: &str, rule: CompileWhy) -> bool {
    match tables(alloc, text) {
        Some(tables) => {
            is_refused_by(alloc, &tables, at, name, rule)
                && is_refused_by(alloc, &tables, at, name, rule)
        }
        None => false,
    }
}

#[test]
fn trees_are_refused_again(rt: HostRuntime) {
    for &(text, at, name, rule) in &TREES {
        assert!(rt; is_no_tree(rt.alloc(), text, at, name, rule));
    }
}

/// Names that are those of no register of a table with an array `a` of two nodes.
const NO_NAMES: [&str; 7] = ["", "a", "a[]", "a[2]", "a[00]", "a[0].", "b"];

/// The registers of an array of two nodes.
fn array(alloc: Global) -> Option<Index> {
    let tables = tables(alloc, "t = [{ id = \"a\", count = 2 }]")?;
    compile(alloc, &tables, "main").ok()
}

/// Whether there is no register of this name, and none when it is sought again.
fn is_not_in(index: &Index, name: &str) -> bool {
    index.find(name).is_none() && index.find(name).is_none()
}

fn has_none(index: &Index) -> bool {
    for name in &NO_NAMES {
        if !is_not_in(index, name) {
            return false;
        }
    }
    true
}

fn is_none_found(alloc: Global) -> bool {
    match array(alloc) {
        Some(index) => has_none(&index),
        None => false,
    }
}

#[test]
fn names_are_refused_again(rt: HostRuntime) {
    assert!(rt; is_none_found(rt.alloc()));
}

/// Lines of a script, and the first rule that they break.
const LINES: [(&str, ScriptWhy); 10] = [
    ("reed b0:a", ScriptWhy::BadLine),
    ("read b0:a 1", ScriptWhy::BadLine),
    ("write b0:a", ScriptWhy::BadLine),
    ("write b0:a 4294967296", ScriptWhy::BadLine),
    ("read b1:a", ScriptWhy::UnknownBoard),
    ("read b0:", ScriptWhy::UnknownName),
    ("read b0:zz", ScriptWhy::UnknownName),
    ("write b0:id 1", ScriptWhy::NoPermission),
    ("write b0:bit 2", ScriptWhy::BitsOutside),
    ("rmwsum b0:bit 1", ScriptWhy::NotWhole),
];

const REGISTERS: &str =
    "tables.main = [{ id = \"a\" }, { id = \"id\", address = 1, permission = \"r\" }, \
{ id = \"bit\", address = 2, mask = 1 }]\nboard = [{ name = \"b0\", table = \"main\" }]\n\
client = [{ script = [\"read b0:a\", \"";

/// The document of a script whose second line this is.
fn with_line(alloc: Global, line: &str) -> Option<String> {
    format!(in alloc; "{REGISTERS}{line}\"] }}]").ok()
}

fn session_of(alloc: Global, line: &str) -> Option<Session>
    ensures within { IfSome result IsWithin }
{
    let document = with_line(alloc, line)?;
    read_session(alloc, document.as_bytes()).ok()
}

/// Why the script of a session is not compiled.
fn script_refusal(alloc: Global, session: &Session) -> Option<ScriptRefusal>
    requires { IsWithin session.now }
{
    let index = compile(alloc, &session.tables, "main").ok()?;
    compile_scripts(alloc, session, slice::from_ref(&index)).err()
}

/// Whether a session is refused at its second line by this rule.
fn is_refused_there(alloc: Global, session: &Session, why: ScriptWhy) -> bool
    requires { IsWithin session.now }
{
    script_refusal(alloc, session)
        == Some(ScriptRefusal::At {
            client: 1,
            line: 2,
            why,
        })
}

fn is_no_line(alloc: Global, line: &str, why: ScriptWhy) -> bool {
    match session_of(alloc, line) {
        Some(session) => {
            is_refused_there(alloc, &session, why) && is_refused_there(alloc, &session, why)
        }
        None => false,
    }
}

#[test]
fn lines_are_refused_again(rt: HostRuntime) {
    for &(line, why) in &LINES {
        assert!(rt; is_no_line(rt.alloc(), line, why));
    }
}
