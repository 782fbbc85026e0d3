//! Words, documents and captures that are refused, and refused again when they are read again.

use crate::fixtures::{DOCUMENT, words_of};
use capture_commands::{Answer, describe_answer, undescribe_answer};
use command_words::command_of;
use ipb_base::NoMemory;
use ipbus_program::REFUSED;
use session_input::{Unread, read_for_check, read_for_run};
use std::alloc::Global;

/// Words that are no command.
const NO_COMMANDS: &[&str] = &[
    "",
    "x",
    "Run",
    "run x",
    "run ",
    "--help",
    "check",
    "check -x",
    "check a b",
    "serve 5000",
    "serve 0 1",
    "serve 65536 1",
    "serve 5000 0",
    "serve 5000 65",
    "load 0",
    "load 100001",
    "load 00000000001",
    "load 0x1",
];

/// Whether the words of a line are no command, asked twice.
fn is_no_command(alloc: Global, line: &str) -> Result<bool, NoMemory> {
    let words = words_of(alloc, line)?;
    let first = command_of(alloc, &words)?.is_none();
    Ok(first && command_of(alloc, &words)?.is_none())
}

#[test]
fn words_are_refused_again(rt: HostRuntime) {
    for line in NO_COMMANDS {
        assert!(rt; is_no_command(rt.alloc(), line) == Ok(true), "{line}");
    }
}

const BOARD: &str = "table = \"main\"\n";

const FIRST_NODE: &str = "mode = \"hierarchical\"\n";

const CLIENT: &str = "[[client]]\n";

const LINE: &str = "read b0:sys.id";

/// What stands in front of the document, a text of it, the text that takes its place, and what is told of the refusal.
type Change = (&'static [u8], &'static str, &'static str, &'static str);

const CHANGES: &[Change] = &[
    (b"window = 17\n", "", "", "document window Shape"),
    (b"x = 1\n", "", "", "document x Shape"),
    (b"rounds = 1.0\n", "", "", "document rounds Shape"),
    (b"format = 3\n", "", "", "document format Shape"),
    (b"\xff\n", "", "", "document - NotToml"),
    (
        b"",
        BOARD,
        "table = \"main\"\nmtu = 91\n",
        "document board.0.mtu Shape",
    ),
    (
        b"",
        BOARD,
        "table = \"main\"\nfates = \"d\"\nnoise = 1\n",
        "document board.0.noise Shape",
    ),
    (
        b"",
        CLIENT,
        "[[board]]\nname = \"b0\"\ntable = \"main\"\n[[client]]\n",
        "document board.1.name DuplicateBoard",
    ),
    (
        b"",
        FIRST_NODE,
        "mode = \"hierarchical\"\nmask = 0\n",
        "table main 0 BadMask",
    ),
    (
        b"",
        FIRST_NODE,
        "mode = \"hierarchical\"\nsize = 2\n",
        "table main 0 BadSize",
    ),
    (
        b"",
        FIRST_NODE,
        "mode = \"hierarchical\"\nsize = 2\nmask = 0\n",
        "table main 0 BadMask",
    ),
    (
        b"",
        CLIENT,
        "[[board.ranges]]\nbase = 15\nsize = 1\n[[client]]\n",
        "board b0 Overlap",
    ),
    (b"", LINE, "reed b0:a", "script 1 1 BadLine"),
    (b"", LINE, "read b1:a", "script 1 1 UnknownBoard"),
    (b"", LINE, "read b0:zz", "script 1 1 UnknownName"),
    (b"", LINE, "write b0:sys.id 1", "script 1 1 NoPermission"),
    (b"", LINE, "read b0:sys", "script 1 1 WrongMode"),
    (b"", LINE, "readblock b0:mem 601", "script 1 1 PastSize"),
    (b"", LINE, "rmwsum b0:a.top 1", "script 1 1 NotWhole"),
    (b"", LINE, "write b0:a.top 2", "script 1 1 BitsOutside"),
];

/// The document with what stands in front of it, and with this text in the place of the other.
fn changed(alloc: Global, front: &[u8], old: &str, new: &str) -> Result<Vec<u8>, NoMemory> {
    let mut document = front.to_vec(alloc)?;
    if old.is_empty() {
        document.extend_from_slice(DOCUMENT.as_bytes())?;
    } else {
        document.extend_from_slice(DOCUMENT.replace(alloc, old, new)?.as_bytes())?;
    }
    Ok(document)
}

/// Whether a document was read and not refused where the line is empty, and else refused by this line.
fn is_told(alloc: Global, unread: Option<&Unread>, line: &str) -> Result<bool, NoMemory> {
    match unread {
        Some(Unread::Refused(refusal)) => Ok(refusal.line(alloc)?.as_str() == line),
        Some(Unread::NoMemory) => Err(NoMemory),
        None => Ok(line.is_empty()),
    }
}

fn is_run_refused(alloc: Global, bytes: &[u8], line: &str) -> Result<bool, NoMemory> {
    let unread = read_for_run(alloc, bytes).err();
    is_told(alloc, unread.as_ref(), line)
}

fn is_check_refused(alloc: Global, bytes: &[u8], line: &str) -> Result<bool, NoMemory> {
    let unread = read_for_check(alloc, bytes, "main").err();
    is_told(alloc, unread.as_ref(), line)
}

/// Whether a document is refused by this line where it is to be run; and whether its table `main` is listed, or refused
/// by the same line.
fn is_refused(alloc: Global, bytes: &[u8], line: &str, is_listed: bool) -> Result<bool, NoMemory> {
    if !is_run_refused(alloc, bytes, line)? {
        return Ok(false);
    }
    if is_listed {
        is_check_refused(alloc, bytes, "")
    } else {
        is_check_refused(alloc, bytes, line)
    }
}

/// Whether the document with a change is refused, and refused again. No range and no script is looked at where a table
/// is listed.
fn is_change_refused(alloc: Global, change: Change) -> Result<bool, NoMemory> {
    let (front, old, new, told) = change;
    let bytes = changed(alloc, front, old, new)?;
    let line = format!(in alloc; "refused: {told}\n")?;
    let is_listed = told.starts_with("board") || told.starts_with("script");
    let first = is_refused(alloc, &bytes, line.as_str(), is_listed)?;
    Ok(first && is_refused(alloc, &bytes, line.as_str(), is_listed)?)
}

#[test]
fn documents_are_refused_again(rt: HostRuntime) {
    for change in CHANGES {
        assert!(rt;
            is_change_refused(rt.alloc(), *change) == Ok(true),
            "{}",
            change.3
        );
    }
}

/// Texts that are refused, by `describe` or else by `undescribe`, and the rule that is told.
const CAPTURES: &[(bool, &str, &str)] = &[
    (true, "", "capture 1 First"),
    (true, "first 0\n", "capture 1 First"),
    (true, "first 65536\n", "capture 1 First"),
    (true, "first 1\n> -\n> 0\n", "capture 3 Form"),
    (true, "first 1\n> AB\n", "capture 2 Form"),
    (true, "first 1\n> -", "capture 2 Form"),
    (false, "", "description - NotDescription"),
    (
        false,
        "first 1\n> raw -\nproved 1\n",
        "description - NotDescription",
    ),
    (
        false,
        "first 1\n> raw 200001f2\nproved 0\n",
        "description - NotDescription",
    ),
];

fn answer(alloc: Global, is_capture: bool, text: &str) -> Result<Answer, NoMemory> {
    if is_capture {
        describe_answer(alloc, text.as_bytes())
    } else {
        undescribe_answer(alloc, text.as_bytes())
    }
}

/// Whether a text is refused by this rule, and refused again.
fn is_capture_refused(
    alloc: Global,
    is_capture: bool,
    text: &str,
    rule: &str,
) -> Result<bool, NoMemory> {
    let line = format!(in alloc; "refused: {rule}\n")?;
    for _ in 0..2 {
        let answer = answer(alloc, is_capture, text)?;
        if answer.status != REFUSED || answer.text.as_slice() != line.as_bytes() {
            return Ok(false);
        }
    }
    Ok(true)
}

#[test]
fn captures_are_refused_again(rt: HostRuntime) {
    for (is_capture, text, rule) in CAPTURES {
        assert!(rt;
            is_capture_refused(rt.alloc(), *is_capture, text, rule) == Ok(true),
            "{rule}"
        );
    }
}
