//! `control` on texts in memory: what each command answers, and where a make, a read or a write fails.

use crate::fixtures::{
    APPLIED, DESCRIBED, DOCUMENT, FIRST, FIRST_TRANSCRIPT, Fails, LENGTH, NOT_KEPT, NOTHING_FAILS,
    ONE_READ, POLICY, VALUE, answer, over_links, wide_sink,
};
use command_words::USAGE_LINE;
use ipb_base::NoMemory;
use ipb_outside::MemSource;
use ipbus_program::{DONE, NOT_ALL_DONE, RACK_FAULT, READ_FAULT, REFUSED, USAGE, WRITE_FAULT};
use std::alloc::Global;
use std::marker::Sync;
use std::sync::Wait;
use std::thread::Threads;

/// A board behind UDP, of which a rack of simulated links makes none.
const OVER_UDP: &str = r#"
board = [{ name = "b0", table = "t", link = "udp", address = "10.0.0.1:50001" }]
tables.t = []
"#;

/// One board more.
const OTHER: &str = "[[board]]\nname = 'b1'\ntable = 'main'\nranges = [{ base = 0, size = 1 }]\n";

const NO_RULES: &str = "policy = []\n";

const DENIED: &str =
    "client 1\n1 read b0:id denied by rule 0\nboard b0 places 0 replied 0 timeout 0 lost 0\n";

const SAVED: &str = "[state.b0]\n\"a.top\" = 0x00000000\n";

/// What stands in front of a document, the document, and what stands behind it.
type Input = (&'static str, &'static str, &'static str);

/// The words of a line, an input, the status and the text. Of a load each operation is answered the number of those
/// before it.
const ANSWERS: &[(&str, Input, u8, &str)] = &[
    ("run", ("", FIRST, ""), DONE, FIRST_TRANSCRIPT),
    ("run", (NO_RULES, FIRST, ""), NOT_ALL_DONE, DENIED),
    (
        "run",
        ("", "", ""),
        REFUSED,
        "refused: document - NoBoards\n",
    ),
    ("run", ("", OVER_UDP, ""), RACK_FAULT, ""),
    ("run x", ("", FIRST, ""), USAGE, USAGE_LINE),
    (
        "check main",
        ("", FIRST, ""),
        DONE,
        "id 0x00000004 0xffffffff rw single 1\n",
    ),
    (
        "check none",
        ("", FIRST, ""),
        REFUSED,
        "refused: compile none - UnknownModule\n",
    ),
    ("check -main", ("", FIRST, ""), USAGE, USAGE_LINE),
    (
        "load 1",
        ("", "", ""),
        DONE,
        "load 1\ndone 1\nwas total 0\nplaces 1\n",
    ),
    (
        "load 0000000005",
        ("", "", ""),
        DONE,
        "load 5\ndone 5\nwas total 10\nplaces 5\n",
    ),
    ("load 0", ("", "", ""), USAGE, USAGE_LINE),
    (
        "serve 5000 1",
        ("", "", ""),
        REFUSED,
        "refused: document - NoBoards\n",
    ),
    (
        "serve 5000 1",
        (POLICY, DOCUMENT, ""),
        REFUSED,
        "refused: policy - NoServe\n",
    ),
    ("serve 0 1", ("", FIRST, ""), USAGE, USAGE_LINE),
    ("save", ("", DOCUMENT, ""), DONE, SAVED),
    (
        "save",
        ("", DOCUMENT, VALUE),
        REFUSED,
        "refused: document state Shape\n",
    ),
    ("apply", ("", DOCUMENT, VALUE), DONE, APPLIED),
    ("apply", (POLICY, DOCUMENT, VALUE), NOT_ALL_DONE, SAVED),
    (
        "apply",
        ("", DOCUMENT, NOT_KEPT),
        REFUSED,
        "refused: state b0 a NotKept\n",
    ),
    ("record", ("", DOCUMENT, ""), DONE, ONE_READ),
    (
        "record",
        ("", DOCUMENT, OTHER),
        REFUSED,
        "refused: document - OneBoard\n",
    ),
    ("describe", ("", ONE_READ, ""), DONE, DESCRIBED),
    (
        "describe",
        ("", "", ""),
        REFUSED,
        "refused: capture 1 First\n",
    ),
    ("undescribe", ("", DESCRIBED, ""), DONE, ONE_READ),
    (
        "undescribe",
        ("", "", ""),
        REFUSED,
        "refused: description - NotDescription\n",
    ),
    (
        "audit",
        (LENGTH, FIRST, FIRST_TRANSCRIPT),
        DONE,
        "audit yes\n",
    ),
    (
        "audit",
        (LENGTH, FIRST, ""),
        NOT_ALL_DONE,
        "audit no 1 Form\n",
    ),
    (
        "audit",
        ("", "", ""),
        REFUSED,
        "refused: document - NoLength\n",
    ),
    ("", ("", FIRST, ""), USAGE, USAGE_LINE),
];

/// Whether the words of a line get this status and this text for an input.
fn is_answered<T: Threads + Wait + Sync>(
    rt: &T,
    alloc: Global,
    line: &str,
    input: Input,
    status: u8,
    text: &str,
) -> Result<bool, NoMemory> {
    let (front, document, behind) = input;
    let input = format!(in alloc; "{front}{document}{behind}")?;
    let came = answer(rt, alloc, line, input.as_str(), NOTHING_FAILS)?;
    Ok(came.is(status, text))
}

#[test]
fn each_command_is_done_or_refused(rt: HostRuntime) {
    for (line, input, status, text) in ANSWERS {
        let is_answered = is_answered(&rt, rt.alloc(), line, *input, *status, text);
        assert!(rt; is_answered == Ok(true), "{line}");
    }
}

/// The words of a line for the first document; the numbers of the make, of the call of the link and of the write that
/// fail; the status and the text. The first call of a link is that of the greeting.
const FAULTS: &[(&str, u64, u64, u64, u8, &str)] = &[
    ("", 0, 0, 1, WRITE_FAULT, ""),
    ("run", 0, 0, 1, WRITE_FAULT, ""),
    ("check main", 0, 0, 1, WRITE_FAULT, ""),
    ("check none", 0, 0, 1, WRITE_FAULT, ""),
    ("load 1", 0, 0, 1, WRITE_FAULT, ""),
    ("run", 1, 0, 0, RACK_FAULT, ""),
    ("record", 1, 0, 0, RACK_FAULT, ""),
    (
        "load 5",
        0,
        1,
        0,
        NOT_ALL_DONE,
        "load 5\ndone 0\nwas total 0\nplaces 0\n",
    ),
];

/// Whether the words of a line get this status and this text for a document.
fn comes_to<T: Threads + Wait + Sync>(
    rt: &T,
    alloc: Global,
    line: &str,
    document: &str,
    fails: Fails,
    wanted: (u8, &str),
) -> bool {
    match answer(rt, alloc, line, document, fails) {
        Ok(came) => came.is(wanted.0, wanted.1),
        Err(NoMemory) => false,
    }
}

#[test]
fn a_make_a_call_or_the_first_write_fails(rt: HostRuntime) {
    for (line, make, call, write, status, text) in FAULTS {
        let fails = Fails {
            make: *make,
            call: *call,
            write: *write,
            take: 1000,
        };
        assert!(rt;
            comes_to(&rt, rt.alloc(), line, FIRST, fails, (*status, text)),
            "{line}"
        );
    }
}

/// Whether nothing is written where the read with this number fails and each gives one byte.
fn is_unread<T: Threads + Wait + Sync>(rt: &T, alloc: Global, read: u64) -> Result<bool, NoMemory> {
    let fail = [read].to_vec(alloc)?;
    let mut input = MemSource::new(FIRST.as_bytes().to_vec(alloc)?, 1, fail);
    let mut out = wide_sink(alloc)?;
    let status = over_links(rt, alloc, "run", &mut input, &mut out);
    Ok(status == READ_FAULT && out.bytes().is_empty())
}

#[test]
fn each_read_fails_in_turn(rt: HostRuntime) {
    for read in 1..=FIRST.len() as u64 + 1 {
        assert!(rt; is_unread(&rt, rt.alloc(), read) == Ok(true));
    }
}

/// Whether the bytes before it were written where the write with this number fails and each takes so many bytes.
fn is_written<T: Threads + Wait + Sync>(rt: &T, alloc: Global, take: usize, write: usize) -> bool {
    let before = take.saturating_mul(write.saturating_sub(1));
    let fails = Fails {
        make: 0,
        call: 0,
        write: write as u64,
        take,
    };
    let wanted = match FIRST_TRANSCRIPT.get(..before) {
        Some(text) if before < FIRST_TRANSCRIPT.len() => (WRITE_FAULT, text),
        _ => (DONE, FIRST_TRANSCRIPT),
    };
    comes_to(rt, alloc, "run", FIRST, fails, wanted)
}

/// A byte at a time, and 16, of which the last write takes fewer. No write comes behind the last byte.
fn is_written_in_pieces<T: Threads + Wait + Sync>(rt: &T, alloc: Global, write: usize) -> bool {
    is_written(rt, alloc, 1, write) && is_written(rt, alloc, 16, write)
}

#[test]
fn each_write_fails_in_turn(rt: HostRuntime) {
    for write in 1..=FIRST_TRANSCRIPT.len() {
        assert!(rt; is_written_in_pieces(&rt, rt.alloc(), write));
    }
}

/// The call of the link that fails, the status of `record`, and how many bytes of the capture are there then: those of
/// the calls before. The greeting makes the calls 1 and 2, and the packet with its reply the calls 3 and 4.
const RECORDED: &[(u64, u8, usize)] = &[
    (1, NOT_ALL_DONE, 8),
    (2, NOT_ALL_DONE, 139),
    (3, NOT_ALL_DONE, 270),
    (4, NOT_ALL_DONE, 297),
    (5, DONE, 324),
];

#[test]
fn what_a_failing_link_carried_is_recorded(rt: HostRuntime) {
    for (call, status, length) in RECORDED {
        let fails = Fails {
            make: 0,
            call: *call,
            write: 0,
            take: 1000,
        };
        let text = ONE_READ.get(..*length).unwrap_or("");
        assert!(rt; comes_to(&rt, rt.alloc(), "record", DOCUMENT, fails, (*status, text)));
    }
}
