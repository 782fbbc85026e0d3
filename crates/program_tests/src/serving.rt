//! `control` where connections are served.

use crate::fixtures::{FIRST, NOTHING_FAILS, answer_at};
use ipb_base::NoMemory;
use ipb_outside::{MemDoor, MemSink, MemSource};
use ipbus_program::{DONE, DOOR_FAULT, NOT_ALL_DONE, REFUSED};
use std::alloc::Global;
use std::marker::Sync;
use std::sync::Wait;
use std::thread::Threads;

/// A frame for board 0 with a read of the word at address 4, and the frame that answers it.
pub(crate) const ASKED: [u8; 20] = [
    0, 0, 0, 16, 0, 0, 0, 0, 0x20, 0, 0, 0xf0, 0x20, 0, 1, 0x0f, 0, 0, 0, 4,
];

const ANSWERED: &[u8] = &[
    0, 0, 0, 20, 0, 0, 0, 0, 0, 0, 0, 0, 0x20, 0, 0, 0xf0, 0x20, 0, 1, 0, 0, 0, 0xab, 0xcd,
];

/// A part of that frame.
const PART: &[u8] = b"\0\0\0\x10\0\0\0\0\x20\0";

const SERVED: &str = "connection 1 frames 1 closed\nboard b0 places 1 replied 1 timeout 0 lost 0\n";

const CUT: &str = "connection 1 frames 0 cut frame\nboard b0 places 0 replied 0 timeout 0 lost 0\n";

/// The first document with a faulty script. Scripts are checked where connections are served, and not run.
const FAULTY: &str = r#"
tables.main = [{ id = "id", address = 4 }]
board = [{ name = "b0", table = "main", ranges = [{ base = 0, size = 16 }] }]
client = [{ script = ["reed b0:id"] }]
"#;

/// A door with this many pairs, each with these bytes, whose call with this number fails: none, where it is 0.
pub(crate) fn door_for(
    alloc: Global,
    pairs: usize,
    bytes: &[u8],
    fail: u64,
) -> Result<MemDoor, NoMemory> {
    let mut waiting = Vec::new(alloc);
    for _ in 0..pairs {
        let source = MemSource::new(bytes.to_vec(alloc)?, 7, Vec::new(alloc));
        waiting.push((source, MemSink::new(alloc, 5, Vec::new(alloc))?))?;
    }
    MemDoor::new(alloc, waiting, [fail].to_vec(alloc)?)
}

/// How many connections are served, how many come, the bytes of each, and the call of the door that fails.
type Coming = (&'static str, usize, &'static [u8], u64);

/// The status, the text, and what the first connection was answered: `None` where it was not given back.
type Wanted = (u8, &'static str, Option<&'static [u8]>);

/// Whether the first connection of a door was given back with this answer.
fn is_kept(door: &MemDoor, answer: Option<&[u8]>) -> bool {
    match (door.kept(0), answer) {
        (Some(pair), Some(bytes)) => pair.1.bytes() == bytes,
        (None, None) => true,
        _ => false,
    }
}

/// Whether connections are served so.
fn is_served<T: Threads + Wait + Sync>(
    rt: &T,
    alloc: Global,
    document: &str,
    coming: Coming,
    wanted: Wanted,
) -> Result<bool, NoMemory> {
    let (line, pairs, bytes, fail) = coming;
    let (status, text, answer) = wanted;
    let mut door = door_for(alloc, pairs, bytes, fail)?;
    let came = answer_at(rt, alloc, line, document, NOTHING_FAILS, &mut door)?;
    Ok(came.is(status, text) && is_kept(&door, answer))
}

const ONE: &str = "serve 5000 1";

const TWO: &str = "serve 5000 2";

/// A connection, one that ends within a frame, a door with no pair, with one pair fewer than connections, and one whose
/// first or second call fails. Where a second one does not come, the first one is served to its end.
const SERVINGS: &[(&str, Coming, Wanted)] = &[
    (FIRST, (ONE, 1, &ASKED, 0), (DONE, SERVED, Some(ANSWERED))),
    (FIRST, (ONE, 1, PART, 0), (NOT_ALL_DONE, CUT, Some(b""))),
    (FIRST, (TWO, 0, b"", 0), (DOOR_FAULT, "", None)),
    (FIRST, (TWO, 1, &ASKED, 0), (DOOR_FAULT, "", Some(ANSWERED))),
    (FIRST, (TWO, 1, &ASKED, 1), (DOOR_FAULT, "", None)),
    (FIRST, (TWO, 1, &ASKED, 2), (DOOR_FAULT, "", None)),
    // the scripts of a document are checked, and the door is left alone where one is faulty
    (
        FAULTY,
        (ONE, 1, &ASKED, 0),
        (REFUSED, "refused: script 1 1 BadLine\n", None),
    ),
];

#[test]
fn connections_are_served_or_the_door_fails(rt: HostRuntime) {
    for (document, coming, wanted) in SERVINGS {
        assert!(rt; is_served(&rt, rt.alloc(), document, *coming, *wanted) == Ok(true));
    }
}

const BAD_FRAME: &str =
    "connection 1 frames 0 bad frame\nboard b0 places 0 replied 0 timeout 0 lost 0\n";

const CLOSED: &str = "connection 1 frames 1 closed\nboard b0 places 0 replied 0 timeout 0 lost 0\n";

/// Bytes of a client, the status, the text, and its answer, which is a code without a packet.
const BAD_FRAMES: &[(&[u8], Wanted)] = &[
    // lengths of 7 and of 8977
    (
        b"\0\0\0\x07\0\0\0\0\x20\0\0",
        (NOT_ALL_DONE, BAD_FRAME, Some(b"")),
    ),
    (
        b"\0\0\x23\x11\0\0\0\0\x20\0\0\xf0",
        (NOT_ALL_DONE, BAD_FRAME, Some(b"")),
    ),
    // a status request, and a read of 255 words, whose answer is too long
    (
        b"\0\0\0\x08\0\0\0\0\x20\0\0\xf1",
        (DONE, CLOSED, Some(b"\0\0\0\x08\0\0\0\0\0\x04\0\0")),
    ),
    (
        b"\0\0\0\x10\0\0\0\0\x20\0\0\xf0\x20\0\xff\x0f\0\0\0\0",
        (DONE, CLOSED, Some(b"\0\0\0\x08\0\0\0\0\0\x07\0\0")),
    ),
];

#[test]
fn bad_frames_are_answered_or_end_the_connection(rt: HostRuntime) {
    for (bytes, wanted) in BAD_FRAMES {
        let coming = (ONE, 1, *bytes, 0);
        assert!(rt; is_served(&rt, rt.alloc(), FIRST, coming, *wanted) == Ok(true));
    }
}
