//! Whole sessions where memory runs out: what was owed was written, or nothing was, and each link and each connection
//! came back once. `checks/failing_allocations` makes each allocation of a test fail in turn, in a process of its own.
//! Each session runs twice: one of the two runs at most meets that allocation, so the other comes to its end.

use crate::fixtures::{
    APPLIED, Came, DOCUMENT, FIRST, FIRST_TRANSCRIPT, LENGTH, NOTHING_FAILS, ONE_READ, VALUE,
    answer, answer_at, document_with,
};
use crate::serving::{ASKED, door_for};
use ipb_base::NoMemory;
use ipb_outside::Door;
use ipbus_program::{DONE, NO_MEMORY, NOT_ALL_DONE};
use std::alloc::Global;
use std::marker::Sync;
use std::sync::Wait;
use std::thread::Threads;

const SERVED: &str = "connection 1 frames 1 closed\nboard b0 places 1 replied 1 timeout 0 lost 0\n";

/// A block in three packets of a small board.
const BLOCK: &str = "client 1
1 readblock b0:mem = 0x00000000 0x00000000 0x00000000 0x00000000 0x00000000 0x00000000 0x00000000 0x00000000 \
0x00000000 0x00000000 0x00000000 0x00000000 0x00000000 0x00000000 0x00000000 0x00000000 0x00000000 0x00000000 \
0x00000000 0x00000000 0x00000000 0x00000000 0x00000000 0x00000000 0x00000000 0x00000000 0x00000000 0x00000000 \
0x00000000 0x00000000 @1.1,2.1,3.1
board b0 places 3 replied 3 timeout 0 lost 0
";

const SUMS: &str = "client 1
1 write b0:a.top done @1.1
2 rmwsum b0:a was 0x80000000 @1.2
3 read b0:a = 0x80000001 @2.1
board b0 places 2 replied 2 timeout 0 lost 0
";

const TIMED_OUT: &str = "client 1
1 write b0:a timeout after 2 rounds, answered late: done @1.1
2 read b0:a = 0x00000001 @2.1
board b0 places 2 replied 1 timeout 1 lost 0
";

/// Two front ends over a network that loses, repeats and delays, and a client for each of them.
const FRONT_ENDS: &str = r#"
rounds = 255
window = 4
[[tables.channel]]
id = "ctrl"
nodes = [{ id = "enable", mask = 1 }, { id = "gain", mask = 0xf0 }]
[[tables.channel]]
id = "buffer"
address = 0x10
mode = "block"
size = 16
[[tables.front]]
id = "id"
permission = "r"
[[tables.front]]
id = "ch0"
address = 0x100
mode = "hierarchical"
module = "channel"
[[board]]
name = "fe0"
table = "front"
buffers = 4
noise = 7
ranges = [{ base = 0, size = 1, kind = "ro", init = [0xfe000001] }, { base = 0x100, size = 32 }]
[[board]]
name = "fe1"
table = "front"
buffers = 4
noise = 8
ranges = [{ base = 0, size = 1, kind = "ro", init = [0xfe000002] }, { base = 0x100, size = 32 }]
[[client]]
script = ["read fe0:id", "write fe0:ch0.ctrl.gain 5", "write fe0:ch0.ctrl.enable 1", "read fe0:ch0.ctrl", "dispatch",
  "writeblock fe0:ch0.buffer 1 2 3", "readblock fe0:ch0.buffer 4"]
[[client]]
script = ["rmwbits fe1:ch0.ctrl 0xffffff0f 0x30", "read fe1:ch0.ctrl.gain"]
"#;

const FRONT_ENDS_READ: &str = "client 1
1 read fe0:id = 0xfe000001 @1.1
2 write fe0:ch0.ctrl.gain done @1.2
3 write fe0:ch0.ctrl.enable done @1.3
4 read fe0:ch0.ctrl = 0x00000051 @1.4
5 writeblock fe0:ch0.buffer done @2.1
6 readblock fe0:ch0.buffer = 0x00000001 0x00000002 0x00000003 0x00000000 @2.2
client 2
1 rmwbits fe1:ch0.ctrl was 0x00000000 @1.1
2 read fe1:ch0.ctrl.gain = 0x00000003 @1.2
board fe0 places 2 replied 2 timeout 0 lost 0
board fe1 places 1 replied 1 timeout 0 lost 0
";

/// A word of the command line; a document with what stands in front of it and behind it, settings of its board, and
/// what stands in the place of its read; and the status and the text.
#[derive(Clone, Copy)]
struct Session {
    line: &'static str,
    parts: (&'static str, &'static str, &'static str),
    board: &'static str,
    script: &'static str,
    status: u8,
    text: &'static str,
}

/// A link that loses nothing, twice; one that loses, repeats and delays; one that loses what the hub gives up; and two
/// such links at once.
const SESSIONS: &[Session] = &[
    Session {
        line: "run",
        parts: ("", FIRST, ""),
        board: "",
        script: "",
        status: DONE,
        text: FIRST_TRANSCRIPT,
    },
    Session {
        line: "run",
        parts: ("", DOCUMENT, ""),
        board: "mtu = 92\n",
        script: "readblock b0:mem 30",
        status: DONE,
        text: BLOCK,
    },
    Session {
        line: "run",
        parts: ("", DOCUMENT, ""),
        board: "noise = 7\n",
        script: "write b0:a.top 1\", \"rmwsum b0:a 1\", \"dispatch\", \"read b0:a",
        status: DONE,
        text: SUMS,
    },
    Session {
        line: "run",
        parts: ("rounds = 2\n", DOCUMENT, ""),
        board: "fates = \"ddlll\"\n",
        script: "write b0:a 1\", \"dispatch\", \"read b0:a",
        status: NOT_ALL_DONE,
        text: TIMED_OUT,
    },
    Session {
        line: "run",
        parts: ("", FRONT_ENDS, ""),
        board: "",
        script: "",
        status: DONE,
        text: FRONT_ENDS_READ,
    },
];

const CONFIGURATION: Session = Session {
    line: "apply",
    parts: ("", DOCUMENT, VALUE),
    board: "",
    script: "read b0:a",
    status: DONE,
    text: APPLIED,
};

const RECORDING: Session = Session {
    line: "record",
    parts: ("", DOCUMENT, ""),
    board: "",
    script: "read b0:sys.id",
    status: DONE,
    text: ONE_READ,
};

/// A transcript of the first document that fits, and one that breaks each rule which it can break.
const AUDITS: &[Session] = &[
    Session {
        line: "audit",
        parts: (LENGTH, FIRST, FIRST_TRANSCRIPT),
        board: "",
        script: "",
        status: DONE,
        text: "audit yes\n",
    },
    Session {
        line: "audit",
        parts: (LENGTH, FIRST, "client 1\n1 read b0:id = 0x0000abcd @1.1\n"),
        board: "",
        script: "",
        status: NOT_ALL_DONE,
        text: "audit no 3 Form\n",
    },
    Session {
        line: "audit",
        parts: (LENGTH, FIRST, ANOTHER_PLACE),
        board: "",
        script: "",
        status: NOT_ALL_DONE,
        text: "audit no 2 Place\n",
    },
    Session {
        line: "audit",
        parts: (LENGTH, FIRST, ANOTHER_WORD),
        board: "",
        script: "",
        status: NOT_ALL_DONE,
        text: "audit no 2 Result\n",
    },
    Session {
        line: "audit",
        parts: (LENGTH, FIRST, ANOTHER_COUNT),
        board: "",
        script: "",
        status: NOT_ALL_DONE,
        text: "audit no 3 Count\n",
    },
];

const ANOTHER_PLACE: &str =
    "client 1\n1 read b0:id = 0x0000abcd @2.1\nboard b0 places 1 replied 1 timeout 0 lost 0\n";

const ANOTHER_WORD: &str =
    "client 1\n1 read b0:id = 0x0000abce @1.1\nboard b0 places 1 replied 1 timeout 0 lost 0\n";

const ANOTHER_COUNT: &str =
    "client 1\n1 read b0:id = 0x0000abcd @1.1\nboard b0 places 1 replied 0 timeout 0 lost 0\n";

/// What was run came to the status and the text that it is owed, or to want of memory and no text; or to anything else,
/// or not all that was made came back once.
#[derive(Clone, Copy, PartialEq, Eq)]
enum End {
    Whole,
    WithoutMemory,
    Otherwise,
}

/// The end of what came where this status and this text are owed.
fn end_of(came: &Came, status: u8, text: &str) -> End {
    if came.is(status, text) {
        End::Whole
    } else if came.is(NO_MEMORY, "") {
        End::WithoutMemory
    } else {
        End::Otherwise
    }
}

/// What a session comes to.
fn end_of_session<T: Threads + Wait + Sync>(
    rt: &T,
    alloc: Global,
    session: &Session,
) -> Result<End, NoMemory> {
    let document = document_with(alloc, session.parts, session.board, session.script)?;
    let came = answer(rt, alloc, session.line, document.as_str(), NOTHING_FAILS)?;
    Ok(end_of(&came, session.status, session.text))
}

/// What `serve` comes to with one client. Its connection is given back, or never came.
fn end_of_serving<T: Threads + Wait + Sync>(rt: &T, alloc: Global) -> Result<End, NoMemory> {
    let mut door = door_for(alloc, 1, &ASKED, 0)?;
    let came = answer_at(
        rt,
        alloc,
        "serve 5000 1",
        DOCUMENT,
        NOTHING_FAILS,
        &mut door,
    )?;
    if door.kept(0).is_none() && door.accept().is_err() {
        return Ok(End::Otherwise);
    }
    Ok(end_of(&came, DONE, SERVED))
}

/// Whether each of two runs was right, and one of them whole.
fn are_right(first: Result<End, NoMemory>, second: Result<End, NoMemory>) -> bool {
    let whole = Ok(End::Whole);
    let otherwise = Ok(End::Otherwise);
    first != otherwise && second != otherwise && (first == whole || second == whole)
}

/// Whether a session is right each time that it is run.
fn is_right<T: Threads + Wait + Sync>(rt: &T, alloc: Global, session: &Session) -> bool {
    let first = end_of_session(rt, alloc, session);
    are_right(first, end_of_session(rt, alloc, session))
}

#[test]
fn sessions_with_any_memory(rt: HostRuntime) {
    for session in SESSIONS {
        assert!(rt; is_right(&rt, rt.alloc(), session), "{}", session.text);
    }
}

#[test]
fn a_client_with_any_memory(rt: HostRuntime) {
    let first = end_of_serving(&rt, rt.alloc());
    assert!(rt; are_right(first, end_of_serving(&rt, rt.alloc())));
}

#[test]
fn a_configuration_with_any_memory(rt: HostRuntime) {
    assert!(rt; is_right(&rt, rt.alloc(), &CONFIGURATION));
}

#[test]
fn a_recording_with_any_memory(rt: HostRuntime) {
    assert!(rt; is_right(&rt, rt.alloc(), &RECORDING));
}

#[test]
fn an_audit_with_any_memory(rt: HostRuntime) {
    for session in AUDITS {
        assert!(rt; is_right(&rt, rt.alloc(), session), "{}", session.text);
    }
}
