//! What becomes of `run` over links that fail and links that lose, and what the link that was given back tells.

use crate::fixtures::{DOCUMENT, DOCUMENT_TRANSCRIPT, Fails, answer, document_with};
use ipb_base::NoMemory;
use ipbus_program::{DONE, NOT_ALL_DONE};
use std::alloc::Global;
use std::marker::Sync;
use std::sync::Wait;
use std::test::Fail;
use std::thread::Threads;

const DOWN: &str = "client 1\n1 read b0:sys.id link lost\nboard b0 down\n";

const LOST: &str =
    "client 1\n1 read b0:sys.id link lost @1.1\nboard b0 places 1 replied 0 timeout 0 lost 1\n";

const TIMED_OUT: &str = "client 1
1 readblock b0:mem timeout after 2 rounds, execution unknown @1.1
2 read b0:sys.id unsent
board b0 places 1 replied 0 timeout 1 lost 0
";

const READ: &str = "read b0:sys.id";

/// A read, or a block in front of it.
const BLOCK: &str = "readblock b0:mem 14\", \"read b0:sys.id";

/// Settings, those of the board, a script, and the number of the call of the link that fails; the status and the text;
/// how many bodies the board executed, how many datagrams the link held back, and how many receives were quiet.
type Row = (
    &'static str,
    &'static str,
    &'static str,
    u64,
    (u8, &'static str),
    (usize, u64, u64),
);

const RUNS: &[Row] = &[
    // the greeting makes the calls 1 and 2 of the link, and the packet with its reply the calls 3 and 4
    ("", "", READ, 1, (NOT_ALL_DONE, DOWN), (0, 0, 0)),
    ("", "", READ, 2, (NOT_ALL_DONE, DOWN), (0, 0, 0)),
    ("", "", READ, 3, (NOT_ALL_DONE, LOST), (0, 0, 0)),
    ("", "", READ, 4, (NOT_ALL_DONE, LOST), (0, 0, 0)),
    ("", "", READ, 5, (DONE, DOCUMENT_TRANSCRIPT), (1, 0, 0)),
    // a reply comes behind a status request, before the status reply: a round is not given up while its answer is on
    // its way
    (
        "rounds = 1\n",
        "fates = \"ddd1\"\n",
        READ,
        0,
        (DONE, DOCUMENT_TRANSCRIPT),
        (1, 1, 1),
    ),
    // a packet and two status requests are lost: a timeout in two rounds, and no place for what follows
    (
        "window = 1\nrounds = 2\n",
        "mtu = 92\nfates = \"ddlll\"\n",
        BLOCK,
        0,
        (NOT_ALL_DONE, TIMED_OUT),
        (0, 3, 3),
    ),
];

/// Whether it is so.
fn is_so<T: Threads + Wait + Sync>(rt: &T, alloc: Global, row: Row) -> Result<bool, NoMemory> {
    let (settings, board, script, call, (status, text), first) = row;
    let document = document_with(alloc, (settings, DOCUMENT, ""), board, script)?;
    let fails = Fails {
        make: 0,
        call,
        write: 0,
        take: 1000,
    };
    let came = answer(rt, alloc, "run", document.as_str(), fails)?;
    Ok(came.is(status, text) && came.links.first == Some(first))
}

#[test]
fn a_link_fails_or_loses(rt: HostRuntime) -> Result<(), Fail> {
    for row in RUNS {
        assert!(rt; is_so(&rt, rt.alloc(), *row)?);
    }
    Ok(())
}
