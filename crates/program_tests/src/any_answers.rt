//! `run` on a board on a network that answers anything.

use crate::fixtures::{run_over, wide_sink};
use ipb_base::NoMemory;
use ipbus_program::{DONE, NOT_ALL_DONE};
use lossy_network::{ScriptRack, are_datagrams};
use std::alloc::Global;
use std::marker::Sync;
use std::sync::Wait;
use std::test::Fail;
use std::thread::Threads;

const DOCUMENT: &str = r#"[[tables.main]]
id = "sys"
mode = "hierarchical"
[[tables.main.nodes]]
id = "id"
address = 4
permission = "r"
[[board]]
name = "b0"
table = "main"
link = "udp"
address = "127.0.0.1:50001"
[[client]]
script = ["read b0:sys.id"]
"#;

/// What a board with an MTU of 1500 bytes and 4 buffers tells that expects the identifier 1.
const STATUS: [u8; 64] = *b"\x20\0\0\xf1\0\0\x05\xdc\0\0\0\x04\x20\0\x01\xf0\
    \0\0\0\0\0\0\0\0\0\0\0\0\0\0\0\0\0\0\0\0\0\0\0\0\
    \0\0\0\0\0\0\0\0\0\0\0\0\0\0\0\0\0\0\0\0\0\0\0\0";

/// The same with an MTU of 0.
const NO_MTU: [u8; 64] = *b"\x20\0\0\xf1\0\0\0\0\0\0\0\x04\x20\0\x01\xf0\
    \0\0\0\0\0\0\0\0\0\0\0\0\0\0\0\0\0\0\0\0\0\0\0\0\
    \0\0\0\0\0\0\0\0\0\0\0\0\0\0\0\0\0\0\0\0\0\0\0\0";

/// The reply to the packet.
const READ: [u8; 12] = *b"\x20\0\x01\xf0\x20\0\x01\0\0\0\0\x07";

/// A reply with a code that a read has not, and one with another identifier.
const NO_CODE: [u8; 12] = *b"\x20\0\x01\xf0\x20\x01\x01\0\0\0\xab\xcd";

const ANOTHER: [u8; 12] = *b"\x20\0\x02\xf0\x20\0\x01\0\0\0\0\x01";

const REPLIED: &str = "board b0 places 1 replied 1 timeout 0 lost 0\n";

/// The datagram that a letter stands for: a status, one with an MTU of 0, the first 60 bytes of a status, a reply, its
/// first eleven and four bytes, the two other replies, or no bytes.
fn datagram(letter: char) -> &'static [u8] {
    match letter {
        's' => &STATUS,
        'm' => &NO_MTU,
        't' => &STATUS[..60],
        'r' => &READ,
        'e' => &READ[..11],
        'f' => &READ[..4],
        'c' => &NO_CODE,
        'a' => &ANOTHER,
        _ => &[],
    }
}

/// A rack of one link with the answers that these letters stand for.
fn rack_of(alloc: Global, letters: &str) -> Result<ScriptRack, Fail> {
    let mut list = Vec::new(alloc);
    for letter in letters.chars() {
        list.push(datagram(letter).to_vec(alloc)?)?;
    }
    if !are_datagrams(&list) {
        return Err("an answer is too long for a datagram".into());
    }
    let mut lists = Vec::new(alloc);
    lists.push(list)?;
    Ok(ScriptRack::new(alloc, lists))
}

/// Whether a text is the transcript with this result of the read, and this line of the board.
fn has_result(alloc: Global, text: &[u8], outcome: &str, board: &str) -> Result<bool, NoMemory> {
    let wanted = format!(in alloc; "client 1\n1 read b0:sys.id {outcome}\n{board}")?;
    Ok(text == wanted.as_bytes())
}

/// Whether `run` comes to that over such a link, which hands out each answer.
fn comes_to<T: Threads + Wait + Sync>(
    rt: &T,
    alloc: Global,
    letters: &str,
    wanted: (&str, &str, u8),
) -> Result<bool, Fail> {
    let (outcome, board, status) = wanted;
    let mut rack = rack_of(alloc, letters)?;
    let mut out = wide_sink(alloc)?;
    let given = run_over(rt, alloc, DOCUMENT, &mut rack, &mut out)?;
    let are_handed = match rack.kept(0) {
        Some(link) => link.handed().len() == letters.len(),
        None => false,
    };
    Ok(given == status && are_handed && has_result(alloc, out.bytes(), outcome, board)?)
}

/// The answers of the board, the result of the read, the line of the board, and the status.
const BOARDS: &[(&str, (&str, &str, u8))] = &[
    ("sc", ("garbled @1.1", REPLIED, NOT_ALL_DONE)),
    ("sar", ("= 0x00000007 @1.1", REPLIED, DONE)),
    ("", ("unsent", "board b0 silent\n", NOT_ALL_DONE)),
    ("mt-sr", ("= 0x00000007 @1.1", REPLIED, DONE)),
    ("se-r", ("= 0x00000007 @1.1", REPLIED, DONE)),
    ("sf", ("garbled @1.1", REPLIED, NOT_ALL_DONE)),
];

#[test]
fn a_board_answers_anything(rt: HostRuntime) -> Result<(), Fail> {
    for (letters, wanted) in BOARDS {
        assert!(rt; comes_to(&rt, rt.alloc(), letters, *wanted)?, "{letters}");
    }
    Ok(())
}
