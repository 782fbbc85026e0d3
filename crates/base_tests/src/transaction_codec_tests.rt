//! Requests and replies as words, both ways.

use std::alloc::Global;
use transaction_codec::{read_replies, read_requests, write_replies, write_requests};

/// One request of each type, with identifiers 0 to 5.
const REQUESTS: [u32; 18] = [
    0x2000_010f,
    4,
    0x2001_022f,
    8,
    0x2002_021f,
    16,
    7,
    9,
    0x2003_013f,
    5,
    1,
    0x2004_014f,
    8,
    0x7fff_ffff,
    0x8000_0000,
    0x2005_015f,
    12,
    1,
];

/// Replies to them: words, a timeout after one word, a write done, a bus error, the word before, an RMW that failed.
const REPLIES: [u32; 9] = [
    0x2000_0100,
    0xabcd,
    0x2001_0126,
    7,
    0x2002_0210,
    0x2003_0035,
    0x2004_0140,
    3,
    0x2005_0054,
];

/// Whether there are words, and these.
fn are_words(words: Option<Vec<u32>>, wanted: &[u32]) -> bool {
    match words {
        Some(words) => words.as_slice() == wanted,
        None => false,
    }
}

/// The requests, read and written.
fn requests_written(alloc: Global) -> Option<Vec<u32>> {
    let list = read_requests(alloc, &REQUESTS).ok()?;
    write_requests(alloc, list.as_slice()).ok()
}

#[test]
fn requests_are_read_and_written(rt: HostRuntime) {
    assert!(rt; are_words(requests_written(rt.alloc()), &REQUESTS));
}

/// The replies, read and written.
fn replies_written(alloc: Global) -> Option<Vec<u32>> {
    let list = read_replies(alloc, &REPLIES).ok()?;
    write_replies(alloc, list.as_slice()).ok()
}

#[test]
fn replies_are_read_and_written(rt: HostRuntime) {
    assert!(rt; are_words(replies_written(rt.alloc()), &REPLIES));
}
