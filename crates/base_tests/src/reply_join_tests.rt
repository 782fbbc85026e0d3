//! Words that are no replies to the requests of a body.

use reply_join::{Answers, JoinRefusal, join_reply};
use std::alloc::Global;
use transaction_codec::read_requests;

/// A read of two words, a sum, a write of two words and a read of none.
const EACH_KIND: [u32; 11] = [
    0x2000_020f,
    0,
    0x2001_015f,
    4,
    1,
    0x2002_021f,
    8,
    7,
    9,
    0x2003_000f,
    0,
];

/// What a reply answers to the requests.
fn joined(alloc: Global, reply: &[u32]) -> Result<Answers, JoinRefusal> {
    match read_requests(alloc, &EACH_KIND) {
        Ok(_) => join_reply(alloc, &EACH_KIND, reply),
        Err(_) => Err(JoinRefusal::NoMemory),
    }
}

/// Words that are no reply to them, and the place of the first wrong word, or how many there are where one is missing.
const GARBLED: [(&[u32], u64); 8] = [
    (&[], 0),
    // another identifier, another type, a code that a read has not, one word more than asked, and a code with all words
    (&[0x2001_0200, 1, 2], 0),
    (&[0x2000_0210], 0),
    (&[0x2000_0005], 0),
    (&[0x2000_0300, 1, 2, 3], 0),
    (&[0x2000_0204, 1, 2], 0),
    (&[0x2000_0200, 1, 2, 0x2001_0150], 4),
    // one word behind the last reply
    (
        &[
            0x2000_0200,
            1,
            2,
            0x2001_0150,
            0xabcd,
            0x2002_0210,
            0x2003_0000,
            0,
        ],
        7,
    ),
];

/// Whether words are refused at this place.
fn is_garbled_at(alloc: Global, reply: &[u32], place: u64) -> bool {
    joined(alloc, reply).err() == Some(JoinRefusal::Garbled { place })
}

fn is_always_garbled_at(alloc: Global, reply: &[u32], place: u64) -> bool {
    is_garbled_at(alloc, reply, place) && is_garbled_at(alloc, reply, place)
}

#[test]
fn replies_to_other_bodies_are_refused_again(rt: HostRuntime) {
    for &(reply, place) in &GARBLED {
        assert!(rt; is_always_garbled_at(rt.alloc(), reply, place));
    }
}
