//! Datagrams that a hub takes, and those that it leaves alone.

use ipb_base::NoMemory;
use links::{Message, read_for_hub};
use std::alloc::Global;

/// These bytes and zeros behind them, so many bytes in all.
pub(crate) fn padded(alloc: Global, front: &[u8], length: usize) -> Result<Vec<u8>, NoMemory> {
    let mut datagram = front.to_vec(alloc)?;
    for _ in front.len()..length {
        datagram.push(0)?;
    }
    Ok(datagram)
}

/// What a hub reads: a reply to this packet of so many words, a status, or nothing.
#[derive(Clone, Copy, PartialEq, Eq)]
enum Read {
    Reply(u16, usize),
    Status,
    Other,
}

fn read_by_hub(alloc: Global, datagram: &[u8]) -> Result<Read, NoMemory> {
    Ok(match read_for_hub(alloc, datagram)? {
        Message::Reply { id, words } => Read::Reply(id.get(), words.len()),
        Message::Status(_) => Read::Status,
        Message::Other => Read::Other,
    })
}

/// Whether a hub reads this, and reads it again.
fn is_read(alloc: Global, front: &[u8], length: usize, wanted: Read) -> Result<bool, NoMemory> {
    let datagram = padded(alloc, front, length)?;
    let first = read_by_hub(alloc, &datagram)?;
    Ok(first == wanted && read_by_hub(alloc, &datagram)? == wanted)
}

/// The front of a datagram, how many bytes it has, and what a hub reads.
const HEARD: &[(&[u8], usize, Read)] = &[
    (b"", 0, Read::Other),
    (b"\x20\0\x01", 3, Read::Other),
    (b"\x20\0\x01\xf3", 4, Read::Other),
    (b"\x30\0\x01\xf0", 8, Read::Other),
    (b"\x20\0\x01\xf0", 8976, Read::Other),
    (b"\x20\0\x01\xf2", 4, Read::Other),
    // a reply to the identifier 0, which a hub never sends
    (b"\x20\0\0\xf0", 8, Read::Other),
    // a status with an MTU of 0, and a part of one
    (b"\x20\0\0\xf1", 64, Read::Other),
    (
        b"\x20\0\0\xf1\0\0\x05\xdc\0\0\0\x04\x20\0\x01\xf0",
        60,
        Read::Other,
    ),
    (
        b"\x20\0\0\xf1\0\0\x05\xdc\0\0\0\x04\x20\0\x01\xf0",
        64,
        Read::Status,
    ),
    (b"\x20\0\x01\xf0", 4, Read::Reply(1, 0)),
    (b"\xf0\x01\0\x20", 12, Read::Reply(1, 2)),
];

#[test]
fn a_hub_reads_anything(rt: HostRuntime) {
    for (front, length, wanted) in HEARD {
        assert!(rt; is_read(rt.alloc(), front, *length, *wanted) == Ok(true));
    }
}
