//! Packets read and written, in both byte orders.

use packet_codec::{MAX_BODY_WORDS, read_packet, write_packet};
use std::alloc::Global;

const BIG: [u8; 12] = [0x20, 0, 1, 0xf0, 0x20, 0, 1, 0x0f, 0, 0, 0, 4];

const LITTLE: [u8; 12] = [0xf0, 1, 0, 0x20, 0x0f, 1, 0, 0x20, 4, 0, 0, 0];

/// The bytes of the packet that these bytes spell.
fn written(alloc: Global, bytes: &[u8]) -> Option<Vec<u8>> {
    let packet = read_packet(alloc, bytes).ok()?;
    if packet.body.len() > MAX_BODY_WORDS {
        return None;
    }
    write_packet(alloc, &packet).ok()
}

/// Whether the packet that these bytes spell is written as these bytes.
fn is_written_back(alloc: Global, bytes: &[u8]) -> bool {
    match written(alloc, bytes) {
        Some(out) => out.as_slice() == bytes,
        None => false,
    }
}

#[test]
fn packets_are_read_and_written(rt: HostRuntime) {
    for bytes in &[BIG, LITTLE] {
        assert!(rt; is_written_back(rt.alloc(), bytes));
    }
}
