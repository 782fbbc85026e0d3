//! Operations packed into bodies.

use mtu_packer::{Packed, Piece, pack};
use std::alloc::Global;
use transaction_codec::Op;

/// What is left of a read of 600 words behind the first body, and the sum behind it.
const REST: [u32; 7] = [0x2000_ff2f, 0x1000, 0x2001_5a2f, 0x1000, 0x2002_015f, 5, 7];

/// The places of the pieces of that read.
const PIECES: [Piece; 3] = [
    Piece { body: 0, index: 0 },
    Piece { body: 1, index: 0 },
    Piece { body: 1, index: 1 },
];

/// Whether the second of two bodies is the rest.
fn is_rest_second(packed: &Packed) -> bool {
    match packed.bodies() {
        [_, second] => second.as_slice() == REST.as_slice(),
        _ => false,
    }
}

/// Whether a read of 600 words of a port is cut, and a sum stands behind it.
fn is_cut(alloc: Global) -> bool {
    let ops = [
        Op::ReadPort {
            base: 0x1000,
            count: 600,
        },
        Op::RmwSum { base: 5, addend: 7 },
    ];
    match pack(alloc, &ops, 368) {
        Ok(packed) => is_rest_second(&packed) && packed.pieces(0) == PIECES.as_slice(),
        Err(_) => false,
    }
}

#[test]
fn a_block_of_a_port_is_cut_and_stays_at_its_address(rt: HostRuntime) {
    assert!(rt; is_cut(rt.alloc()));
}
