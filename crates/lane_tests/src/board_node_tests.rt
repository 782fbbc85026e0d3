//! A fresh board by itself: what it drops, and the shortest that it answers.

use crate::datagram_tests::padded;
use crate::fixtures::board;
use board_node::{Board, DropCause, Heard};
use std::alloc::Global;
use std::test::Fail;

const NO_PACKET: Heard = Heard::Dropped(DropCause::NotPacket);

const OTHER_ID: Heard = Heard::Dropped(DropCause::OtherId);

const NOT_HELD: Heard = Heard::Dropped(DropCause::NotHeld);

const TOO_LONG: Heard = Heard::Dropped(DropCause::TooLong);

/// Whether a board takes small packets alone, the front of a datagram, how many bytes it has, what the board does with
/// it, and its answer.
type Row = (bool, &'static [u8], usize, Heard, &'static [u8]);

const ANSWERED_OR_DROPPED: &[Row] = &[
    (false, b"", 0, NO_PACKET, b""),
    (false, b"\x20\0\x01", 3, NO_PACKET, b""),
    (false, b"\x20\0\x01\xf3", 4, NO_PACKET, b""),
    // a status request is longer, and every packet is shorter
    (false, b"\x20\0\0\xf1", 4, NO_PACKET, b""),
    (false, b"\x20\0\x01\xf0", 8976, NO_PACKET, b""),
    (
        false,
        b"\x20\0\x01\xf0",
        4,
        Heard::Replied,
        b"\x20\0\x01\xf0",
    ),
    // a transaction without its address
    (
        false,
        b"\x20\0\x01\xf0\x20\0\x01\x0f",
        8,
        Heard::Replied,
        b"\x20\0\x01\xf0\x20\0\0\x01",
    ),
    // a read of the word at address 4, in the other byte order
    (
        false,
        b"\xf0\x01\0\x20\x0f\x01\0\x20\x04",
        12,
        Heard::Replied,
        b"\xf0\x01\0\x20\0\x01\0\x20\xcd\xab\0\0",
    ),
    (false, b"\x20\0\x02\xf0", 4, OTHER_ID, b""),
    (false, b"\x20\0\x01\xf2", 4, NOT_HELD, b""),
    // a read of 255 words
    (true, b"\x20\0\x01\xf0\x20\0\xff\x0f", 12, TOO_LONG, b""),
];

/// Whether a board does this with a datagram and answers so, and drops again what it dropped.
fn hears(board: &mut Board, datagram: &[u8], row: Row, out: &mut Vec<u8>) -> bool {
    let (_, _, _, wanted, answer) = row;
    let is_heard = board.hear(datagram, out) == Ok(wanted) && out.as_slice() == answer;
    is_heard && (!answer.is_empty() || board.hear(datagram, out) == Ok(wanted))
}

/// Whether a fresh board does. Its MTU is 92 bytes where it takes small packets alone, and else 1500.
fn is_heard(alloc: Global, row: Row) -> Result<bool, Fail> {
    let (is_small, front, length, _, _) = row;
    let mtu = if is_small { 92 } else { 1500 };
    let datagram = padded(alloc, front, length)?;
    let mut board = board(alloc, mtu, 16, 1)?;
    let mut out = Vec::new(alloc);
    Ok(hears(&mut board, &datagram, row, &mut out))
}

#[test]
fn a_fresh_board_hears_anything(rt: HostRuntime) -> Result<(), Fail> {
    for row in ANSWERED_OR_DROPPED {
        assert!(rt; is_heard(rt.alloc(), *row)?);
    }
    Ok(())
}
