//! Into how many pieces an operation is cut on its board.

use crate::judged::Judged;
use mtu_packer::MIN_PAYLOAD;
use script_steps::RegOp;
use session_notes::payload_on;
use transaction_codec::{MAX_COUNT, Op};

/// How many pieces an operation has on its board.
pub(crate) fn piece_count(judged: Judged<'_>, op: &RegOp) -> usize {
    let payload = match judged.session.boards.as_slice().get(op.board as usize) {
        Some(board) => payload_on(&board.link),
        None => MIN_PAYLOAD,
    };
    let words = op.op.as_op_ref().count();
    match &op.op {
        Op::Read { .. } | Op::ReadPort { .. } => pieces_of(words, payload, 2),
        Op::Write { .. } | Op::WritePort { .. } => pieces_of(words, payload, 3),
        Op::RmwBits { .. } | Op::RmwSum { .. } => 1,
    }
}

/// How many pieces hold so many words, where so many words of a packet are no data.
fn pieces_of(words: usize, payload: u32, others: usize) -> usize {
    let room = (payload as usize).saturating_sub(others);
    words.div_ceil(room.min(usize::from(MAX_COUNT)).max(1))
}
