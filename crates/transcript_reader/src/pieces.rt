//! The pieces that an operation is cut into, and what a reply to one of them can tell.

ghost use Rattle.std.specs.Prelude.{◌≡◌, ◌↔◌, ◌<◌, ◌≤◌, IsTrue};
ghost use Rattle.mtu_packer.specs.Cutting as spec;
ghost use Rattle.mtu_packer.specs.Cutting.{CanBeCut};
ghost use Rattle.mtu_packer.specs.declared.packing.TheConstants.{MIN_PAYLOAD};
ghost use Rattle.transaction_codec.specs.Answer as answers;
ghost use Rattle.transcript_reader.specs.Results.{CanFail, CanRead};
ghost use Rattle.transcript_reader.specs.Walks.{FailsWith};

use transaction_codec::info_code::{READ_ERROR, READ_TIMEOUT, WRITE_ERROR, WRITE_TIMEOUT};
use transaction_codec::{MAX_COUNT, Op};

/// The words of a packet beside those of a transaction: the packet header and the transaction header. IPbus 2.0.
const HEADERS: u32 = 2;

/// The words of an address in a request. IPbus 2.0, transactions.
const ADDRESS: u32 = 1;

/// The most words of one piece of this operation.
fn piece_limit(op: &Op, payload: u32) -> usize
    requires { MIN_PAYLOAD ≤ payload }
    ensures value { result ≡ spec.piece_limit payload op.now }
    ensures some { 1 ≤ result }
{
    let most = match op {
        Op::Read { .. } | Op::ReadPort { .. } => payload - HEADERS,
        Op::Write { .. } | Op::WritePort { .. } => payload - HEADERS - ADDRESS,
        Op::RmwBits { .. } | Op::RmwSum { .. } => 1,
    };
    most.min(u32::from(MAX_COUNT)) as usize
}

/// Into how many pieces the operation is cut.
pub(crate) fn piece_count(op: &Op, payload: u32) -> usize
    requires { MIN_PAYLOAD ≤ payload }
    ensures { result ≡ spec.piece_count payload op.now }
{
    op.as_op_ref().count().div_ceil(piece_limit(op, payload))
}

/// How many words a piece has, counted from 0.
fn piece_length(op: &Op, payload: u32, k: usize) -> usize
    requires payload { MIN_PAYLOAD ≤ payload }
    requires within { k < spec.piece_count payload op.now }
    ensures { result ≡ spec.piece_length payload op.now k }
{
    let limit = piece_limit(op, payload);
    limit.min(op.as_op_ref().count() - k * limit)
}

/// How many words a reply to a piece carries that did all of it.
fn values_of_piece(op: &Op, payload: u32, k: usize) -> usize
    requires payload { MIN_PAYLOAD ≤ payload }
    requires within { k < spec.piece_count payload op.now }
    ensures { result ≡ answers.values_done (spec.piece payload op.now k) }
{
    match op {
        Op::Read { .. } | Op::ReadPort { .. } => piece_length(op, payload, k),
        Op::Write { .. } | Op::WritePort { .. } => 0,
        Op::RmwBits { .. } | Op::RmwSum { .. } => 1,
    }
}

/// Whether a reply to some piece has so many words.
pub(crate) fn can_read(op: &Op, payload: u32, count: usize) -> bool
    requires { MIN_PAYLOAD ≤ payload }
    ensures { IsTrue result ↔ CanRead payload op.now count }
{
    for k in 0..piece_count(op, payload) {
        if values_of_piece(op, payload, k) == count {
            return true;
        }
    }
    false
}

/// Whether a transaction of this operation fails with this code.
fn fails_with(op: &Op, code: u8) -> bool
    ensures { IsTrue result ↔ FailsWith op.now code }
{
    match op {
        Op::Read { .. } | Op::ReadPort { .. } => code == READ_ERROR || code == READ_TIMEOUT,
        Op::Write { .. } | Op::WritePort { .. } => code == WRITE_ERROR || code == WRITE_TIMEOUT,
        Op::RmwBits { .. } | Op::RmwSum { .. } => READ_ERROR <= code && code <= WRITE_TIMEOUT,
    }
}

/// Whether a reply to some piece can tell this code after so many words. None is longer than the first one.
pub(crate) fn can_fail(op: &Op, payload: u32, code: u8, after: u8) -> bool
    requires payload { MIN_PAYLOAD ≤ payload }
    requires sound { CanBeCut op.now }
    ensures { IsTrue result ↔ CanFail payload op.now code after }
{
    fails_with(op, code) && usize::from(after) < piece_length(op, payload, 0)
}
