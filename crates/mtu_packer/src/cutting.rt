//! Cutting operations into pieces of one transaction each.

ghost use Rattle.std.specs.Prelude.{◌≡◌, ◌<◌, ◌≤◌, ◌+◌};
ghost use Rattle.transaction_codec.specs.declared.header_word.TheConstants.{MAX_COUNT};
ghost use Rattle.transaction_codec.specs.First.{op_of};
ghost use Rattle.transaction_codec.specs.Request as request;
ghost use Rattle.mtu_packer.specs.Cutting as spec;
ghost use Rattle.mtu_packer.specs.Cutting.{CanBeCut, part_of};

use crate::packing::MIN_PAYLOAD;
use transaction_codec::{MAX_COUNT, Op, OpRef};

/// The words of a packet beside those of a transaction: the packet header and the transaction header. IPbus 2.0.
pub(crate) const HEADERS: u32 = 2;

/// The words of an address in a request. IPbus 2.0, transactions.
pub(crate) const ADDRESS: u32 = 1;

/// The most words of one piece of this operation.
fn piece_limit(op: &Op, payload: u32) -> usize
    requires { MIN_PAYLOAD ≤ payload }
    ensures value { result ≡ spec.piece_limit payload op.now }
    ensures some { 1 ≤ result }
    ensures fits { result ≤ MAX_COUNT }
{
    let most = match op {
        Op::Read { .. } | Op::ReadPort { .. } => payload - HEADERS,
        Op::Write { .. } | Op::WritePort { .. } => payload - HEADERS - ADDRESS,
        Op::RmwBits { .. } | Op::RmwSum { .. } => 1,
    };
    most.min(u32::from(MAX_COUNT)) as usize
}

/// Into how many pieces the operation is cut.
pub(crate) fn piece_count(op: &Op, payload: u32) -> usize
    requires { MIN_PAYLOAD ≤ payload }
    ensures { result ≡ spec.piece_count payload op.now }
{
    op.as_op_ref().count().div_ceil(piece_limit(op, payload))
}

/// One of the pieces, counted from 0.
pub(crate) fn piece(op: &Op, payload: u32, k: usize) -> OpRef<'_>
    requires payload { MIN_PAYLOAD ≤ payload }
    requires sound { CanBeCut op.now }
    requires within { k < spec.piece_count payload op.now }
    ensures { op_of result ≡ spec.piece payload op.now k }
{
    let limit = piece_limit(op, payload);
    let count = op.as_op_ref().count();
    let offset = k * limit;
    part(op, offset, limit.min(count - offset))
}

/// The part of an operation that skips `offset` words and has `count` words. Its address goes on, but for a port.
fn part(op: &Op, offset: usize, count: usize) -> OpRef<'_>
    requires sound { CanBeCut op.now }
    requires within { offset + count ≤ request.op_count op.now }
    requires some { 1 ≤ count }
    requires few { count ≤ MAX_COUNT }
    ensures { op_of result ≡ part_of op.now offset count }
{
    match op {
        Op::Read { base, .. } => OpRef::Read {
            base: *base + offset as u32,
            count: count as u32,
        },
        Op::ReadPort { base, .. } => OpRef::ReadPort {
            base: *base,
            count: count as u32,
        },
        Op::Write { base, words } => OpRef::Write {
            base: *base + offset as u32,
            words: &words.as_slice()[offset..offset + count],
        },
        Op::WritePort { base, words } => OpRef::WritePort {
            base: *base,
            words: &words.as_slice()[offset..offset + count],
        },
        Op::RmwBits { .. } | Op::RmwSum { .. } => op.as_op_ref(),
    }
}
