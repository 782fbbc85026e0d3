ghost use Rattle.std.specs.Prelude.{◌≡◌, ◌≤◌, ◌^◌, All, IfOk, OnOk, length};
ghost use Rattle.std.specs.List.{AllByRecursion, flat_map};
ghost use Rattle.mtu_packer.specs.Cutting.{CanBeCut, cut_pieces};
ghost use Rattle.mtu_packer.specs.Packed.{FitsPackets, IsPacked};
ghost use Rattle.mtu_packer.specs.Progress.{IsWithin, Over, start};

use crate::packed::{Packed, Span};
use crate::packer::Packer;
use smallvec::SmallVec;
use std::alloc::Global;
use transaction_codec::{NoMemory, Op, Words};

/// The fewest words of a packet for which operations are packed, the packet header included. Profile.
pub const MIN_PAYLOAD: u32 = 16;

/// The most words of a packet for which operations are packed, the packet header included: a datagram in an Ethernet
/// frame of 9000 bytes. Profile.
pub const MAX_PAYLOAD: u32 = 2243;

/// Packs operations into bodies for a board that takes packets of at most `payload` words, `MIN_PAYLOAD` to
/// `MAX_PAYLOAD`, the packet header included. A block is cut into pieces of at most 255 words that fit such a packet,
/// and each piece goes whole into the current body where that body and its longest reply stay within the payload, and
/// else begins the next. Profile.
///
/// Each block has at least one word, the addresses of one that is read or written at `base`, `base + 1`, and so on
/// stay within 32 bits, and there are at most 2^31 pieces.
pub fn pack(alloc: Global, ops: &[Op], payload: u32) -> Result<Packed, NoMemory>
    requires payload_low { MIN_PAYLOAD ≤ payload }
    requires payload_high { payload ≤ MAX_PAYLOAD }
    requires sound { All CanBeCut ops.now }
    requires few { length (flat_map (cut_pieces payload) ops.now) ≤ 2 ^ 31 }
    ensures packed { IfOk result (IsPacked ops.now payload) }
    ensures operations { IfOk result (λ packed. length packed.pieces ≡ length ops.now) }
    // Each body and the longest answer to it fit packets of that size.
    ensures room { IfOk result (λ packed. AllByRecursion (FitsPackets payload) packed.bodies) }
{
    pack_into(alloc, Vec::new(alloc), ops, payload)
}

/// Packs operations as `pack` does. The list of bodies takes the place of what stood in this list, in its memory, so
/// that one list serves one packing after the other. Profile.
pub fn pack_into(
    alloc: Global,
    bodies: Vec<Words>,
    ops: &[Op],
    payload: u32,
) -> Result<Packed, NoMemory>
    requires payload_low { MIN_PAYLOAD ≤ payload }
    requires payload_high { payload ≤ MAX_PAYLOAD }
    requires sound { All CanBeCut ops.now }
    requires few { length (flat_map (cut_pieces payload) ops.now) ≤ 2 ^ 31 }
    ensures packed { IfOk result (IsPacked ops.now payload) }
    ensures operations { IfOk result (λ packed. length packed.pieces ≡ length ops.now) }
    // Each body and the longest answer to it fit packets of that size.
    ensures room { IfOk result (λ packed. AllByRecursion (FitsPackets payload) packed.bodies) }
{
    let mut packer = Packer::new(alloc, payload, bodies);
    let spans = push_ops(alloc, &mut packer, ops)?;
    packer.finish(spans)
}

/// A packer that has taken no piece takes those of operations, and the places of each are told.
fn push_ops(alloc: Global, packer: &mut Packer, ops: &[Op]) -> Result<SmallVec<Span, 4>, NoMemory>
    requires fresh { packer.old ≡ start packer.old.payload }
    requires payload_low { MIN_PAYLOAD ≤ packer.old.payload }
    requires payload_high { packer.old.payload ≤ MAX_PAYLOAD }
    requires sound { All CanBeCut ops.now }
    requires few { length (flat_map (cut_pieces packer.old.payload) ops.now) ≤ 2 ^ 31 }
    ensures within { OnOk result (IsWithin packer.new) }
    ensures packed { IfOk result (λ spans. Over ops.now packer.old.payload packer.new spans.items) }
{
    let mut spans = SmallVec::new(alloc);
    spans.reserve(ops.len())?;
    let mut start = 0;
    for op in ops {
        let end = packer.push_op(op)?;
        spans.push(Span { start, end })?;
        start = end;
    }
    Ok(spans)
}
