//! The operations of a client on one board, packed dispatch by dispatch.

ghost use Rattle.std.specs.Prelude.{◌≡◌, ◌+◌, ◌++◌, ◌∷◌, ◌^◌, ◌<◌, ◌≤◌, [], All, IfOk, OnOk, length, map};
ghost use Rattle.std.specs.List.{AllByRecursion, flat_map};
ghost use Rattle.mtu_packer.specs.Cutting.{CanBeCut, cut_pieces};
ghost use Rattle.mtu_packer.specs.Packed.{FitsPackets, packed_contents};
ghost use Rattle.mtu_packer.specs.declared.packing.TheConstants.{MIN_PAYLOAD, MAX_PAYLOAD};
ghost use Rattle.script_steps.specs.Packing.{CanBePacked, HaveFewPieces};
ghost use Rattle.script_plans.specs.Plan as spec;
ghost use Rattle.script_plans.specs.Steps.{so_far};

use crate::greeting::Greeting;
use crate::op_pieces::OpPieces;
use crate::planned::Planned;
use ipb_base::{NoMemory, Words};
use mtu_packer::laws::{packed_bodies_spell_requests, packing_is_a_function};
use mtu_packer::{Packed, pack_into};
use script_steps::{RegOp, Step};
use std::alloc::Global;
use std::mem;
use transaction_codec::Op;

fn copied_words(alloc: Global, words: &Words) -> Result<Words, NoMemory>
    ensures { IfOk result (λ copied. copied ≡ words.now) }
{
    Ok(Words::from_vec(words.as_slice().to_vec(alloc)?))
}

/// A copy of an operation, which shares no memory with it.
fn copied_op(alloc: Global, op: &Op) -> Result<Op, NoMemory>
    ensures { IfOk result (λ copied. copied ≡ op.now) }
{
    match op {
        Op::Read { base, count } => Ok(Op::Read {
            base: *base,
            count: *count,
        }),
        Op::ReadPort { base, count } => Ok(Op::ReadPort {
            base: *base,
            count: *count,
        }),
        Op::Write { base, words } => Ok(Op::Write {
            base: *base,
            words: copied_words(alloc, words)?,
        }),
        Op::WritePort { base, words } => Ok(Op::WritePort {
            base: *base,
            words: copied_words(alloc, words)?,
        }),
        Op::RmwBits {
            base,
            and_term,
            or_term,
        } => Ok(Op::RmwBits {
            base: *base,
            and_term: *and_term,
            or_term: *or_term,
        }),
        Op::RmwSum { base, addend } => Ok(Op::RmwSum {
            base: *base,
            addend: *addend,
        }),
    }
}

/// Adds the pieces of the operations of a dispatch, of which there are so many.
fn push_pieces(
    all: &mut OpPieces,
    packed: &Packed,
    count: usize,
    first: usize,
) -> Result<(), NoMemory>
    requires few { first < 2 ^ 63 }
    requires all_of_them { count ≡ length packed.now.pieces }
    ensures { OnOk result (all.new
        ≡ all.old ++ map (λ pieces. map (spec.piece_behind first) pieces) packed.now.pieces) }
{
    for op in 0..count {
        all.push(packed.pieces(op), first)?;
    }
    Ok(())
}

/// What was planned so far, and the operations that wait for the next dispatch.
#[derive(Drop)]
struct Planning {
    bodies: Vec<Words>,
    pieces: OpPieces,
    counts: Vec<usize>,
    queued: Vec<Op>,
    /// The memory of the list of the last dispatch's bodies, for the next one.
    spare: Vec<Words>,
}

impl Planning {
    /// Nothing is planned, and nothing waits. It takes no memory.
    fn new(alloc: Global) -> Planning
        ensures planned { so_far result ≡ spec.no_bodies }
        ensures queued { result.queued.items ≡ [] }
    {
        Planning {
            bodies: Vec::new(alloc),
            pieces: OpPieces::new(alloc),
            counts: Vec::new(alloc),
            queued: Vec::new(alloc),
            spare: Vec::new(alloc),
        }
    }

    /// Adds a dispatch of what waited, packed, and then nothing waits. The memory of the list of its bodies is kept.
    fn add_dispatch(&mut self, packed: Packed) -> Result<(), NoMemory>
        requires { length packed.pieces ≡ length self.old.queued.items }
        ensures planned { OnOk result (so_far self.new ≡ spec.with_dispatch (so_far self.old) packed) }
        ensures emptied { OnOk result (self.new.queued.items ≡ []) }
    {
        let first = self.bodies.len();
        push_pieces(&mut self.pieces, &packed, self.queued.len(), first)?;
        let (mut bodies, _) = packed.into_parts();
        self.counts.push(bodies.len())?;
        self.bodies.append(&mut bodies)?;
        self.spare = bodies;
        self.queued.clear();
        Ok(())
    }

    /// All that was planned. What waits is let go.
    fn into_planned(self) -> Planned
        requires { spec.AreSound (so_far self) }
        ensures { result ≡ so_far self }
    {
        let Planning {
            bodies,
            pieces,
            counts,
            ..
        } = self;
        Planned::new(bodies, pieces, counts)
    }
}

/// An operation on the board waits for the next dispatch.
fn queue(alloc: Global, queued: &mut Vec<Op>, op: &RegOp, board: u32) -> Result<(), NoMemory>
    ensures { OnOk result (queued.new.items ≡ queued.old.items ++ spec.ops_on board (op.now ∷ [])) }
{
    if op.board == board {
        queued.push(copied_op(alloc, &op.op)?)?;
    }
    Ok(())
}

/// Packs the operations that wait into bodies of their own.
fn dispatch(alloc: Global, planning: &mut Planning, payload: u32) -> Result<(), NoMemory>
    requires payload_low { MIN_PAYLOAD ≤ payload }
    requires payload_high { payload ≤ MAX_PAYLOAD }
    requires can { All CanBeCut planning.old.queued.items }
    requires few { length (flat_map (cut_pieces payload) planning.old.queued.items) ≤ 2 ^ 31 }
    requires sound { spec.AreSound (so_far planning.old) }
    requires room { AllByRecursion (FitsPackets payload) planning.old.bodies.items }
    ensures planned { OnOk result (so_far planning.new
        ≡ spec.with_dispatch (so_far planning.old) (packed_contents payload planning.old.queued.items)) }
    ensures emptied { OnOk result (planning.new.queued.items ≡ []) }
    ensures sound { OnOk result (spec.AreSound (so_far planning.new)) }
    ensures room { OnOk result (AllByRecursion (FitsPackets payload) planning.new.bodies.items) }
{
    if planning.queued.is_empty() {
        return Ok(planning.counts.push(0)?);
    }
    packing_is_a_function();
    packed_bodies_spell_requests();
    let spare = mem::replace(&mut planning.spare, Vec::new(alloc));
    let packed = pack_into(alloc, spare, planning.queued.as_slice(), payload)?;
    planning.add_dispatch(packed)
}

/// The bodies of a client on a board that takes packets of `payload` words.
fn pack_dispatches(
    alloc: Global,
    steps: &[Step],
    board: u32,
    payload: u32,
) -> Result<Planned, NoMemory>
    requires payload_low { MIN_PAYLOAD ≤ payload }
    requires payload_high { payload ≤ MAX_PAYLOAD }
    requires can { AllByRecursion CanBePacked steps.now }
    requires few { HaveFewPieces steps.now }
    ensures planned { IfOk result (λ planned. planned ≡ spec.all_dispatches (spec.plan payload board steps.now)) }
    ensures room { IfOk result (λ planned. AllByRecursion (FitsPackets payload) planned.bodies) }
{
    let mut planning = Planning::new(alloc);
    for step in steps {
        match step {
            Step::Do(op) => queue(alloc, &mut planning.queued, op, board)?,
            Step::Denied { .. } => {}
            Step::Dispatch => dispatch(alloc, &mut planning, payload)?,
        }
    }
    dispatch(alloc, &mut planning, payload)?;
    Ok(planning.into_planned())
}

fn nothing(alloc: Global) -> Planned
    ensures { result ≡ spec.no_bodies }
{
    Planned::new(Vec::new(alloc), OpPieces::new(alloc), Vec::new(alloc))
}

/// The bodies of a client's steps on the board at a position from 0, and where the pieces of each operation stand in
/// them. Each dispatch is packed on its own, for the packets that the board takes (profile); a board that is not live
/// is asked nothing.
///
/// The operations can be packed and cut into few enough pieces, as those of compiled scripts can. A live board takes
/// packets of `MIN_PAYLOAD` to `MAX_PAYLOAD` words.
pub fn plan_on(
    alloc: Global,
    steps: &[Step],
    board: u32,
    greeting: Greeting,
) -> Result<Planned, NoMemory>
    requires payload { spec.IsGreeting greeting }
    requires can { AllByRecursion CanBePacked steps.now }
    requires few { HaveFewPieces steps.now }
    ensures planned { IfOk result (λ planned. planned ≡ spec.planned_on board greeting steps.now) }
    // Each body and the longest answer to it fit packets of the board.
    ensures room { IfOk result (λ planned. spec.FitGreeting greeting planned.bodies) }
{
    match greeting {
        Greeting::Live { payload } => pack_dispatches(alloc, steps, board, payload),
        Greeting::Silent | Greeting::Down => Ok(nothing(alloc)),
    }
}
