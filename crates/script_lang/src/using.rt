//! What is asked of a register: the rules that it keeps, and the operation on the bus.

ghost use Rattle.std.specs.Prelude.{◌≡◌, ◌<◌, slice_index, true, IfOk};
ghost use Rattle.address_table.specs.Rules.{first_broken};
ghost use Rattle.mtu_packer.specs.Cutting.{CanBeCut};
ghost use Rattle.node_tree.specs.Maps.{IsRegister};
ghost use Rattle.script_lang.specs.Lines.{takes};
ghost use Rattle.script_lang.specs.Operations as spec;

use crate::call::Call;
use crate::{ScriptWhy, Verb};
use address_table::{Mode, Permission};
use ipb_base::{NoMemory, Text, Words};
use masked_fields::terms;
use node_tree::Register;
use script_steps::RegOp;
use std::alloc::Global;
use transaction_codec::Op;

fn may_read(permission: Permission) -> bool
    ensures { result ≡ spec.may_read permission }
{
    matches!(permission, Permission::R | Permission::Rw)
}

fn may_write(permission: Permission) -> bool
    ensures { result ≡ spec.may_write permission }
{
    matches!(permission, Permission::W | Permission::Rw)
}

fn allows(permission: Permission, verb: Verb) -> bool
    ensures { result ≡ spec.allows permission verb }
{
    match verb {
        Verb::Read | Verb::ReadBlock => may_read(permission),
        Verb::Write | Verb::WriteBlock => may_write(permission),
        Verb::RmwBits | Verb::RmwSum => may_read(permission) && may_write(permission),
    }
}

fn is_hierarchical(mode: Mode) -> bool
    ensures { result ≡ spec.is_hierarchical mode }
{
    matches!(mode, Mode::Hierarchical)
}

fn is_port(mode: Mode) -> bool
    ensures { result ≡ spec.is_port mode }
{
    matches!(mode, Mode::Port)
}

/// The first of the numbers, 0 where there is none.
fn number(numbers: &[u32], i: usize) -> u32
    ensures { result ≡ slice_index numbers.now i }
{
    if i < numbers.len() { numbers[i] } else { 0 }
}

/// The words of a block operation; the others have none.
fn block_words(verb: Verb, numbers: &[u32]) -> usize
    ensures { result ≡ spec.block_words verb numbers.now }
{
    match verb {
        Verb::ReadBlock => number(numbers, 0) as usize,
        Verb::WriteBlock => numbers.len(),
        Verb::Read | Verb::Write | Verb::RmwBits | Verb::RmwSum => 0,
    }
}

fn fits_size(register: &Register, count: usize) -> bool
    ensures { result ≡ spec.fits_size register.now count }
{
    count <= register.size as usize || (is_port(register.mode) && register.size == 1)
}

/// Whether a value has no bit outside a mask.
fn fits_mask(mask: u32, value: u32) -> bool
    requires { 0 < mask }
    ensures { result ≡ spec.fits_mask mask value }
{
    terms(mask, value).is_ok()
}

fn fits_field(register: &Register, verb: Verb, numbers: &[u32]) -> bool
    requires { 0 < register.now.mask }
    ensures { result ≡ spec.fits_field register.now verb numbers.now }
{
    match verb {
        Verb::Write => fits_mask(register.mask, number(numbers, 0)),
        Verb::Read | Verb::ReadBlock | Verb::WriteBlock | Verb::RmwBits | Verb::RmwSum => true,
    }
}

fn is_full(mask: u32) -> bool
    ensures { result ≡ spec.is_full mask }
{
    mask == u32::MAX
}

fn is_whole(register: &Register, verb: Verb) -> bool
    ensures { result ≡ spec.is_whole register.now verb }
{
    match verb {
        Verb::Read | Verb::Write => true,
        Verb::ReadBlock | Verb::WriteBlock | Verb::RmwBits | Verb::RmwSum => {
            is_full(register.mask)
        }
    }
}

/// The first rule that is broken by what is asked of a register.
fn broken_rule(register: &Register, call: &Call) -> Option<ScriptWhy>
    requires { 0 < register.now.mask }
    ensures { result ≡ first_broken (spec.use_rules register.now call.now) }
{
    let numbers = call.numbers.as_slice();
    if !allows(register.permission, call.verb) {
        return Some(ScriptWhy::NoPermission);
    }
    if is_hierarchical(register.mode) {
        return Some(ScriptWhy::WrongMode);
    }
    if !fits_size(register, block_words(call.verb, numbers)) {
        return Some(ScriptWhy::PastSize);
    }
    if !fits_field(register, call.verb, numbers) {
        return Some(ScriptWhy::BitsOutside);
    }
    if !is_whole(register, call.verb) {
        return Some(ScriptWhy::NotWhole);
    }
    None
}

/// One read-modify-write, which puts a value under a mask.
fn masked_write(base: u32, mask: u32, value: u32) -> Op
    requires masked { 0 < mask }
    requires fits { spec.fits_mask mask value ≡ true }
    ensures { result ≡ spec.masked_write base mask value }
{
    let (and_term, or_term) = terms(mask, value).unwrap();
    Op::RmwBits {
        base,
        and_term,
        or_term,
    }
}

fn write_op(register: &Register, numbers: Words) -> Op
    requires masked { 0 < register.now.mask }
    requires fits { spec.fits_mask register.now.mask (slice_index numbers 0) ≡ true }
    ensures { result ≡ spec.write_op register.now numbers }
{
    let base = register.address;
    if is_full(register.mask) {
        Op::Write {
            base,
            words: numbers,
        }
    } else {
        masked_write(base, register.mask, number(numbers.as_slice(), 0))
    }
}

fn read_block_op(register: &Register, count: u32) -> Op
    ensures { result ≡ spec.read_block_op register.now count }
{
    let base = register.address;
    if is_port(register.mode) {
        Op::ReadPort { base, count }
    } else {
        Op::Read { base, count }
    }
}

fn write_block_op(register: &Register, words: Words) -> Op
    ensures { result ≡ spec.write_block_op register.now words }
{
    let base = register.address;
    if is_port(register.mode) {
        Op::WritePort { base, words }
    } else {
        Op::Write { base, words }
    }
}

/// The operation on the bus.
fn op_on(register: &Register, verb: Verb, numbers: Words) -> Op
    requires masked { 0 < register.now.mask }
    requires fits { spec.fits_field register.now verb numbers ≡ true }
    ensures { result ≡ spec.op_on register.now verb numbers }
{
    let base = register.address;
    match verb {
        Verb::Read => Op::Read { base, count: 1 },
        Verb::Write => write_op(register, numbers),
        Verb::ReadBlock => read_block_op(register, number(numbers.as_slice(), 0)),
        Verb::WriteBlock => write_block_op(register, numbers),
        Verb::RmwBits => Op::RmwBits {
            base,
            and_term: number(numbers.as_slice(), 0),
            or_term: number(numbers.as_slice(), 1),
        },
        Verb::RmwSum => Op::RmwSum {
            base,
            addend: number(numbers.as_slice(), 0),
        },
    }
}

/// What is asked of a register, by the line of this number.
#[tactic(auto, using(crate::proofs::MaskedValues::kept_field, crate::proofs::Packable::cut_kept))]
pub(crate) fn use_of(
    alloc: Global,
    line: u32,
    board: u32,
    call: Call,
    register: &Register,
) -> Result<Result<RegOp, ScriptWhy>, NoMemory>
    requires register { IsRegister register.now }
    requires taken { takes call.verb call.numbers ≡ true }
    ensures used { IfOk result (λ used. used ≡ spec.use_of line board call.entry register.now) }
    ensures packed { IfOk result (λ used. IfOk used (λ op. CanBeCut op.op)) }
{
    if let Some(why) = broken_rule(register, &call) {
        return Ok(Err(why));
    }
    let Call {
        verb,
        board: _,
        name,
        numbers,
    } = call;
    Ok(Ok(RegOp {
        line,
        verb,
        board,
        name: Text::copy_of(alloc, name.as_str())?,
        mask: register.mask,
        op: op_on(register, verb, numbers),
    }))
}
