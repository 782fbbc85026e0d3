//! Whether values may be written.

ghost use Rattle.std.specs.Prelude.{◌≡◌, ◌<◌, [], length, IfSome, IfOk, OnOk, IfErr, option_map};
ghost use Rattle.std.specs.FinMap as map;
ghost use Rattle.node_tree.specs.Maps.{IsRegister};
ghost use Rattle.script_lang.specs.Operations.{fits_mask};
ghost use Rattle.config_store.specs.Kept.{indexed_boards};
ghost use Rattle.config_store.specs.Refusals as spec;

use crate::kept::is_kept;
use crate::refusal::{StoreRefusal, StoreWhy, refused_at};
use crate::state::StateEntry;
use board_specs::BoardSpec;
use ipb_base::NoMemory;
use masked_fields::terms;
use node_tree::{Index, Register};
use std::alloc::Global;

/// Whether a value has no bit outside a mask.
fn fits(mask: u32, value: u32) -> bool
    requires { 0 < mask }
    ensures { result ≡ fits_mask mask value }
{
    terms(mask, value).is_ok()
}

/// The registers of the first board of a name.
fn index_of<'a>(boards: &[BoardSpec], indexes: &'a [Index], name: &[u8]) -> Option<&'a Index>
    requires { length indexes.now ≡ length boards.now }
    ensures { option_map (λ index. index.now) result ≡ spec.index_of name.now (indexed_boards boards.now indexes.now) }
{
    for i in 0..boards.len() {
        let board = &boards[i];
        if board.name.as_slice() == name {
            return Some(&indexes[i]);
        }
    }
    None
}

/// The register that a value is for, with the registers of its board.
fn register_of<'a>(
    boards: &[BoardSpec],
    indexes: &'a [Index],
    entry: &StateEntry,
) -> Option<(&'a Index, Register)>
    requires { length indexes.now ≡ length boards.now }
    ensures found { option_map (λ found. (found.0.now, found.1)) result
        ≡ spec.register_of (indexed_boards boards.now indexes.now) entry.now }
    ensures masked { IfSome result (λ found. 0 < found.1.mask) }
{
    let index = index_of(boards, indexes, entry.board.as_slice())?;
    let register = index.find(entry.name.as_str())?;
    Some((index, register))
}

/// Whether the board of a value is there and has no register of its name.
fn has_no_register(boards: &[BoardSpec], indexes: &[Index], entry: &StateEntry) -> bool
    requires { length indexes.now ≡ length boards.now }
    ensures { result ≡ spec.breaks (indexed_boards boards.now indexes.now) StoreWhy.UnknownName entry.now }
{
    match index_of(boards, indexes, entry.board.as_slice()) {
        Some(index) => index.find(entry.name.as_str()).is_none(),
        None => false,
    }
}

/// Whether a value is for a register that is there and is not kept.
fn is_not_kept(
    alloc: Global,
    boards: &[BoardSpec],
    indexes: &[Index],
    entry: &StateEntry,
) -> Result<bool, NoMemory>
    requires { length indexes.now ≡ length boards.now }
    ensures { IfOk result (λ broken. broken
        ≡ spec.breaks (indexed_boards boards.now indexes.now) StoreWhy.NotKept entry.now) }
{
    match register_of(boards, indexes, entry) {
        Some((index, register)) => Ok(!is_kept(alloc, index, entry.name.as_str(), &register)?),
        None => Ok(false),
    }
}

/// Whether a value for a register that is there has a bit outside the register's mask.
fn has_bits_outside(boards: &[BoardSpec], indexes: &[Index], entry: &StateEntry) -> bool
    requires { length indexes.now ≡ length boards.now }
    ensures { result ≡ spec.breaks (indexed_boards boards.now indexes.now) StoreWhy.BitsOutside entry.now }
{
    match register_of(boards, indexes, entry) {
        Some((_index, register)) => !fits(register.mask, entry.value),
        None => false,
    }
}

/// Whether a value breaks a rule.
fn breaks(
    alloc: Global,
    boards: &[BoardSpec],
    indexes: &[Index],
    why: StoreWhy,
    entry: &StateEntry,
) -> Result<bool, NoMemory>
    requires { length indexes.now ≡ length boards.now }
    ensures { IfOk result (λ broken. broken
        ≡ spec.breaks (indexed_boards boards.now indexes.now) why entry.now) }
{
    match why {
        StoreWhy::UnknownBoard => Ok(index_of(boards, indexes, entry.board.as_slice()).is_none()),
        StoreWhy::UnknownName => Ok(has_no_register(boards, indexes, entry)),
        StoreWhy::NotKept => is_not_kept(alloc, boards, indexes, entry),
        StoreWhy::BitsOutside => Ok(has_bits_outside(boards, indexes, entry)),
        StoreWhy::Shape | StoreWhy::Overlap | StoreWhy::TooMany => Ok(false),
    }
}

/// Refuses the first value that breaks a rule.
fn check_rule(
    alloc: Global,
    boards: &[BoardSpec],
    indexes: &[Index],
    entries: &[StateEntry],
    why: StoreWhy,
) -> Result<(), StoreRefusal>
    requires { length indexes.now ≡ length boards.now }
    ensures none { OnOk result (spec.faults_by (indexed_boards boards.now indexes.now) entries.now why ≡ []) }
    ensures first { IfErr result
        (spec.TellsFirst (spec.faults_by (indexed_boards boards.now indexes.now) entries.now why)) }
{
    for entry in entries {
        if breaks(alloc, boards, indexes, why, entry)? {
            let name = entry.name.as_str();
            return Err(refused_at(alloc, entry.board.as_str(), name, why));
        }
    }
    Ok(())
}

/// Refuses values of which one breaks a rule: by the lowest rule that any of them breaks, and at the first that breaks
/// it. It goes through them once for each rule.
pub(crate) fn check_entries(
    alloc: Global,
    boards: &[BoardSpec],
    indexes: &[Index],
    entries: &[StateEntry],
) -> Result<(), StoreRefusal>
    requires { length indexes.now ≡ length boards.now }
    ensures none { OnOk result (spec.entry_faults (indexed_boards boards.now indexes.now) entries.now ≡ []) }
    ensures first { IfErr result
        (spec.TellsFirst (spec.entry_faults (indexed_boards boards.now indexes.now) entries.now)) }
{
    check_rule(alloc, boards, indexes, entries, StoreWhy::UnknownBoard)?;
    check_rule(alloc, boards, indexes, entries, StoreWhy::UnknownName)?;
    check_rule(alloc, boards, indexes, entries, StoreWhy::NotKept)?;
    check_rule(alloc, boards, indexes, entries, StoreWhy::BitsOutside)
}
