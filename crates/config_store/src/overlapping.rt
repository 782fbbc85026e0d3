//! Kept registers that share bits of a word.

ghost use Rattle.std.specs.Prelude.{◌≡◌, [], not, bit_and, ◌==◌, map, OnOk, IfErr};
ghost use Rattle.config_store.specs.Overlaps.{overlapping_names};
ghost use Rattle.config_store.specs.Refusals.{TellsFirst};
ghost use Rattle.config_store.specs.Searches.{AreWords, Takes, taken_at};
ghost use Rattle.config_store.specs.declared.refusal.StoreWhy.TheVariants.{Overlap};

use crate::kept::Entry;
use crate::refusal::{StoreRefusal, StoreWhy, refused_at};
use ipb_base::NoMemory;
use node_tree::Register;
use std::alloc::Global;
use std::collections::BTreeMap;

/// The bits of each word that registers have, by the addresses.
type Masks = BTreeMap<u32, u32>;

/// The bits that are taken at an address.
fn mask_at(masks: &Masks, address: u32) -> u32
    ensures { result ≡ taken_at masks.now address }
{
    match masks.get(&address) {
        Some(mask) => *mask,
        None => 0,
    }
}

/// Whether some bit of a register is taken.
fn is_taken(masks: &Masks, register: &Register) -> bool
    ensures { result ≡ not (bit_and (taken_at masks.now register.now.address) register.now.mask == 0) }
{
    mask_at(masks, register.address) & register.mask != 0
}

/// Takes the bits of a register.
fn take(masks: &mut Masks, register: &Register) -> Result<(), NoMemory>
    ensures { OnOk result (Takes register.now masks.old masks.new) }
{
    let mask = mask_at(masks, register.address) | register.mask;
    masks.insert(register.address, mask)?;
    Ok(())
}

/// Refuses kept registers of a board of which one overlaps another before it.
pub(crate) fn check_overlaps(alloc: Global, board: &str, kept: &[Entry]) -> Result<(), StoreRefusal>
    requires { AreWords kept.now }
    ensures none { OnOk result (overlapping_names [] kept.now ≡ []) }
    ensures first { IfErr result
        (TellsFirst (map (λ name. (board.now, name, Overlap)) (overlapping_names [] kept.now))) }
{
    let mut masks = BTreeMap::new(alloc);
    for entry in kept {
        if is_taken(&masks, &entry.1) {
            let name = entry.0.as_str();
            return Err(refused_at(alloc, board, name, StoreWhy::Overlap));
        }
        take(&mut masks, &entry.1)?;
    }
    Ok(())
}
