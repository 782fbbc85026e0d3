//! Registers that share bits of a word.
ghost use Rattle.std.specs.Prelude.{◌≡◌, ◌<◌, ◌≤◌, ◌++◌, [], IfOk, length, option_to_list};
ghost use Rattle.std.specs.List.{All};
ghost use Rattle.node_tree.specs.Limits.{most_nodes};
ghost use Rattle.node_tree.specs.Named.{named_entries, AreInOrder};
ghost use Rattle.node_tree.specs.Overlaps as spec;
ghost use Rattle.node_tree.specs.OverlapSearch.{pair_before, AreNamedRegisters, AreFirsts};

mod apart;
mod events;
mod noting;
mod settling;

use self::apart::are_apart;
use self::events::events_of;
use self::settling::settle;
use crate::walking::words_of;
use crate::{NoMemory, Register};
use address_table::Mode;
use std::alloc::Global;

/// A name and its register.
type Entry = (String, Register);

/// Whether two registers overlap (profile): neither is hierarchical, they share an address and a bit of their masks,
/// and neither name is the other's up to a dot. A block has `size` addresses, the others one.
pub fn overlap(name: &str, register: &Register, other_name: &str, other: &Register) -> bool
    ensures { result ≡ spec.overlap (name.now, register.now) (other_name.now, other.now) }
{
    takes_words(register.mode)
        && takes_words(other.mode)
        && share_an_address(register, other)
        && register.mask & other.mask != 0
        && !is_dotted_prefix(name.as_bytes(), other_name.as_bytes())
        && !is_dotted_prefix(other_name.as_bytes(), name.as_bytes())
}

/// For each entry that overlaps one before it, the places of the first such one and of the entry.
pub(crate) fn overlapping_pairs(
    alloc: Global,
    entries: &[Entry],
) -> Result<Vec<(u32, u32)>, NoMemory>
    requires few { length entries.now ≤ most_nodes }
    requires in_order { AreInOrder entries.now }
    requires registers { AreNamedRegisters (named_entries entries.now) }
    ensures { IfOk result (λ pairs. pairs.items ≡ spec.overlapping [] (named_entries entries.now)) }
{
    if are_apart(alloc, entries)? {
        return Ok(Vec::new(alloc));
    }
    let firsts = first_overlaps(alloc, entries)?;
    let mut pairs = Vec::new(alloc);
    for i in 0..entries.len() {
        let pair = pair_with(firsts[i], i);
        push_some(&mut pairs, pair)?;
    }
    Ok(pairs)
}

/// For each entry the place of the first that it overlaps; a place that is not before it where there is none.
fn first_overlaps(alloc: Global, entries: &[Entry]) -> Result<Vec<usize>, NoMemory>
    requires in_order { AreInOrder entries.now }
    requires registers { AreNamedRegisters (named_entries entries.now) }
    ensures { IfOk result (λ firsts. AreFirsts (named_entries entries.now) firsts.items) }
{
    let mut firsts = vec![in alloc; entries.len(); entries.len()]?;
    lower_firsts(alloc, entries, &mut firsts)?;
    Ok(firsts)
}

/// Puts the first overlapping place of each entry into a list that has none yet.
fn lower_firsts(alloc: Global, entries: &[Entry], firsts: &mut [usize]) -> Result<(), NoMemory>
    requires in_order { AreInOrder entries.now }
    requires registers { AreNamedRegisters (named_entries entries.now) }
    requires lengths { length firsts.old ≡ length entries.now }
    requires none { All (λ place. place ≡ length entries.now) firsts.old }
    ensures { IfOk result (λ _. AreFirsts (named_entries entries.now) firsts.new) }
{
    let events = events_of(alloc, entries, firsts)?;
    settle(alloc, events, 0, 32, firsts)
}

fn push_some(pairs: &mut Vec<(u32, u32)>, pair: Option<(u32, u32)>) -> Result<(), NoMemory>
    ensures { IfOk result (λ _. pairs.new.items ≡ pairs.old.items ++ option_to_list pair) }
{
    match pair {
        Some(pair) => Ok(pairs.push(pair)?),
        None => Ok(()),
    }
}

/// A place and a later one; none where the first is not before the second.
fn pair_with(first: usize, i: usize) -> Option<(u32, u32)>
    requires { i ≤ most_nodes }
    ensures { option_to_list result ≡ pair_before first i }
{
    if first < i {
        return Some((first as u32, i as u32));
    }
    None
}

/// Whether another name begins with this one and a dot.
fn is_dotted_prefix(name: &[u8], other: &[u8]) -> bool
    ensures { result ≡ spec.is_dotted_prefix name.now other.now }
{
    if other.len() <= name.len() {
        return false;
    }
    if &other[..name.len()] != name {
        return false;
    }
    other[name.len()] == b'.'
}

fn takes_words(mode: Mode) -> bool
    ensures { result ≡ spec.takes_words mode }
{
    mode != Mode::Hierarchical
}

fn share_an_address(a: &Register, b: &Register) -> bool
    ensures { result ≡ spec.share_an_address a.now b.now }
{
    let a_end = a.address as u64 + words_of(a.mode, a.size) as u64;
    let b_end = b.address as u64 + words_of(b.mode, b.size) as u64;
    (a.address as u64) < b_end && (b.address as u64) < a_end
}
