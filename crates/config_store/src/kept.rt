//! The kept registers of a table.

ghost use Rattle.std.specs.Prelude.{◌≡◌, ◌≤◌, ◌++◌, codes, IfOk, string_bytes};
ghost use Rattle.std.specs.FinMap as map;
ghost use Rattle.config_store.specs.Kept as spec;
ghost use Rattle.config_store.specs.Searches.{IsFirstFrom, AreWords, is_before};

use address_table::{Mode, Permission};
use ipb_base::{NoMemory, Text};
use node_tree::{Index, Register};
use std::alloc::Global;

/// A name and its register.
pub(crate) type Entry = (Text, Register);

fn is_rw_word(register: &Register) -> bool
    ensures { result ≡ spec.is_rw_word register.now }
{
    register.mode == Mode::Single && register.permission == Permission::Rw
}

/// Whether a name is before another, in byte order.
fn is_name_before(name: &str, other: &str) -> bool
    ensures { result ≡ is_before name.now other.now }
{
    name < other
}

/// The place of the first register whose name is not before another, in byte order.
fn first_from(index: &Index, name: &str) -> usize
    ensures within { result ≤ map.len index.now }
    ensures first { IsFirstFrom (map.entries index.now) name.now result }
{
    let mut low = 0;
    let mut high = index.len();
    'halving: while low < high {
        let middle = low + (high - low) / 2;
        let (there, _register) = index.at(middle);
        if is_name_before(there, name) {
            low = middle + 1;
        } else {
            high = middle;
        }
    }
    low
}

/// A name and a dot.
fn dotted(alloc: Global, name: &str) -> Result<String, NoMemory>
    ensures { IfOk result (λ text. string_bytes text ≡ name.now ++ codes ".") }
{
    Ok(format!(in alloc; "{name}.")?)
}

/// Whether another name of the table begins with this one and a dot. Such names follow one another.
fn has_below(alloc: Global, index: &Index, name: &str) -> Result<bool, NoMemory>
    ensures { IfOk result (λ found. found ≡ spec.has_below (map.entries index.now) name.now) }
{
    let front = dotted(alloc, name)?;
    let place = first_from(index, front.as_str());
    if place >= index.len() {
        return Ok(false);
    }
    let (there, _register) = index.at(place);
    Ok(there.as_bytes().starts_with(front.as_bytes()))
}

/// Whether a register of a table is kept.
pub(crate) fn is_kept(
    alloc: Global,
    index: &Index,
    name: &str,
    register: &Register,
) -> Result<bool, NoMemory>
    ensures { IfOk result (λ found. found ≡ spec.is_kept (map.entries index.now) (name.now, register.now)) }
{
    if !is_rw_word(register) {
        return Ok(false);
    }
    Ok(!has_below(alloc, index, name)?)
}

/// The kept registers of a table, in byte order of their names.
pub(crate) fn kept_registers(alloc: Global, index: &Index) -> Result<Vec<Entry>, NoMemory>
    ensures kept { IfOk result (λ found. found.items ≡ spec.registers_kept index.now) }
    ensures words { IfOk result (λ found. AreWords found.items) }
{
    let mut found = Vec::new(alloc);
    for i in 0..index.len() {
        let (name, register) = index.at(i);
        if is_kept(alloc, index, name, &register)? {
            found.push((Text::copy_of(alloc, name)?, register))?;
        }
    }
    Ok(found)
}
