//! The listing of a register table.

ghost use Rattle.std.specs.Prelude.{◌≡◌, ◌++◌, ◌<◌, [], IfOk, OnOk, All, length, string_bytes};
ghost use Rattle.std.specs.List.{flat_map};
ghost use Rattle.std.specs.FinMap as map;
ghost use Rattle.node_tree.specs.Overlaps.{overlapping};
ghost use Rattle.transcript.specs.Listing as spec;

use address_table::{Mode, Permission};
use ipb_base::NoMemory;
use node_tree::{Index, Register};
use std::alloc::Global;

fn permission_text(permission: Permission) -> &'static str
    ensures { result.now ≡ spec.permission_text permission }
{
    match permission {
        Permission::R => "r",
        Permission::W => "w",
        Permission::Rw => "rw",
    }
}

fn mode_text(mode: Mode) -> &'static str
    ensures { result.now ≡ spec.mode_text mode }
{
    match mode {
        Mode::Single => "single",
        Mode::Block => "block",
        Mode::Port => "port",
        Mode::Hierarchical => "hierarchical",
    }
}

/// The line of a register: `NAME ADDRESS MASK PERMISSION MODE SIZE`.
fn push_register(text: &mut String, name: &str, register: &Register) -> Result<(), NoMemory>
    ensures { OnOk result (string_bytes text.new
        ≡ string_bytes text.old ++ spec.register_text (name.now, register.now)) }
{
    let address = register.address;
    let mask = register.mask;
    let permission = permission_text(register.permission);
    let mode = mode_text(register.mode);
    let size = register.size;
    Ok(write!(
        text,
        "{name} 0x{address:08x} 0x{mask:08x} {permission} {mode} {size}\n"
    )?)
}

fn push_registers(text: &mut String, index: &Index) -> Result<(), NoMemory>
    ensures { OnOk result (string_bytes text.new
        ≡ string_bytes text.old ++ flat_map spec.register_text (map.entries index.now)) }
{
    for i in 0..index.len() {
        let (name, register) = index.at(i);
        push_register(text, name, &register)?;
    }
    Ok(())
}

/// The line of two registers that overlap, by their places from 0.
fn push_overlap(text: &mut String, index: &Index, pair: (u32, u32)) -> Result<(), NoMemory>
    requires { (pair.0 < map.len index.now) × (pair.1 < map.len index.now) }
    ensures { OnOk result (string_bytes text.new
        ≡ string_bytes text.old ++ spec.overlap_text (map.entries index.now) pair) }
{
    let (first, _) = index.at(pair.0 as usize);
    let (second, _) = index.at(pair.1 as usize);
    Ok(write!(text, "overlap {first} {second}\n")?)
}

fn push_overlaps(text: &mut String, index: &Index, pairs: &[(u32, u32)]) -> Result<(), NoMemory>
    requires { let count = map.len index.now in All (λ p. (p.0 < p.1) × (p.1 < count)) pairs.now }
    ensures { OnOk result (string_bytes text.new
        ≡ string_bytes text.old ++ flat_map (spec.overlap_text (map.entries index.now)) pairs.now) }
{
    for pair in pairs {
        push_overlap(text, index, *pair)?;
    }
    Ok(())
}

/// The listing of a register table.
#[derive(Drop)]
pub struct Listing {
    pub text: Vec<u8>,
    /// How many registers overlap one before them.
    pub overlaps: usize,
}

impl Listing {
    /// The listing of an index: a line for each register, in byte order of the names, and then a line for each register
    /// that overlaps one before it, with the first such one (profile).
    pub fn of(alloc: Global, index: &Index) -> Result<Listing, NoMemory>
        ensures text { IfOk result (λ listing. listing.text.items ≡ spec.listing_text index.now) }
        ensures overlaps { IfOk result
            (λ listing. listing.overlaps ≡ length (overlapping [] (map.entries index.now))) }
    {
        let mut text = String::new(alloc);
        push_registers(&mut text, index)?;
        let pairs = index.overlaps(alloc)?;
        push_overlaps(&mut text, index, pairs.as_slice())?;
        Ok(Listing {
            text: text.into_bytes(),
            overlaps: pairs.len(),
        })
    }
}
