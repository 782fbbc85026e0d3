ghost use Rattle.std.specs.Prelude.{◌≡◌, ◌<◌, ◌≤◌, ◌^◌, ◌==◌, [], All, IfOk, IfSome, slice_get, string_bytes};
ghost use Rattle.std.specs.Ordering.{nat_cmp};
ghost use Rattle.std.specs.Cmp.Lexicographic.{slice_cmp};
ghost use Rattle.std.specs.FinMap as map;
ghost use Rattle.node_tree.specs.Limits.{most_nodes};
ghost use Rattle.node_tree.specs.Maps.{AreEntries, IsRegister};
ghost use Rattle.node_tree.specs.Named.{named_entries, AreInOrder};
ghost use Rattle.node_tree.specs.Overlaps.{overlapping};

use crate::overlapping::overlapping_pairs;
use crate::{NoMemory, Register};
use std::alloc::Global;
use std::cmp::Ordering;
use std::marker::Model;

/// The registers that a table names. Contracts see the map from the bytes of the names to the registers.
#[derive(Drop)]
pub struct Index {
    /// In byte order of the names, no two of which are equal.
    entries: Vec<(String, Register)>,
}

impl Model for Index {
    ghost use Rattle.std.specs.Coded.{coded_ℕ, coded_list};
    ghost use Rattle.std.specs.FinMap as map;
    ghost use Rattle.node_tree.specs.Maps.{RegisterMap, AreEntries, named_entries};
    ghost use Rattle.node_tree.specs.contracts.register.Register as r;

    ghost Value = { RegisterMap };

    ghost coded = { map.code (coded_list coded_ℕ) r.the_row.coded };

    ghost view = { λ index. map.from_sorted (named_entries index.entries.items) };

    ghost invariant = { λ index. AreEntries index.entries.items };
}

impl Index {
    /// The index of entries in byte order.
    pub(crate) fn from_sorted(entries: Vec<(String, Register)>) -> Index
        requires { AreEntries entries.items }
        ensures { result ≡ map.from_sorted (named_entries entries.items) }
    {
        Index { entries }
    }

    /// The register of a name, if the index has the name. Its mask and its size fit its mode, and it ends at an address
    /// of 32 bits.
    pub fn find(&self, name: &str) -> Option<Register>
        ensures found { result ≡ map.get self.now name.now }
        ensures register { IfSome result IsRegister }
    {
        found_in(&self.entries, name)
    }

    /// How many registers there are, at most `MAX_NODES`.
    pub fn len(&self) -> usize
        ensures registers { result ≡ map.len self.now }
        ensures few { result ≤ most_nodes }
    {
        let entries = self.entries.as_slice();
        entries.len()
    }

    /// Whether there is no register.
    pub fn is_empty(&self) -> bool
        ensures { result ≡ (map.len self.now == 0) }
    {
        self.len() == 0
    }

    /// A register by its place from 0, in byte order of the names. Its mask and its size fit its mode, and it ends at
    /// an address of 32 bits.
    pub fn at(&self, i: usize) -> (&str, Register)
        requires { i < map.len self.now }
        ensures entry { slice_get (map.entries self.now) i ≡ Some (result.0.now, result.1) }
        ensures register { IsRegister result.1 }
    {
        let entries = self.entries.as_slice();
        let entry = &entries[i];
        (entry.0.as_str(), entry.1)
    }

    /// The registers that overlap one before them, in byte order of the names: for each the places from 0 of the first
    /// such one and of itself (profile). Two registers overlap where they share an address and a bit of their masks,
    /// neither is hierarchical, and neither name is the other's up to a dot. A block has `size` addresses, a port one.
    pub fn overlaps(&self, alloc: Global) -> Result<Vec<(u32, u32)>, NoMemory>
        ensures pairs { IfOk result (λ pairs. pairs.items ≡ overlapping [] (map.entries self.now)) }
        ensures places { let count = map.len self.now in
            IfOk result (λ pairs. All (λ p. (p.0 < p.1) × (p.1 < count)) pairs.items) }
    {
        overlapping_pairs(alloc, self.entries.as_slice())
    }
}

/// The register of a name among entries in byte order.
fn found_in(entries: &[(String, Register)], name: &str) -> Option<Register>
    requires { AreInOrder entries.now }
    ensures { result ≡ map.find (slice_cmp nat_cmp) name.now (named_entries entries.now) }
{
    match entries.binary_search_by(|entry| order(entry, name)) {
        Ok(i) => Some(entries[i].1),
        Err(_) => None,
    }
}

/// How the name of an entry stands to another, in byte order.
fn order(entry: &(String, Register), name: &str) -> Ordering
    ensures { result ≡ slice_cmp nat_cmp (string_bytes entry.now.0) name.now }
{
    entry.0.as_str().cmp(name)
}
