ghost use Rattle.std.specs.Prelude.{◌≡◌, IfOk, OnOk, OnErr, option_copied};
ghost use Rattle.std.specs.FinMap as map;
ghost use Rattle.node_tree.specs.Named.{named_entries};
ghost use Rattle.node_tree.specs.ClosedNames.{is_closed};

use address_table::NoMemory;
use std::alloc::Global;
use std::collections::BTreeMap;
use std::marker::Model;

/// A map from names to values. Contracts see it as that map, whose keys are the bytes of the names.
#[derive(Drop)]
pub(crate) struct NameMap<V> {
    by_name: BTreeMap<String, V>,
    /// Where this is false no name ends with a bracket, and none that does is looked for.
    has_closed: bool,
}

/// Whether a name ends with a bracket, as one with an index does.
fn is_closed(name: &str) -> bool
    ensures { result ≡ is_closed name.now }
{
    let bytes = name.as_bytes();
    !bytes.is_empty() && bytes[bytes.len() - 1] == b']'
}

impl<V> Model for NameMap<V> {
    ghost use Rattle.std.specs.Ordering.{nat_cmp};
    ghost use Rattle.std.specs.Cmp.Lexicographic.{slice_cmp};
    ghost use Rattle.std.specs.FinMap as map;
    ghost use Rattle.std.specs.Coded.{coded_ℕ, coded_list};
    ghost use Rattle.std.specs.Prelude.{◌≡◌, false};
    ghost use Rattle.node_tree.specs.Named.{named_entries, AreInOrder};
    ghost use Rattle.node_tree.specs.ClosedNames.{HasNoClosed};

    ghost Value = { map.FinMap (slice_cmp nat_cmp) V };

    ghost coded = { map.code (coded_list coded_ℕ) V.code };

    ghost view = { λ m. map.from_sorted (named_entries m.by_name.entries) };

    ghost invariant = { λ m. AreInOrder m.by_name.entries
        × (m.has_closed ≡ false → HasNoClosed (map.from_sorted (named_entries m.by_name.entries))) };
}

impl<V: Drop> NameMap<V> {
    pub(crate) fn new(alloc: Global) -> NameMap<V>
        ensures { result ≡ map.empty }
    {
        NameMap {
            by_name: BTreeMap::new(alloc),
            has_closed: false,
        }
    }

    pub(crate) fn get(&self, name: &str) -> Option<&V>
        ensures { option_copied result ≡ map.get self.now name.now }
    {
        if !self.has_closed && is_closed(name) {
            return None;
        }
        self.by_name.get(name)
    }

    pub(crate) fn contains(&self, name: &str) -> bool
        ensures { result ≡ map.contains_key self.now name.now }
    {
        self.get(name).is_some()
    }

    /// Keeps a value under a name, and answers the one of that name in whose place it stands.
    pub(crate) fn replace(
        &mut self,
        alloc: Global,
        name: &str,
        value: V,
    ) -> Result<Option<V>, NoMemory>
        ensures was { IfOk result (λ was. was ≡ map.get self.old name.now) }
        ensures ok { OnOk result (self.new ≡ map.insert self.old name.now value) }
        ensures err { OnErr result (self.new ≡ self.old) }
    {
        let closed = self.has_closed || is_closed(name);
        let name = String::from_str(alloc, name)?;
        let was = self.by_name.insert(name, value)?;
        self.has_closed = closed;
        Ok(was)
    }

    /// Keeps a value under a name, in the place of one of that name.
    pub(crate) fn insert(&mut self, alloc: Global, name: &str, value: V) -> Result<(), NoMemory>
        ensures ok { OnOk result (self.new ≡ map.insert self.old name.now value) }
        ensures err { OnErr result (self.new ≡ self.old) }
    {
        self.replace(alloc, name, value)?;
        Ok(())
    }

    /// The names and values, in byte order of the names.
    pub(crate) fn entries(&self) -> &BTreeMap<String, V>
        ensures { named_entries result.now.entries ≡ map.entries self.now }
    {
        &self.by_name
    }

    pub(crate) fn into_entries(self) -> BTreeMap<String, V>
        ensures { named_entries result.entries ≡ map.entries self }
    {
        let NameMap { by_name, .. } = self;
        by_name
    }
}
