ghost use Rattle.std.specs.Prelude.{◌≡◌, OnOk, OnErr, option_copied};
ghost use Rattle.std.specs.FinMap as map;
ghost use Rattle.address_table.specs.Valid.{IsValid};
ghost use Rattle.node_tree.specs.Maps.{AreValidTables};
ghost use Rattle.node_tree.specs.Named.{named_entries};

use crate::name_map::NameMap;
use address_table::{NoMemory, Table};
use std::alloc::Global;
use std::collections::BTreeMap;
use std::marker::Model;

/// The tables of a document by their names. Contracts see the map from the bytes of the names to the tables.
#[derive(Drop)]
pub struct Tables {
    alloc: Global,
    by_name: NameMap<Table>,
}

impl Model for Tables {
    ghost use Rattle.std.specs.Coded.{coded_ℕ, coded_list};
    ghost use Rattle.std.specs.FinMap as map;
    ghost use Rattle.node_tree.specs.Maps.{TableMap, AreValidTables};
    ghost use Rattle.address_table.specs.contracts.nodes.Table as t;

    ghost Value = { TableMap };

    ghost coded = { map.code (coded_list coded_ℕ) t.the_row.coded };

    ghost view = { λ tables. tables.by_name };

    ghost invariant = { λ tables. AreValidTables tables.by_name };
}

impl Tables {
    /// A list with no tables. It takes no memory.
    pub fn new(alloc: Global) -> Tables
        ensures { result ≡ map.empty }
    {
        Tables {
            alloc,
            by_name: NameMap::new(alloc),
        }
    }

    /// Keeps a table under a name, in the place of one of that name. Its nodes are valid, as those of a table that was
    /// read are. After `NoMemory` the tables are as before.
    pub fn put(&mut self, name: &str, table: Table) -> Result<(), NoMemory>
        requires { IsValid table }
        ensures ok { OnOk result (self.new ≡ map.insert self.old name.now table) }
        ensures err { OnErr result (self.new ≡ self.old) }
    {
        self.by_name.insert(self.alloc, name, table)
    }

    /// The table of a name.
    pub fn get(&self, name: &str) -> Option<&Table>
        ensures { option_copied result ≡ map.get self.now name.now }
    {
        self.by_name.get(name)
    }

    /// The tables by name. The nodes of each are valid, since no other table may be put.
    pub(crate) fn by_name(&self) -> &NameMap<Table>
        ensures same { result.now ≡ self.now }
        ensures valid { AreValidTables self.now }
    {
        &self.by_name
    }

    /// The names and tables, in byte order of the names.
    pub(crate) fn entries(&self) -> &BTreeMap<String, Table>
        ensures { named_entries result.now.entries ≡ map.entries self.now }
    {
        self.by_name.entries()
    }
}
