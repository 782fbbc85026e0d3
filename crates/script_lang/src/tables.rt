//! The register tables of a document.

ghost use Rattle.std.specs.Prelude.{◌≡◌, ℕ, List, Option, [], IfOk, IfErr, OnOk};
ghost use Rattle.address_table.specs.declared.refusal.TableWhy.{TableWhy as Why};
ghost use Rattle.address_table.specs.Limits.{IsFormat};
ghost use Rattle.address_table.specs.Tables.{IsFault};
ghost use Rattle.toml.specs.View.{table_view};
ghost use Rattle.script_lang.specs.Document.{TellsFault, tables_faults};
ghost use Rattle.script_lang.specs.Reading.{AreTables, table_fault_list};
ghost use Rattle.script_lang.specs.Sessions.{format_of, tables_of};

use crate::fields::{number_at, table_at};
use crate::keys::Form;
use crate::refusal::SessionRefusal;
use address_table::{TableRefusal, read_table};
use ipb_base::{NoMemory, Text};
use node_tree::Tables;
use std::alloc::Global;
use toml::Table;

/// The register tables of a document, in byte order of their names.
pub(crate) fn tables(alloc: Global, document: &Table) -> Result<Tables, SessionRefusal>
    ensures read { let ms = table_view document.now in IfOk result (AreTables (format_of ms) (tables_of ms)) }
    ensures none { let ms = table_view document.now in OnOk result (tables_faults (format_of ms) (tables_of ms) ≡ []) }
    ensures first { let ms = table_view document.now in
        IfErr result (TellsFault (tables_faults (format_of ms) (tables_of ms))) }
{
    let format = table_format(document);
    match table_at(document, "tables") {
        Some(members) => each_table(alloc, members, format),
        None => Ok(Tables::new(alloc)),
    }
}

/// The format of the tables of a document.
fn table_format(document: &Table) -> u32
    ensures value { result ≡ format_of (table_view document.now) }
    ensures range { IsFormat result }
{
    number_at(Form::Document, document, "format")
}

fn each_table(alloc: Global, members: &Table, format: u32) -> Result<Tables, SessionRefusal>
    requires { IsFormat format }
    ensures read { IfOk result (AreTables format (table_view members.now)) }
    ensures none { OnOk result (tables_faults format (table_view members.now) ≡ []) }
    ensures first { IfErr result (TellsFault (tables_faults format (table_view members.now))) }
{
    let mut tables = Tables::new(alloc);
    for (name, value) in members.iter() {
        match read_table(alloc, value, format) {
            Ok(table) => tables.put(name.as_str(), table)?,
            Err(refusal) => return Err(refused_table(alloc, name.as_str(), refusal)),
        }
    }
    Ok(tables)
}

/// A refusal of the table of a name.
fn refused_table(alloc: Global, name: &str, refusal: TableRefusal) -> SessionRefusal
    ensures { (fault : Option (List ℕ × Why))
        → IsFault fault refusal → TellsFault (table_fault_list name.now fault) result }
{
    match refusal {
        TableRefusal::At { path, why } => match Text::copy_of(alloc, name) {
            Ok(table) => SessionRefusal::Table {
                table,
                refusal: TableRefusal::At { path, why },
            },
            Err(NoMemory) => SessionRefusal::NoMemory,
        },
        TableRefusal::NoMemory => SessionRefusal::NoMemory,
    }
}
