ghost use Rattle.std.specs.Prelude.{◌≡◌, IfOk, IfErr, OnOk};
ghost use Rattle.toml.specs.Data.{table};
ghost use Rattle.toml.specs.View.{view, array_view, table_view};
ghost use Rattle.address_table.specs.Rules.{broken_rule};
ghost use Rattle.address_table.specs.Fields.{SaysFields};
ghost use Rattle.address_table.specs.Limits.{IsFormat};
ghost use Rattle.address_table.specs.Valid.{IsValid};
ghost use Rattle.address_table.specs.Tables.{IsTable, IsNode, AreNodes, IsFault, table_fault, first_fault, preorder};
ghost use Rattle.address_table.specs.Tables.{preorder_items, children};

use crate::copies::{copy_at, copy_module, refused_below, refused_here};
use crate::keys::{Fields, child_items, read_fields};
use crate::{Node, Table, TableRefusal, TableWhy};
use std::alloc::Global;
use toml::Value;
use toml::value::Array;

/// Reads a table of nodes (profile), in table format 1 or 2. A value is a table if each node in it keeps the rules of
/// `TableWhy`; otherwise the first faulty node is told, each node before its children, with the first rule that it
/// breaks. A value that is a table in format 1 is read in format 2 as that table.
pub fn read_table(alloc: Global, value: &Value, format: u32) -> Result<Table, TableRefusal>
    requires { IsFormat format }
    ensures read { IfOk result (λ table. IsTable format (view value.now) table) }
    ensures valid { IfOk result (λ table. IsValid table) }
    ensures accepted { OnOk result (table_fault format (view value.now) ≡ None) }
    ensures refused { IfErr result (λ refusal. IsFault (table_fault format (view value.now)) refusal) }
{
    match value.as_array() {
        Some(items) => Ok(Table {
            nodes: read_nodes(alloc, items, format)?,
        }),
        None => Err(refused_here(alloc, TableWhy::Shape)),
    }
}

/// The nodes that the items of an array are.
#[cycle(read)]
fn read_nodes(alloc: Global, items: &Array, format: u32) -> Result<Vec<Node>, TableRefusal>
    ensures read { IfOk result (λ nodes. AreNodes format (array_view items.now) nodes.items) }
    ensures refused { let fault = first_fault format (preorder_items 0 (array_view items.now)) in
        IfErr result (λ refusal. IsFault fault refusal) }
{
    let mut nodes = Vec::with_capacity(alloc, items.len())?;
    for (i, item) in items.iter().enumerate() {
        match read_node(alloc, item, format) {
            Ok(node) => nodes.push(node)?,
            Err(refusal) => return Err(refused_below(i as u64, refusal)),
        }
    }
    Ok(nodes)
}

#[cycle(read)]
fn read_node(alloc: Global, value: &Value, format: u32) -> Result<Node, TableRefusal>
    ensures read { IfOk result (λ node. IsNode format (view value.now) node) }
    ensures refused { IfErr result (λ refusal. IsFault (first_fault format (preorder (view value.now))) refusal) }
{
    let Some(members) = value.as_table() else {
        return Err(refused_here(alloc, TableWhy::Shape));
    };
    match read_fields(members, format) {
        Ok(fields) => read_rest(alloc, members, fields, format),
        Err(why) => Err(refused_here(alloc, why)),
    }
}

/// The texts and the children of a node that keeps the rules.
#[cycle(read)]
fn read_rest(
    alloc: Global,
    members: &toml::Table,
    fields: Fields,
    format: u32,
) -> Result<Node, TableRefusal>
    requires kept { broken_rule format (table_view members.now) ≡ None }
    requires said { SaysFields (table_view members.now) fields }
    ensures read { IfOk result (λ node. IsNode format (table (table_view members.now)) node) }
    ensures refused { let fault = first_fault format (preorder_items 0 (children (table_view members.now))) in
        IfErr result (λ refusal. IsFault fault refusal) }
{
    let nodes = read_children(alloc, members, format)?;
    Ok(Node {
        id: copy_at(alloc, members, "id")?,
        address: fields.address,
        mask: fields.mask,
        permission: fields.permission,
        mode: fields.mode,
        size: fields.size,
        count: fields.count,
        stride: fields.stride,
        module: copy_module(alloc, members)?,
        tags: copy_at(alloc, members, "tags")?,
        description: copy_at(alloc, members, "description")?,
        nodes,
    })
}

#[cycle(read)]
fn read_children(
    alloc: Global,
    members: &toml::Table,
    format: u32,
) -> Result<Vec<Node>, TableRefusal>
    ensures read { IfOk result (λ nodes. AreNodes format (children (table_view members.now)) nodes.items) }
    ensures refused { let fault = first_fault format (preorder_items 0 (children (table_view members.now))) in
        IfErr result (λ refusal. IsFault fault refusal) }
{
    match child_items(members) {
        Some(items) => read_nodes(alloc, items, format),
        None => Ok(Vec::new(alloc)),
    }
}
