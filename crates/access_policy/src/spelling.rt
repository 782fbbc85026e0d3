//! A rule in one line, as it is written.

ghost use Rattle.std.specs.Prelude.{◌≡◌, ◌++◌, IfOk, OnOk, string_bytes};
ghost use Rattle.std.specs.List.{join_with_byte};
ghost use Rattle.node_tree.specs.Names.{dot};
ghost use Rattle.access_policy.specs.Cutting.{with_part};
ghost use Rattle.access_policy.specs.Spelling as spec;

use crate::policy::{BoardPattern, Effect, ItemPattern, Pattern, Rule};
use address_table::Permission;
use ipb_base::NoMemory;
use std::alloc::Global;

/// A rule in one line (profile): `deny w b0:a`, `allow rw *:** client 2`.
pub fn rule_text(alloc: Global, rule: &Rule) -> Result<String, NoMemory>
    ensures { IfOk result (λ text. string_bytes text ≡ spec.rule_text rule.now) }
{
    let mut text = String::from_str(alloc, effect_text(rule.effect))?;
    text.push_str(" ")?;
    text.push_str(access_text(rule.access))?;
    text.push_str(" ")?;
    push_pattern(alloc, &mut text, &rule.pattern)?;
    push_client(alloc, &mut text, rule.client)?;
    Ok(text)
}

fn effect_text(effect: Effect) -> &'static str
    ensures { result.now ≡ spec.effect_text effect }
{
    match effect {
        Effect::Allow => "allow",
        Effect::Deny => "deny",
    }
}

fn access_text(access: Permission) -> &'static str
    ensures { result.now ≡ spec.access_text access }
{
    match access {
        Permission::R => "r",
        Permission::W => "w",
        Permission::Rw => "rw",
    }
}

fn board_text(board: &BoardPattern) -> &str
    ensures { result.now ≡ spec.board_text board.now }
{
    match board {
        BoardPattern::Any => "*",
        BoardPattern::Named(name) => name.as_str(),
    }
}

fn item_text(alloc: Global, item: &ItemPattern) -> Result<String, NoMemory>
    ensures { IfOk result (λ text. string_bytes text ≡ spec.item_text item.now) }
{
    match item {
        ItemPattern::Any => Ok(String::from_str(alloc, "*")?),
        ItemPattern::Id(id) => Ok(String::from_str(alloc, id.as_str())?),
        ItemPattern::Indexed { id, index } => {
            let id = id.as_str();
            Ok(format!(in alloc; "{id}[{index}]")?)
        }
        ItemPattern::AnyIndex(id) => {
            let id = id.as_str();
            Ok(format!(in alloc; "{id}[*]")?)
        }
    }
}

/// Adds a pattern as it is written: `b0:ctrl.*`.
fn push_pattern(alloc: Global, text: &mut String, pattern: &Pattern) -> Result<(), NoMemory>
    ensures { OnOk result (string_bytes text.new ≡ string_bytes text.old ++ spec.pattern_text pattern.now) }
{
    let items = items_text(alloc, pattern.items.as_slice(), pattern.rest)?;
    text.push_str(board_text(&pattern.board))?;
    text.push_str(":")?;
    text.push_str(items.as_str())?;
    Ok(())
}

/// The items with `.` between them, and `**` behind the last where the rest of a name may be anything.
fn items_text(alloc: Global, items: &[ItemPattern], rest: bool) -> Result<String, NoMemory>
    ensures { IfOk result (λ text. string_bytes text ≡ join_with_byte dot (spec.item_texts items.now rest)) }
{
    let mut text = String::new(alloc);
    for i in 0..items.len() {
        let item = item_text(alloc, &items[i])?;
        push_part(&mut text, i == 0, item.as_str())?;
    }
    if rest {
        push_part(&mut text, items.is_empty(), "**")?;
    }
    Ok(text)
}

/// Adds a text to others, which dots part.
fn push_part(text: &mut String, is_first: bool, part: &str) -> Result<(), NoMemory>
    ensures { OnOk result (string_bytes text.new ≡ with_part is_first (string_bytes text.old) part.now) }
{
    if !is_first {
        text.push_str(".")?;
    }
    text.push_str(part)?;
    Ok(())
}

/// Adds the client, where there is one.
fn push_client(alloc: Global, text: &mut String, client: Option<u32>) -> Result<(), NoMemory>
    ensures { OnOk result (string_bytes text.new ≡ string_bytes text.old ++ spec.client_text client) }
{
    if let Some(number) = client {
        let client = format!(in alloc; " client {number}")?;
        text.push_str(client.as_str())?;
    }
    Ok(())
}
