//! Which rules of a policy match no register.

use crate::denials::may_have;
use crate::unread::found;
use access_policy::{Policy, decide, read_policy, rule_text};
use address_table::Permission;
use ipb_base::NoMemory;
use node_tree::Index;
use note_lines::{Notes, OneLine};
use script_lang::{Session, parse_document, read_session_table, take_key};
use script_steps::Decision;
use session_input::indexes_of;
use std::alloc::Global;
use toml::Value;

/// So many names are compared with rules at the most; the rules that are left then are not looked at.
const MOST_COMPARED: u64 = 10_000_000;

/// Says for each rule of a document's policy that matches no register of its boards the number and the text. Nothing
/// where the document has no policy, or is no session.
pub(crate) fn say_unmatched(notes: &mut Notes, bytes: &[u8]) {
    if may_have(bytes, "policy")
        && let Some(mut document) = found(parse_document(notes.alloc, bytes), notes)
        && let Some(Value::Array(rules)) = take_key(&mut document, "policy")
    {
        take_key(&mut document, "state");
        if let Some(session) = found(read_session_table(notes.alloc, document), notes) {
            say_in_session(notes, rules, &session);
        }
    }
}

fn say_in_session(notes: &mut Notes, rules: Vec<Value>, session: &Session) {
    let boards = session.boards.as_slice();
    if let Some(indexes) = found(indexes_of(notes.alloc, &session.tables, boards), notes) {
        let mut left = MOST_COMPARED;
        for (i, rule) in rules.into_iter().enumerate() {
            say_rule(notes, i + 1, rule, session, indexes.as_slice(), &mut left);
        }
    }
}

/// Says a rule, by its number, where it matches no register. It takes the names that it is compared with off those that
/// are left.
fn say_rule(
    notes: &mut Notes,
    number: usize,
    rule: Value,
    session: &Session,
    indexes: &[Index],
    left: &mut u64,
) {
    let Some(one) = notes.made(one_rule(notes.alloc, rule)) else {
        return;
    };
    let Some(policy) = found(read_policy(notes.alloc, &one), notes) else {
        return;
    };
    if matches_none(&policy, session, indexes, left)
        && let Some(rule) = policy.as_slice().first()
        && let Some(text) = notes.made(rule_text(notes.alloc, rule))
    {
        let text = OneLine(text.as_str());
        notes.say(format_args!("policy rule {number} matches no register: {text}"));
    }
}

/// The value of a policy that has this rule alone.
fn one_rule(alloc: Global, rule: Value) -> Result<Value, NoMemory> {
    let mut rules = Vec::new(alloc);
    rules.push(rule)?;
    Ok(Value::Array(rules))
}

/// Whether a policy of one rule matches no register, where so many names are left that it was compared with all.
fn matches_none(policy: &Policy, session: &Session, indexes: &[Index], left: &mut u64) -> bool {
    for (board, index) in session.boards.as_slice().iter().zip(indexes.iter()) {
        for i in 0..index.len() {
            let (name, _register) = index.at(i);
            if *left == 0 || is_matched(policy, board.name.as_str(), name) {
                return false;
            }
            *left = left.saturating_sub(1);
        }
    }
    true
}

/// Whether the rule of a policy that has one alone matches a register.
fn is_matched(policy: &Policy, board: &str, name: &str) -> bool {
    let Some(rule) = policy.as_slice().first() else {
        return false;
    };
    let needs = match rule.access {
        Permission::R | Permission::Rw => Permission::R,
        Permission::W => Permission::W,
    };
    let client = rule.client.unwrap_or(1);
    decide(policy, client, board, name, needs) != (Decision::Denied { rule: 0 })
}
