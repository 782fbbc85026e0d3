//! Which rules of a document's policy denied something.

use crate::keys::value_of;
use crate::unread::found;
use access_policy::{Rule, read_policy, rule_text};
use command_words::Command;
use config_input::{read_for_apply, read_for_save};
use ipb_base::NoMemory;
use note_lines::{Notes, OneLine};
use script_steps::{Step, Steps};
use session_input::{Runnable, read_for_record, read_for_run};
use std::{fmt, str};
use toml::Value;

/// Says for each rule of a document's policy that denied an operation of what a command runs, in the order of the rules,
/// its number, how many it denied, and its text; and behind these how many operations no rule allowed. Nothing where the
/// document has no policy, or the command refuses it or runs nothing of it.
pub(crate) fn say_denials(notes: &mut Notes, command: &Command, bytes: &[u8]) {
    if is_under_policy(command)
        && may_have(bytes, "policy")
        && let Some(value) = value_of(notes, bytes, "policy")
    {
        say_denied(notes, &value, command, bytes);
    }
}

/// Whether a command runs something of a document that a policy can deny.
fn is_under_policy(command: &Command) -> bool {
    matches!(
        command,
        Command::Run | Command::Save | Command::Apply | Command::Record
    )
}

/// Whether the text may have a key, which can be written by escapes too: a document without it is not read again.
pub(crate) fn may_have(bytes: &[u8], key: &str) -> bool {
    match str::from_utf8(bytes) {
        Ok(text) => text.contains(key) || text.contains('\\'),
        Err(_) => false,
    }
}

/// Says what is denied by the policy that a value stands for, if it does.
fn say_denied(notes: &mut Notes, value: &Value, command: &Command, bytes: &[u8]) {
    if let Some(policy) = found(read_policy(notes.alloc, value), notes)
        && let Some(read) = read_again(notes, command, bytes)
    {
        say_counts(notes, policy.as_slice(), read.steps.as_slice());
    }
}

/// What a command runs of a document, if it does.
fn read_again(notes: &mut Notes, command: &Command, bytes: &[u8]) -> Option<Runnable> {
    match command {
        Command::Run => found(read_for_run(notes.alloc, bytes), notes),
        Command::Save => found(read_for_save(notes.alloc, bytes), notes),
        Command::Apply => found(read_for_apply(notes.alloc, bytes), notes),
        Command::Record => found(read_for_record(notes.alloc, bytes), notes),
        _ => None,
    }
}

/// Counts how many operations each rule denies, by its number, and at 0 those that no rule allows, and says it.
fn say_counts(notes: &mut Notes, rules: &[Rule], scripts: &[Steps]) {
    match vec![in notes.alloc; 0u64; rules.len() + 1] {
        Ok(mut counts) => {
            count_all_denied(&mut counts, scripts);
            say_rules(notes, rules, &counts);
        }
        Err(_) => notes.lack_memory(),
    }
}

fn count_all_denied(counts: &mut [u64], scripts: &[Steps]) {
    for steps in scripts {
        count_denied(counts, steps.as_slice());
    }
}

fn count_denied(counts: &mut [u64], steps: &[Step]) {
    for step in steps {
        if let Step::Denied { rule, op: _ } = step
            && let Some(count) = counts.get_mut(*rule as usize)
        {
            *count = count.saturating_add(1);
        }
    }
}

fn say_rules(notes: &mut Notes, rules: &[Rule], counts: &[u64]) {
    for (i, rule) in rules.iter().enumerate() {
        say_rule(notes, i + 1, rule, count_at(counts, i + 1));
    }
    let count = count_at(counts, 0);
    if count > 0 {
        let operations = Operations(count);
        notes.say(format_args!("no rule of the policy allowed {operations}"));
    }
}

fn count_at(counts: &[u64], number: usize) -> u64 {
    counts.get(number).copied().unwrap_or(0)
}

/// Says what a rule denied, by its number, if it denied something.
fn say_rule(notes: &mut Notes, number: usize, rule: &Rule, count: u64) {
    if count == 0 {
        return;
    }
    match rule_text(notes.alloc, rule) {
        Ok(text) => {
            let text = OneLine(text.as_str());
            let operations = Operations(count);
            notes.say(format_args!("policy rule {number} denied {operations}: {text}"));
        }
        Err(NoMemory) => notes.lack_memory(),
    }
}

/// A number of operations, as a sentence says it.
#[derive(Clone, Copy)]
struct Operations(u64);

impl fmt::Display for Operations {
    fn fmt<W: fmt::Write>(&self, f: &mut fmt::Formatter<W>) -> fmt::Result {
        let count = self.0;
        if count == 1 {
            return f.write_str("1 operation");
        }
        write!(f, "{count} operations")
    }
}
