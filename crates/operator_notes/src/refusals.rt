//! What to look for in an input that is refused.

use crate::node_faults::say_node;
use crate::parsing::say_no_toml;
use crate::script_lines::quote_line;
use crate::sentences::{
    NOT_ONE_BOARD, NOT_SERVED, NOT_SIMULATED, POLICY, TOO_LONG, of_board, of_compiling,
    of_document, of_script, of_table,
};
use crate::shape_faults::say_shape;
use crate::unread::{Refused, say_refused};
use audit_command::read_for_audit;
use capture_commands::{read_for_describe, read_for_undescribe};
use command_words::Command;
use config_input::{read_for_apply, read_for_save};
use ipb_base::NoMemory;
use note_lines::{Notes, OneLine};
use script_lang::{DocWhy, ScriptWhy};
use session_input::{
    Refusal, Unread, read_for_check, read_for_record, read_for_run, read_for_serve,
};
use std::alloc::Global;
use std::fmt;

/// Says what to look for in an input that a command refuses: its place and the rule in words; of a document that is no
/// TOML also what the parser says, and of a line of a script the line and the word that is at fault. Nothing where the
/// command does not refuse it.
pub(crate) fn say_of_input(notes: &mut Notes, command: &Command, bytes: &[u8]) {
    let alloc = notes.alloc;
    match command {
        Command::Run => say_refused(notes, read_for_run(alloc, bytes), bytes),
        Command::Check { table } => {
            say_refused(notes, read_for_check(alloc, bytes, table.as_str()), bytes)
        }
        Command::Serve { port: _, count: _ } => {
            say_refused(notes, read_for_serve(alloc, bytes), bytes)
        }
        Command::Load { count: _ } => {}
        Command::Audit => say_refused(notes, read_for_audit(alloc, bytes), bytes),
        Command::Record => say_refused(notes, read_for_record(alloc, bytes), bytes),
        Command::Describe => say_refused(notes, read_for_describe(alloc, bytes), bytes),
        Command::Undescribe => say_refused(notes, read_for_undescribe(alloc, bytes), bytes),
        Command::Save => say_refused(notes, read_for_save(alloc, bytes), bytes),
        Command::Apply => say_refused(notes, read_for_apply(alloc, bytes), bytes),
    }
}

impl Refused for Unread {
    fn say(&self, notes: &mut Notes, input: &[u8]) {
        match self {
            Unread::Refused(refusal) => say_refusal(notes, refusal, input),
            Unread::NoMemory => notes.lack_memory(),
        }
    }
}

/// Says what to look for in a document that breaks a rule of session documents: its place, and the rule in words.
pub(crate) fn say_refusal(notes: &mut Notes, refusal: &Refusal, bytes: &[u8]) {
    match refusal {
        Refusal::TooLong => notes.say(TOO_LONG),
        Refusal::Document {
            path: _,
            why: DocWhy::NotToml,
        } => say_no_toml(notes, bytes),
        Refusal::Document { path, why } => {
            say_at(notes, path.as_str(), of_document(*why));
            if *why == DocWhy::Shape {
                say_shape(notes, path.as_str(), bytes);
            }
        }
        Refusal::Table { table, path, why } => {
            say_of_node(notes, table.as_str(), path.as_slice(), of_table(*why));
            say_node(notes, table.as_str(), path.as_slice(), *why, bytes);
        }
        Refusal::Policy { path } => say_of_policy(notes, path.as_str(), bytes),
        Refusal::NoServe => notes.say(NOT_SERVED),
        Refusal::OneBoard => notes.say(NOT_ONE_BOARD),
        Refusal::NotSim { name } => notes.say_of("board", name.as_str(), NOT_SIMULATED),
        Refusal::Compile { table, path, why } => {
            notes.say_in("table", table.as_str(), path.as_str(), of_compiling(*why))
        }
        Refusal::Board { name, why } => notes.say_of("board", name.as_str(), of_board(*why)),
        Refusal::Script { client, line, why } => say_of_line(notes, *client, *line, *why, bytes),
    }
}

/// Says a rule on what stands at a path. The path is empty where it is the document as a whole.
fn say_at(notes: &mut Notes, path: &str, rule: &str) {
    if path.is_empty() {
        notes.say(rule);
    } else {
        notes.say_of("at", path, rule);
    }
}

/// The path begins at the array.
fn say_of_policy(notes: &mut Notes, path: &str, bytes: &[u8]) {
    if path.is_empty() {
        return notes.say_of("at", "policy", POLICY);
    }
    if let Some(path) = notes.made(path_of_policy(notes.alloc, path)) {
        notes.say_of("at", path.as_str(), POLICY);
        say_shape(notes, path.as_str(), bytes);
    }
}

/// A path that begins at the document, of one that begins at the policy.
fn path_of_policy(alloc: Global, path: &str) -> Result<String, NoMemory> {
    Ok(format!(in alloc; "policy.{path}")?)
}

/// The node is told by its positions from 0, from the top of the table down.
fn say_of_node(notes: &mut Notes, table: &str, positions: &[u64], rule: &str) {
    let table = OneLine(table);
    let node = Node(positions);
    notes.say(format_args!("table {table}{node}: {rule}"));
}

/// The positions of a node, behind the name of its table. The table itself has none.
#[derive(Clone, Copy)]
struct Node<'a>(&'a [u64]);

impl fmt::Display for Node<'_> {
    fn fmt<W: fmt::Write>(&self, f: &mut fmt::Formatter<W>) -> fmt::Result {
        for (depth, position) in self.0.iter().enumerate() {
            let front = if depth == 0 { ", node " } else { "." };
            write!(f, "{front}{position}")?;
        }
        Ok(())
    }
}

/// Says the rule that a line of a script breaks, and the line.
fn say_of_line(notes: &mut Notes, client: u32, line: u32, why: ScriptWhy, bytes: &[u8]) {
    let rule = of_script(why);
    notes.say(format_args!("client {client}, line {line}: {rule}"));
    quote_line(notes, client, line, why, bytes);
}
