//! The line of a refusal.

ghost use Rattle.std.specs.Prelude.{◌≡◌, ◌++◌, IfOk, OnOk, codes, string_bytes};
ghost use Rattle.std.specs.List.{flat_map};
ghost use Rattle.std.specs.Fmt.{decimal};
ghost use Rattle.session_input.specs.Lines as spec;

use crate::names::{bus_rule, compile_rule, document_rule, script_rule, table_rule};
use crate::refusal::Refusal;
use ipb_base::NoMemory;
use std::alloc::Global;

impl Refusal {
    /// The line that tells the refusal, with its line feed.
    pub fn line(&self, alloc: Global) -> Result<String, NoMemory>
        ensures { IfOk result (λ text. string_bytes text ≡ spec.refusal_line self.now) }
    {
        match self {
            Refusal::TooLong => document_line(alloc, "-", "TooLong"),
            Refusal::Document { path, why } => {
                document_line(alloc, shown(path.as_str()), document_rule(*why))
            }
            Refusal::Table { table, path, why } => {
                table_line(alloc, table.as_str(), path.as_slice(), table_rule(*why))
            }
            Refusal::Policy { path } => policy_line(alloc, shown(path.as_str()), "Shape"),
            Refusal::NoServe => policy_line(alloc, "-", "NoServe"),
            Refusal::OneBoard => document_line(alloc, "-", "OneBoard"),
            Refusal::NotSim { name } => board_line(alloc, name.as_str(), "NotSim"),
            Refusal::Compile { table, path, why } => {
                let path = shown(path.as_str());
                compile_line(alloc, table.as_str(), path, compile_rule(*why))
            }
            Refusal::Board { name, why } => board_line(alloc, name.as_str(), bus_rule(*why)),
            Refusal::Script { client, line, why } => {
                script_line(alloc, *client, *line, script_rule(*why))
            }
        }
    }
}

/// An empty path is shown as a hyphen.
fn shown(path: &str) -> &str
    ensures { result.now ≡ spec.shown_path path.now }
{
    if path.is_empty() { "-" } else { path }
}

/// Positions, with dots between them.
fn positions(alloc: Global, path: &[u64]) -> Result<String, NoMemory>
    ensures { IfOk result (λ text. string_bytes text ≡ spec.positions path.now) }
{
    match path {
        [] => Ok(String::new(alloc)),
        [first, rest @ ..] => {
            let mut text = format!(in alloc; "{first}")?;
            push_positions(alloc, &mut text, rest)?;
            Ok(text)
        }
    }
}

/// Adds positions, each after a dot.
fn push_positions(alloc: Global, text: &mut String, path: &[u64]) -> Result<(), NoMemory>
    ensures { OnOk result (string_bytes text.new
        ≡ string_bytes text.old ++ flat_map (λ position. codes "." ++ decimal position) path.now) }
{
    for position in path {
        let next = format!(in alloc; ".{position}")?;
        text.push_str(next.as_str())?;
    }
    Ok(())
}

fn document_line(alloc: Global, path: &str, rule: &str) -> Result<String, NoMemory>
    ensures { IfOk result (λ text. string_bytes text
        ≡ codes "refused: document " ++ (path.now ++ (codes " " ++ (rule.now ++ codes "\n")))) }
{
    Ok(format!(in alloc; "refused: document {path} {rule}\n")?)
}

fn table_line(alloc: Global, table: &str, path: &[u64], rule: &str) -> Result<String, NoMemory>
    ensures { IfOk result (λ text. string_bytes text
        ≡ codes "refused: table " ++ (table.now ++ (codes " " ++ (spec.shown_path (spec.positions path.now)
        ++ (codes " " ++ (rule.now ++ codes "\n")))))) }
{
    let path = positions(alloc, path)?;
    node_line(alloc, table, shown(path.as_str()), rule)
}

fn node_line(alloc: Global, table: &str, path: &str, rule: &str) -> Result<String, NoMemory>
    ensures { IfOk result (λ text. string_bytes text
        ≡ codes "refused: table " ++ (table.now ++ (codes " " ++ (path.now
        ++ (codes " " ++ (rule.now ++ codes "\n")))))) }
{
    Ok(format!(in alloc; "refused: table {table} {path} {rule}\n")?)
}

fn policy_line(alloc: Global, path: &str, rule: &str) -> Result<String, NoMemory>
    ensures { IfOk result (λ text. string_bytes text
        ≡ codes "refused: policy " ++ (path.now ++ (codes " " ++ (rule.now ++ codes "\n")))) }
{
    Ok(format!(in alloc; "refused: policy {path} {rule}\n")?)
}

fn compile_line(alloc: Global, table: &str, path: &str, rule: &str) -> Result<String, NoMemory>
    ensures { IfOk result (λ text. string_bytes text
        ≡ codes "refused: compile " ++ (table.now ++ (codes " " ++ (path.now
        ++ (codes " " ++ (rule.now ++ codes "\n")))))) }
{
    Ok(format!(in alloc; "refused: compile {table} {path} {rule}\n")?)
}

fn board_line(alloc: Global, name: &str, rule: &str) -> Result<String, NoMemory>
    ensures { IfOk result (λ text. string_bytes text ≡ codes "refused: board " ++ (name.now
        ++ (codes " " ++ (rule.now ++ codes "\n")))) }
{
    Ok(format!(in alloc; "refused: board {name} {rule}\n")?)
}

fn script_line(alloc: Global, client: u32, line: u32, rule: &str) -> Result<String, NoMemory>
    ensures { IfOk result (λ text. string_bytes text ≡ codes "refused: script " ++ (decimal client
        ++ (codes " " ++ (decimal line ++ (codes " " ++ (rule.now ++ codes "\n")))))) }
{
    Ok(format!(in alloc; "refused: script {client} {line} {rule}\n")?)
}
