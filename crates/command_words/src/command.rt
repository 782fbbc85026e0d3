//! The commands of the program.

ghost use Rattle.std.specs.Prelude.{◌≡◌, IfOk, map, string_bytes};
ghost use Rattle.command_words.specs.Commands as spec;
ghost use Rattle.ipb_base.specs.Numbers.{greatest_port};
ghost use Rattle.command_words.specs.Read.{form_of, command_named};

use crate::line::{Line, LineError, read_line};
use ipb_base::{NoMemory, Text, number_in_text};
use std::alloc::Global;

/// The line for words that are no command.
pub const USAGE_LINE: &str =
    "usage: ipbus run | check TABLE | serve PORT COUNT | load COUNT | audit | record | describe | undescribe | save | apply\n";

/// The greatest port of `serve` (profile).
pub const MAX_PORT: u32 = 65_535;

/// The most connections of `serve` (profile).
pub const MAX_CONNECTIONS: u32 = 64;

/// The most operations of `load` (profile).
pub const MAX_OPERATIONS: u32 = 100_000;

/// What the words of a command line ask for (profile).
#[derive(Drop)]
pub enum Command {
    /// `run`: the scripts of a session document are run on its boards.
    Run,
    /// `check TABLE`: the registers of a table of a session document are listed.
    Check { table: Text },
    /// `serve PORT COUNT`: connections to a port, from 1, are served on the boards of a session document. There are 1
    /// to `MAX_CONNECTIONS` of them.
    Serve { port: u16, count: u32 },
    /// `load COUNT`: a generated session of so many operations is run, 1 to `MAX_OPERATIONS` of them.
    Load { count: u32 },
    /// `audit`: a transcript is judged by the session document before it.
    Audit,
    /// `record`: the scripts of a session document are run on its one board, and the capture of its traffic is written.
    Record,
    /// `describe`: the description of a capture is written.
    Describe,
    /// `undescribe`: the text of the capture that has a description is written.
    Undescribe,
    /// `save`: the configuration of the boards of a session document is written.
    Save,
    /// `apply`: the values under the key `state` of a session document are put into its boards, and then their
    /// configuration is written.
    Apply,
}

/// The command that words are, if they are one. A word that begins with a hyphen is in none: there are no options, and
/// no words for help or the version.
pub fn command_of(alloc: Global, words: &[String]) -> Result<Option<Command>, NoMemory>
    ensures { IfOk result (λ command. command ≡ spec.command_of (map string_bytes words.now)) }
{
    match read_line(alloc, words) {
        Ok(line) => command_in(alloc, line),
        Err(LineError::Usage) => Ok(None),
        Err(LineError::NoMemory) => Err(NoMemory),
    }
}

/// The command of a line, if its numbers are right.
fn command_in(alloc: Global, line: Line<'_>) -> Result<Option<Command>, NoMemory>
    ensures { IfOk result (λ command. command ≡ command_named (form_of line.entry)) }
{
    match line {
        Line::Alone(name) => Ok(alone(name)),
        Line::Check(table) => Ok(Some(Command::Check {
            table: Text::copy_of(alloc, table)?,
        })),
        Line::Serve(port, count) => Ok(serve(port.as_bytes(), count.as_bytes())),
        Line::Load(count) => Ok(load(count.as_bytes())),
    }
}

/// The command that is this name alone.
fn alone(name: &str) -> Option<Command>
    ensures { result ≡ spec.command_of_one name.now }
{
    match name {
        "run" => Some(Command::Run),
        "audit" => Some(Command::Audit),
        "record" => Some(Command::Record),
        "describe" => Some(Command::Describe),
        "undescribe" => Some(Command::Undescribe),
        "save" => Some(Command::Save),
        "apply" => Some(Command::Apply),
        _ => None,
    }
}

/// The command to serve, if its numbers are right.
fn serve(port: &[u8], count: &[u8]) -> Option<Command>
    ensures { result ≡ spec.serve_command_of port.now count.now }
{
    let port = port_in(port)?;
    let count = number_between(1, MAX_CONNECTIONS, count)?;
    Some(Command::Serve { port, count })
}

/// The command to run a generated session, if its number is right.
fn load(count: &[u8]) -> Option<Command>
    ensures { result ≡ spec.load_command_of count.now }
{
    let count = number_between(1, MAX_OPERATIONS, count)?;
    Some(Command::Load { count })
}

/// A port, from 1.
fn port_in(word: &[u8]) -> Option<u16>
    ensures { result ≡ spec.number_between 1 greatest_port word.now }
{
    let number = number_between(1, MAX_PORT, word)?;
    u16::try_from(number).ok()
}

/// The number from `least` to `most` that 1 to 10 decimal digits write.
#[tactic(auto, using(crate::proofs::Digits::hexadecimal))]
fn number_between(least: u32, most: u32, word: &[u8]) -> Option<u32>
    ensures { result ≡ spec.number_between least most word.now }
{
    // a text of a document may have hexadecimal digits, a word may not
    if word.starts_with(b"0x".as_slice()) {
        return None;
    }
    let number = number_in_text(word)?;
    if least <= number && number <= most {
        Some(number)
    } else {
        None
    }
}
