//! What the lines of boards tell of their greeting.

ghost use Rattle.std.specs.Prelude.{◌≡◌, ◌<◌, ◌^◌, List, ◌∷◌, ◌++◌, IfOk, OnOk, length, string_bytes};
ghost use Rattle.std.specs.List.{AllByRecursion};
ghost use Rattle.board_history.specs.Runs as runs;
ghost use Rattle.board_specs.specs.declared.spec.BoardSpec.{BoardSpec as BoardSpecValue};
ghost use Rattle.script_plans.specs.Plan.{IsGreeting};
ghost use Rattle.script_steps.specs.Rulings.{asked_operations};
ghost use Rattle.transcript.specs.Text as texts;
ghost use Rattle.transcript_reader.specs.Entries as spec;
ghost use Rattle.transcript_reader.specs.Entries.{IsHere, IsLinkHere, clients_from, lines_of, told_from};
ghost use Rattle.transcript_reader.specs.Walks.{HasRoom};

use crate::lines::{first_line, skip_lines};
use board_specs::{BoardSpec, LinkSpec};
use ipb_base::NoMemory;
use script_plans::Greeting;
use script_steps::{Step, Steps};
use std::alloc::Global;

/// The bytes of the headers of IPv4 and UDP (RFC 791, RFC 768).
pub(crate) const IP_UDP_BYTES: u32 = 28;

/// What is told of a board of this process that is neither silent nor down.
pub fn greeting_of(link: &LinkSpec) -> Greeting
    requires { IsLinkHere link.now }
    ensures greeting { result ≡ runs.greeting_of link.now }
    ensures payload { IsGreeting result }
    ensures room { HasRoom result }
{
    match link {
        LinkSpec::Sim { mtu, .. } => Greeting::Live {
            payload: (*mtu - IP_UDP_BYTES) / 4,
        },
        LinkSpec::Udp { .. } => Greeting::Down,
    }
}

/// Puts the line of a silent board behind a text.
pub(crate) fn push_silent(text: &mut String, name: &str) -> Result<(), NoMemory>
    ensures { OnOk result (string_bytes text.new ≡ string_bytes text.old ++ texts.silent_text name.now) }
{
    Ok(write!(text, "board {name} silent\n")?)
}

/// Puts the line of a board that is down behind a text.
pub(crate) fn push_down(text: &mut String, name: &str) -> Result<(), NoMemory>
    ensures { OnOk result (string_bytes text.new ≡ string_bytes text.old ++ texts.down_text name.now) }
{
    Ok(write!(text, "board {name} down\n")?)
}

/// What a text tells of a board by its line.
fn told_by(written: &mut String, board: &BoardSpec, line: &[u8]) -> Result<Greeting, NoMemory>
    requires { IsHere board.now }
    ensures greeting { IfOk result (λ told. told ≡ spec.told_by board.now line.now) }
    ensures room { IfOk result HasRoom }
{
    written.clear();
    push_silent(written, board.name.as_str())?;
    if line == written.as_bytes() {
        return Ok(Greeting::Silent);
    }
    written.clear();
    push_down(written, board.name.as_str())?;
    if line == written.as_bytes() {
        return Ok(Greeting::Down);
    }
    Ok(greeting_of(&board.link))
}

/// How many operations a client asks for, denied or not.
fn operation_count(steps: &[Step]) -> usize
    ensures { result ≡ length (asked_operations steps.now) }
{
    let mut count = 0;
    for step in steps {
        if !matches!(step, Step::Dispatch) {
            count += 1;
        }
    }
    count
}

/// How many lines the clients have.
fn lines_of_clients(scripts: &[Steps]) -> usize
    requires { length (clients_from 1 scripts.now) < 2 ^ 32 }
    ensures { result ≡ length (clients_from 1 scripts.now) }
{
    let mut count = 0;
    for steps in scripts {
        count += 1 + operation_count(steps.as_slice());
    }
    count
}

/// What the lines of a text tell of the first of some boards, and the text behind its line.
fn told_first<'a>(
    written: &mut String,
    board: &BoardSpec,
    text: &'a [u8],
) -> Result<(Greeting, &'a [u8]), NoMemory>
    requires { IsHere board.now }
    ensures greeting { IfOk result (λ first. (boards : List BoardSpecValue) →
        told_from 0 (board.now ∷ boards) (lines_of text.now) ≡ first.0 ∷ told_from 0 boards (lines_of first.1.now)) }
    ensures room { IfOk result (λ first. HasRoom first.0) }
{
    match first_line(text) {
        Some((line, rest)) => Ok((told_by(written, board, line)?, rest)),
        None => Ok((greeting_of(&board.link), text)),
    }
}

/// What the text tells of each board.
pub(crate) fn told_boards(
    alloc: Global,
    written: &mut String,
    boards: &[BoardSpec],
    scripts: &[Steps],
    text: &[u8],
) -> Result<Vec<Greeting>, NoMemory>
    requires here { AllByRecursion IsHere boards.now }
    requires few { length (clients_from 1 scripts.now) < 2 ^ 32 }
    ensures greetings { IfOk result (λ told. told.items
        ≡ spec.told_boards boards.now scripts.now (lines_of text.now)) }
    ensures room { IfOk result (λ told. AllByRecursion HasRoom told.items) }
{
    let mut rest = skip_lines(text, lines_of_clients(scripts));
    let mut told = Vec::with_capacity(alloc, boards.len())?;
    for board in boards {
        let (greeting, more) = told_first(written, board, rest)?;
        told.push(greeting)?;
        rest = more;
    }
    Ok(told)
}
