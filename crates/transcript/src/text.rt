//! The text of a transcript.

ghost use Rattle.std.specs.Prelude.{◌≡◌, ◌+◌, ◌++◌, ◌<◌, map, IfOk, OnOk, string_bytes, codes};
ghost use Rattle.transcript.specs.Steps.{unsent_line};
ghost use Rattle.transcript.specs.Text as spec;

use crate::line::{BoardLine, LateAnswer, OpLine, OpResult};
use ipb_base::NoMemory;
use script_steps::Verb;
use std::alloc::Global;

/// Puts these characters behind a text.
pub(crate) fn push_text(text: &mut String, more: &str) -> Result<(), NoMemory>
    ensures { OnOk result (string_bytes text.new ≡ string_bytes text.old ++ more.now) }
{
    Ok(text.push_str(more)?)
}

/// Puts a word behind a text: `0x` and eight lower-case hexadecimal digits (profile).
pub fn push_word(text: &mut String, word: u32) -> Result<(), NoMemory>
    ensures { OnOk result (string_bytes text.new ≡ string_bytes text.old ++ spec.word_text word) }
{
    Ok(write!(text, "0x{word:08x}")?)
}

/// The words, each behind a space.
fn push_words(text: &mut String, words: &[u32]) -> Result<(), NoMemory>
    ensures { OnOk result (string_bytes text.new ≡ string_bytes text.old ++ spec.words_text words.now) }
{
    for word in words {
        text.push_str(" ")?;
        push_word(text, *word)?;
    }
    Ok(())
}

/// The word of a script line.
pub fn verb_text(verb: Verb) -> &'static str
    ensures { result.now ≡ spec.verb_text verb }
{
    match verb {
        Verb::Read => "read",
        Verb::Write => "write",
        Verb::ReadBlock => "readblock",
        Verb::WriteBlock => "writeblock",
        Verb::RmwBits => "rmwbits",
        Verb::RmwSum => "rmwsum",
    }
}

/// `= 0xW 0xW ..`
pub(crate) fn push_value(text: &mut String, words: &[u32]) -> Result<(), NoMemory>
    ensures { OnOk result (string_bytes text.new ≡ string_bytes text.old ++ spec.value_text words.now) }
{
    text.push_str("=")?;
    push_words(text, words)
}

/// `was 0xW`
fn push_was(text: &mut String, word: u32) -> Result<(), NoMemory>
    ensures { OnOk result (string_bytes text.new ≡ string_bytes text.old ++ spec.was_text word) }
{
    text.push_str("was ")?;
    push_word(text, word)
}

/// `error C after N`
fn push_error(text: &mut String, code: u8, after: u8) -> Result<(), NoMemory>
    ensures { OnOk result (string_bytes text.new ≡ string_bytes text.old ++ spec.error_text code after) }
{
    Ok(write!(text, "error {code} after {after}")?)
}

/// `timeout after R rounds, execution unknown`
fn push_timeout(text: &mut String, rounds: u8) -> Result<(), NoMemory>
    ensures { OnOk result (string_bytes text.new ≡ string_bytes text.old ++ spec.timeout_text rounds) }
{
    Ok(write!(text, "timeout after {rounds} rounds, execution unknown")?)
}

/// What a late answer shows.
fn push_answer(text: &mut String, answer: &LateAnswer) -> Result<(), NoMemory>
    ensures { OnOk result (string_bytes text.new ≡ string_bytes text.old ++ spec.answer_text answer.now) }
{
    match answer {
        LateAnswer::Value(words) => push_value(text, words.as_slice()),
        LateAnswer::Done => push_text(text, "done"),
        LateAnswer::Was(word) => push_was(text, *word),
        LateAnswer::Error { code, after } => push_error(text, *code, *after),
        LateAnswer::Skipped => push_text(text, "skipped"),
        LateAnswer::Garbled => push_text(text, "garbled"),
    }
}

/// `timeout after R rounds, answered late: ` and what the answer shows
fn push_late(text: &mut String, rounds: u8, answer: &LateAnswer) -> Result<(), NoMemory>
    ensures { OnOk result (string_bytes text.new ≡ string_bytes text.old ++ spec.late_text rounds answer.now) }
{
    write!(text, "timeout after {rounds} rounds, answered late: ")?;
    push_answer(text, answer)
}

/// `denied by rule N`
fn push_denied(text: &mut String, rule: u32) -> Result<(), NoMemory>
    ensures { OnOk result (string_bytes text.new ≡ string_bytes text.old ++ spec.denied_text rule) }
{
    Ok(write!(text, "denied by rule {rule}")?)
}

/// Puts what an operation came to behind a text (profile).
pub fn push_result(text: &mut String, came_to: &OpResult) -> Result<(), NoMemory>
    ensures { OnOk result (string_bytes text.new ≡ string_bytes text.old ++ spec.result_text came_to.now) }
{
    match came_to {
        OpResult::Value(words) => push_value(text, words.as_slice()),
        OpResult::Done => push_text(text, "done"),
        OpResult::Was(word) => push_was(text, *word),
        OpResult::Error { code, after } => push_error(text, *code, *after),
        OpResult::Skipped => push_text(text, "skipped"),
        OpResult::TimedOut { rounds } => push_timeout(text, *rounds),
        OpResult::Late { rounds, answer } => push_late(text, *rounds, answer),
        OpResult::Unsent => push_text(text, "unsent"),
        OpResult::LinkLost => push_text(text, "link lost"),
        OpResult::Garbled => push_text(text, "garbled"),
        OpResult::Denied { rule } => push_denied(text, *rule),
    }
}

/// The place of a body and the number of a transaction in it, behind what stands before a place.
fn push_place(text: &mut String, before: &str, place: (u64, u16)) -> Result<(), NoMemory>
    ensures { OnOk result (string_bytes text.new ≡ string_bytes text.old ++ (before.now ++ spec.place_text place)) }
{
    let (place, transaction) = place;
    Ok(write!(text, "{before}{place}.{transaction}")?)
}

/// Places behind the first, each behind a comma.
fn push_more_places(text: &mut String, places: &[(u64, u16)]) -> Result<(), NoMemory>
    ensures { OnOk result (string_bytes text.new ≡ string_bytes text.old ++ spec.more_places places.now) }
{
    for place in places {
        push_place(text, ",", *place)?;
    }
    Ok(())
}

/// The places of an operation, behind an at sign, where it has any.
pub(crate) fn push_places(text: &mut String, places: &[(u64, u16)]) -> Result<(), NoMemory>
    ensures { OnOk result (string_bytes text.new ≡ string_bytes text.old ++ spec.places_text places.now) }
{
    match places {
        [] => Ok(()),
        [first, others @ ..] => {
            push_place(text, " @", *first)?;
            push_more_places(text, others)
        }
    }
}

/// What stands before the result: number, verb and register.
pub(crate) fn push_asked(
    text: &mut String,
    number: u32,
    verb: Verb,
    board: &str,
    name: &str,
) -> Result<(), NoMemory>
    ensures { OnOk result (string_bytes text.new
        ≡ string_bytes text.old ++ spec.asked_text (unsent_line number verb board.now name.now)) }
{
    let verb = verb_text(verb);
    Ok(write!(text, "{number} {verb} {board}:{name} ")?)
}

/// The line of an operation, its line feed included.
fn push_line(text: &mut String, line: &OpLine) -> Result<(), NoMemory>
    ensures { OnOk result (string_bytes text.new ≡ string_bytes text.old ++ spec.line_text line.now) }
{
    let board = line.board.as_str();
    push_asked(text, line.number, line.verb, board, line.name.as_str())?;
    push_result(text, &line.result)?;
    push_places(text, line.places.as_slice())?;
    push_text(text, "\n")
}

/// The line of an operation, its line feed included (profile).
pub fn line_text(alloc: Global, line: &OpLine) -> Result<Vec<u8>, NoMemory>
    ensures { IfOk result (λ text. text.items ≡ spec.line_text line.now) }
{
    let mut text = String::new(alloc);
    push_line(&mut text, line)?;
    Ok(text.into_bytes())
}

/// The heading of a client, whose number counts from 1.
pub(crate) fn push_heading(text: &mut String, client: u64) -> Result<(), NoMemory>
    ensures { OnOk result (string_bytes text.new ≡ string_bytes text.old ++ spec.heading client) }
{
    Ok(write!(text, "client {client}\n")?)
}

/// The lines, each behind the one before.
fn push_lines(text: &mut String, lines: &[OpLine]) -> Result<(), NoMemory>
    ensures { OnOk result (string_bytes text.new ≡ string_bytes text.old ++ spec.lines_text lines.now) }
{
    for line in lines {
        push_line(text, line)?;
    }
    Ok(())
}

/// Each client's heading and lines, the first of which has this number.
fn push_clients(text: &mut String, clients: &[Vec<OpLine>]) -> Result<(), NoMemory>
    ensures { let lines = map (λ client. client.items) clients.now in
        OnOk result (string_bytes text.new ≡ string_bytes text.old ++ spec.clients_text 1 lines) }
{
    for (i, lines) in clients.iter().enumerate() {
        push_heading(text, i as u64 + 1)?;
        push_lines(text, lines.as_slice())?;
    }
    Ok(())
}

fn live_text(
    alloc: Global,
    name: &str,
    sent: u64,
    replied: u64,
    timed_out: u64,
    lost: u64,
) -> Result<String, NoMemory>
    ensures { IfOk result (λ text. string_bytes text ≡ spec.live_text name.now sent replied timed_out lost) }
{
    Ok(format!(in alloc;
        "board {name} places {sent} replied {replied} timeout {timed_out} lost {lost}\n"
    )?)
}

fn silent_text(alloc: Global, name: &str) -> Result<String, NoMemory>
    ensures { IfOk result (λ text. string_bytes text ≡ spec.silent_text name.now) }
{
    Ok(format!(in alloc; "board {name} silent\n")?)
}

fn down_text(alloc: Global, name: &str) -> Result<String, NoMemory>
    ensures { IfOk result (λ text. string_bytes text ≡ spec.down_text name.now) }
{
    Ok(format!(in alloc; "board {name} down\n")?)
}

fn board_text(alloc: Global, line: &BoardLine) -> Result<String, NoMemory>
    ensures { IfOk result (λ text. string_bytes text ≡ spec.board_text line.now) }
{
    match line {
        BoardLine::Live {
            name,
            sent,
            replied,
            timed_out,
            lost,
        } => live_text(alloc, name.as_str(), *sent, *replied, *timed_out, *lost),
        BoardLine::Silent { name } => silent_text(alloc, name.as_str()),
        BoardLine::Down { name } => down_text(alloc, name.as_str()),
    }
}

/// Puts the lines of boards behind a text, each with its line feed (profile).
pub fn push_boards(alloc: Global, text: &mut String, boards: &[BoardLine]) -> Result<(), NoMemory>
    ensures { OnOk result (string_bytes text.new ≡ string_bytes text.old ++ spec.boards_text boards.now) }
{
    for line in boards {
        let next = board_text(alloc, line)?;
        text.push_str(next.as_str())?;
    }
    Ok(())
}

/// The transcript: for each client a heading and its lines, and then the lines of the boards (profile).
pub fn transcript_text(
    alloc: Global,
    clients: &[Vec<OpLine>],
    boards: &[BoardLine],
) -> Result<Vec<u8>, NoMemory>
    ensures { let lines = map (λ client. client.items) clients.now in
        IfOk result (λ text. text.items
        ≡ spec.transcript_text (record { clients = lines; boards = boards.now })) }
{
    let mut text = String::new(alloc);
    push_clients(&mut text, clients)?;
    push_boards(alloc, &mut text, boards)?;
    Ok(text.into_bytes())
}
