//! What a line of a script says.

ghost use Rattle.std.specs.Prelude.{◌≡◌, IfOk, option_map};
ghost use Rattle.script_lang.specs.Lines as spec;
ghost use Rattle.script_lang.specs.Texts.{cut_at};

use crate::Verb;
use crate::call::{Call, Command, Name};
use crate::line::next_word;
use crate::named::value_named;
use address_table::number_in_text;
use ipb_base::{NoMemory, Words};
use std::alloc::Global;

const VERBS: [(&str, Verb); 6] = [
    ("read", Verb::Read),
    ("write", Verb::Write),
    ("readblock", Verb::ReadBlock),
    ("writeblock", Verb::WriteBlock),
    ("rmwbits", Verb::RmwBits),
    ("rmwsum", Verb::RmwSum),
];

fn is_comment(word: &[u8]) -> bool
    ensures { result ≡ spec.is_comment word.now }
{
    match word {
        [first, ..] => *first == b'#',
        [] => false,
    }
}

fn verb_named(word: &str) -> Option<Verb>
    ensures { result ≡ spec.verb_named word.now }
{
    value_named(&VERBS, word)
}

/// The numbers that the words of a text are.
fn numbers_in(alloc: Global, text: &str) -> Result<Option<Words>, NoMemory>
    ensures { IfOk result (λ numbers. numbers ≡ spec.numbers_of (spec.words text.now)) }
{
    let mut numbers = Vec::new(alloc);
    let mut rest = text;
    'word: while let Some((word, after)) = next_word(rest) {
        let Some(number) = number_in_text(word.as_bytes()) else {
            return Ok(None);
        };
        numbers.push(number)?;
        rest = after;
    }
    Ok(Some(Words::from_vec(numbers)))
}

/// Whether an operation has these numbers.
fn takes(verb: Verb, numbers: &[u32]) -> bool
    ensures { result ≡ spec.takes verb numbers.now }
{
    match verb {
        Verb::Read => numbers.is_empty(),
        Verb::Write | Verb::RmwSum => numbers.len() == 1,
        Verb::ReadBlock => numbers.len() == 1 && numbers[0] >= 1,
        Verb::WriteBlock => !numbers.is_empty(),
        Verb::RmwBits => numbers.len() == 2,
    }
}

/// The names of a board and of a register, which a colon parts.
fn names_in(place: &str) -> Option<(&str, &str)>
    ensures { option_map (λ names. (names.0.now, names.1.now)) result ≡ cut_at 58 place.now }
{
    place.split_once(':')
}

/// What a line asks for, past the word for its operation.
fn call<'a>(alloc: Global, verb: Verb, text: &'a str) -> Result<Option<Command<'a>>, NoMemory>
    ensures { IfOk result (λ command. command ≡ spec.call_of verb (spec.words text.now)) }
{
    let Some((place, rest)) = next_word(text) else {
        return Ok(None);
    };
    let Some((board, name)) = names_in(place) else {
        return Ok(None);
    };
    let Some(numbers) = numbers_in(alloc, rest)? else {
        return Ok(None);
    };
    if !takes(verb, numbers.as_slice()) {
        return Ok(None);
    }
    Ok(Some(Command::Ask(Call {
        verb,
        board: Name::of(board),
        name: Name::of(name),
        numbers,
    })))
}

/// A line that is `dispatch` and no more.
fn dispatch(rest: &str) -> Option<Command<'_>>
    ensures { result ≡ spec.dispatch_of (spec.words rest.now) }
{
    match next_word(rest) {
        None => Some(Command::Dispatch),
        Some(_) => None,
    }
}

/// What a line says, or nothing where it is no line of a script.
pub(crate) fn command<'a>(alloc: Global, line: &'a str) -> Result<Option<Command<'a>>, NoMemory>
    ensures { IfOk result (λ command. command ≡ spec.command_of (spec.words line.now)) }
{
    let Some((word, rest)) = next_word(line) else {
        return Ok(Some(Command::Nothing));
    };
    if is_comment(word.as_bytes()) {
        return Ok(Some(Command::Nothing));
    }
    if word == "dispatch" {
        return Ok(dispatch(rest));
    }
    match verb_named(word) {
        Some(verb) => call(alloc, verb, rest),
        None => Ok(None),
    }
}
