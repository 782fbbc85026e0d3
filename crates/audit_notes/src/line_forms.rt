//! What of a line cannot be that of an operation.

use crate::belonging::{Asked, board_line};
use crate::judged::Judged;
use crate::piece_counts::piece_count;
use crate::shown_lines::{line_at, places_of, shown_text};
use ipb_base::NoMemory;
use note_lines::{Notes, OneLine};
use script_steps::Verb;
use session_notes::words_read;
use std::alloc::Global;
use std::fmt;

/// So many of a thing.
#[derive(Clone, Copy)]
struct Count(usize, &'static str);

impl fmt::Display for Count {
    fn fmt<W: fmt::Write>(&self, f: &mut fmt::Formatter<W>) -> fmt::Result {
        let Count(count, thing) = *self;
        match count {
            1 => write!(f, "1 {thing}"),
            _ => write!(f, "{count} {thing}s"),
        }
    }
}

/// Says that the line of an operation belongs there, and what of the line that is there cannot be.
pub(crate) fn say_operation(
    notes: &mut Notes,
    judged: Judged<'_>,
    asked: Asked<'_>,
    shown: Option<&[u8]>,
) {
    let board = OneLine(judged.board_name(asked.op.board as usize));
    let name = OneLine(asked.op.name.as_str());
    let number = asked.number;
    let client = asked.client.saturating_add(1);
    notes.say(format_args!(
        "here belongs operation {number} of client {client}, on {board}:{name}, with a result and places that it can have beside the line of its board"
    ));
    if let Some(bytes) = shown {
        say_unfit(notes, judged, asked, shown_text(bytes));
    }
}

/// Says what of a line cannot be.
fn say_unfit(notes: &mut Notes, judged: Judged<'_>, asked: Asked<'_>, line: &str) {
    let Some(front) = notes.made(front_of(notes.alloc, judged, asked)) else {
        return;
    };
    match line.strip_prefix(front.as_str()) {
        Some(rest) => say_unfit_end(notes, judged, asked, rest),
        None => {
            let front = OneLine(front.as_str().trim_end());
            notes.say(format_args!("its line begins with: {front}"))
        }
    }
}

/// What the line of an operation begins with, in front of its result.
fn front_of(alloc: Global, judged: Judged<'_>, asked: Asked<'_>) -> Result<String, NoMemory> {
    let verb = verb_text(asked.op.verb);
    let board = judged.board_name(asked.op.board as usize);
    let name = asked.op.name.as_str();
    let number = asked.number;
    Ok(format!(in alloc; "{number} {verb} {board}:{name} ")?)
}

fn verb_text(verb: Verb) -> &'static str {
    match verb {
        Verb::Read => "read",
        Verb::Write => "write",
        Verb::ReadBlock => "readblock",
        Verb::WriteBlock => "writeblock",
        Verb::RmwBits => "rmwbits",
        Verb::RmwSum => "rmwsum",
    }
}

/// Says what of the result and the places of a line cannot be.
fn say_unfit_end(notes: &mut Notes, judged: Judged<'_>, asked: Asked<'_>, rest: &str) {
    if let Some(rule) = asked.denied {
        return notes.say(format_args!(
            "the policy denies it: its line shows denied by rule {rule}, and no place"
        ));
    }
    if rest.starts_with("denied by rule ") {
        return notes.say("the policy of this session does not deny it");
    }
    match told_of_board(judged, asked.op.board as usize) {
        "silent" => notes.say("its board is silent: its line shows unsent, and no place"),
        "down" => notes.say("its board is down: its line shows link lost, and no place"),
        _ => say_unfit_live(notes, judged, asked, rest),
    }
}

/// The last word of the line of a board.
fn told_of_board(judged: Judged<'_>, position: usize) -> &str {
    let Some(line) = line_at(judged.transcript, board_line(judged, position)) else {
        return "";
    };
    match shown_text(line).rsplit_once(' ') {
        Some((_front, word)) => word,
        None => "",
    }
}

fn say_unfit_live(notes: &mut Notes, judged: Judged<'_>, asked: Asked<'_>, rest: &str) {
    let told = match rest.rsplit_once(" @") {
        Some((told, _places)) => told,
        None => rest,
    };
    if rest.contains("  ") {
        return notes.say("two spaces stand side by side in it, and one belongs there");
    }
    if told.contains(" @") {
        return notes.say("it shows places twice: they stand once, at its end, with commas between");
    }
    say_unfit_words(notes, asked, told);
    let pieces = piece_count(judged, asked.op);
    say_unfit_places(notes, told, places_of(rest), pieces);
}

/// Says where a result is that of another verb, or has another number of words than the operation reads.
fn say_unfit_words(notes: &mut Notes, asked: Asked<'_>, told: &str) {
    let verb = verb_text(asked.op.verb);
    let first = told.split(' ').next().unwrap_or("");
    if is_of_other_verb(asked.op.verb, first) {
        return notes.say(format_args!("\"{first}\" is no result of {verb}"));
    }
    let wanted = words_read(&asked.op.op);
    let words = told.split(' ').count().saturating_sub(1);
    if first == "=" && words != wanted {
        let words = Count(words, "word");
        return notes.say(format_args!("it shows {words}, and the operation reads {wanted}"));
    }
    if matches!(first, "=" | "was")
        && let Some(word) = told.split(' ').skip(1).find(|word| !is_word(word))
    {
        let word = OneLine(word);
        notes.say(format_args!("{word} is no word: it has 0x and eight digits 0 to 9 or a to f"));
    }
}

/// Whether a text is a word of 32 bits, as lines show it.
fn is_word(text: &str) -> bool {
    match text.strip_prefix("0x") {
        Some(digits) => digits.len() == 8 && digits.bytes().all(is_digit),
        None => false,
    }
}

fn is_digit(byte: u8) -> bool {
    matches!(byte, b'0'..=b'9' | b'a'..=b'f')
}

/// Whether a text is written as a place.
fn is_place(text: &str) -> bool {
    match text.split_once('.') {
        Some((place, number)) => is_number(place) && is_number(number),
        None => false,
    }
}

fn is_number(text: &str) -> bool {
    !text.is_empty() && text.bytes().all(|byte| byte.is_ascii_digit())
}

/// Whether a word begins a result in time, and none of this verb.
fn is_of_other_verb(verb: Verb, first: &str) -> bool {
    let own = match verb {
        Verb::Read | Verb::ReadBlock => "=",
        Verb::Write | Verb::WriteBlock => "done",
        Verb::RmwBits | Verb::RmwSum => "was",
    };
    matches!(first, "=" | "done" | "was") && first != own
}

/// Says where a line shows more places than the operation has pieces, or none where it has to show one.
fn say_unfit_places(notes: &mut Notes, told: &str, places: Option<&str>, pieces: usize) {
    let count = match places {
        Some(places) => places.split(',').count(),
        None => 0,
    };
    if let Some(places) = places
        && let Some(place) = places.split(',').find(|place| !is_place(place))
    {
        let place = OneLine(place);
        return notes.say(format_args!(
            "\"{place}\" is no place: one has two numbers with a dot between, as 12.1"
        ));
    }
    let is_without = told == "unsent" || told == "link lost";
    if count > pieces {
        let pieces = Count(pieces, "piece");
        notes.say(format_args!("it shows {count} places, and the operation has {pieces}"));
    } else if count == 0 && !is_without {
        notes.say("it shows no place, as only unsent and link lost may");
    } else if count == pieces && told == "unsent" {
        notes.say("it is unsent, and shows the places of all its pieces");
    }
}
