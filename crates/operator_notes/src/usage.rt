//! Which word is wrong where words are no command.

use crate::help::{HELP, VERSION};
use command_words::{MAX_CONNECTIONS, MAX_OPERATIONS, MAX_PORT};
use ipb_base::number_in_text;
use note_lines::{Notes, OneLine};

/// How to go on where words are no command.
const TRY: &str =
    "the session document is read from standard input; try: bin/ipbus run < examples/start/first.toml, or --help";

/// The commands that take no further word.
const ALONE: [&str; 7] = [
    "run",
    "audit",
    "record",
    "describe",
    "undescribe",
    "save",
    "apply",
];

/// A number that a command needs: what it is, and its greatest value. The least one is 1.
#[derive(Clone, Copy)]
struct Needed {
    what: &'static str,
    most: u32,
}

const PORT: Needed = Needed {
    what: "port",
    most: MAX_PORT,
};

const CONNECTIONS: Needed = Needed {
    what: "number of connections",
    most: MAX_CONNECTIONS,
};

const OPERATIONS: Needed = Needed {
    what: "number of operations",
    most: MAX_OPERATIONS,
};

/// Says of words that are no command the page of help or the version where a word asks for it, and else which word is
/// wrong, and how to go on.
pub(crate) fn say_usage(notes: &mut Notes, words: &[String]) {
    if asks_help(words) {
        notes.say_each(&HELP);
    } else if ask_version(words) {
        notes.say(VERSION);
    } else {
        say_wrong_word(notes, words);
        notes.say(TRY);
    }
}

fn asks_help(words: &[String]) -> bool {
    has_word(words, "--help") || has_word(words, "-h")
}

/// Whether words that are no command ask for the version.
pub(crate) fn ask_version(words: &[String]) -> bool {
    has_word(words, "--version") && !asks_help(words)
}

fn has_word(words: &[String], wanted: &str) -> bool {
    for word in words {
        if word.as_str() == wanted {
            return true;
        }
    }
    false
}

/// Says which word is wrong, or missing.
fn say_wrong_word(notes: &mut Notes, words: &[String]) {
    let [command, words @ ..] = words else {
        return notes.say("there is no command, or a word that is not UTF-8");
    };
    match command.as_str() {
        "check" => say_wrong_table(notes, words),
        "serve" => say_wrong_number(notes, words, &[PORT, CONNECTIONS]),
        "load" => say_wrong_number(notes, words, &[OPERATIONS]),
        command => say_wrong_command(notes, words, command),
    }
}

fn say_wrong_command(notes: &mut Notes, words: &[String], command: &str) {
    if ALONE.contains(&command) {
        return say_too_many(notes, words, command, "no further word");
    }
    let command = OneLine(command);
    notes.say(format_args!(
        "\"{command}\" is no command; run, check, serve, load, audit, record, describe, undescribe, save and apply are"
    ));
}

/// Says what a command takes, and that the first of these words is one too many.
fn say_too_many(notes: &mut Notes, words: &[String], command: &str, taken: &str) {
    let word = OneLine(word_at(words, 0).unwrap_or(""));
    notes.say(format_args!("{command} takes {taken}: \"{word}\" is one too many"));
}

/// The word at this position, if there is one.
fn word_at(words: &[String], position: usize) -> Option<&str> {
    match words.get(position) {
        Some(word) => Some(word.as_str()),
        None => None,
    }
}

fn say_wrong_table(notes: &mut Notes, words: &[String]) {
    let [table, words @ ..] = words else {
        return notes.say("check needs the name of a table");
    };
    if !table.starts_with('-') {
        return say_too_many(notes, words, "check", "the name of one table");
    }
    let table = OneLine(table.as_str());
    notes.say(format_args!("\"{table}\" begins with a hyphen, and check takes no such word"));
}

/// Says which of the numbers behind a command is wrong or missing, or that there is a word behind them.
fn say_wrong_number(notes: &mut Notes, words: &[String], needed: &[Needed]) {
    for (position, each) in needed.iter().enumerate() {
        let word = word_at(words, position);
        if !is_right(word, each.most) {
            return say_needed(notes, word, each);
        }
    }
    let words = words.get(needed.len()..).unwrap_or(&[]);
    say_too_many(notes, words, "the command", "no further word");
}

/// Whether there is a word, and it is a number from 1 to `most`, in 1 to 10 decimal digits.
fn is_right(word: Option<&str>, most: u32) -> bool {
    let Some(word) = word else {
        return false;
    };
    let number = number_in_text(word.as_bytes()).unwrap_or(0);
    !word.starts_with("0x") && 1 <= number && number <= most
}

fn say_needed(notes: &mut Notes, word: Option<&str>, needed: &Needed) {
    let what = needed.what;
    let most = needed.most;
    let Some(word) = word else {
        return notes.say(format_args!("a {what} from 1 to {most} is missing"));
    };
    let word = OneLine(word);
    notes.say(format_args!("\"{word}\" is no {what} from 1 to {most} in 1 to 10 decimal digits"));
}
