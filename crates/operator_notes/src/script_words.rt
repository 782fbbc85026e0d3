//! The word of a script line that a refusal is about.

use ipb_base::number_in_text;
use script_lang::ScriptWhy;

/// The words that lines begin with.
const VERBS: [&str; 7] = [
    "read",
    "write",
    "readblock",
    "writeblock",
    "rmwbits",
    "rmwsum",
    "dispatch",
];

/// The word that a refusal of this line is about, where it is about one.
pub(crate) fn word_at_fault(line: &str, why: ScriptWhy) -> Option<&str> {
    match why {
        ScriptWhy::BadLine => bad_word(line),
        ScriptWhy::UnknownBoard
        | ScriptWhy::UnknownName
        | ScriptWhy::NoPermission
        | ScriptWhy::WrongMode
        | ScriptWhy::NotWhole => word(line, 1),
        ScriptWhy::BitsOutside => word(line, 2),
        ScriptWhy::PastSize => word_of_length(line),
        ScriptWhy::TooMany => None,
    }
}

/// The length of a block that is read. That of one that is written is how many words the line has.
fn word_of_length(line: &str) -> Option<&str> {
    match word(line, 0) {
        Some("readblock") => word(line, 2),
        _ => None,
    }
}

/// The word at this position, counted from 0.
fn word(line: &str, position: usize) -> Option<&str> {
    line.split_ascii_whitespace().nth(position)
}

/// The first word of a line that is right in no line, where there is one: else there are too many words or too few.
fn bad_word(line: &str) -> Option<&str> {
    for (position, word) in line.split_ascii_whitespace().enumerate() {
        if !may_stand(position, word) {
            return Some(word);
        }
    }
    None
}

/// Whether a word may stand at this position of a line.
fn may_stand(position: usize, word: &str) -> bool {
    match position {
        0 => VERBS.contains(&word),
        1 => word.split_once(':').is_some(),
        _ => number_in_text(word.as_bytes()).is_some(),
    }
}
