//! Where two long values differ.

use note_lines::Notes;

/// Says the first word of a value that is not the one that is given. The line has its number, its verb and its register
/// in front of its result; of a line that shows no value nothing is said.
pub(crate) fn say_difference(notes: &mut Notes, line: &str, given: &[u32]) {
    let mut parts = line.splitn(WORDS_IN_FRONT + 2, ' ').skip(WORDS_IN_FRONT);
    if parts.next() == Some("=")
        && let Some(value) = parts.next()
    {
        // most of a long value is mostly as it is given
        let alike = words_alike(value.as_bytes(), given);
        let rest = value.get(alike.saturating_mul(WORD_LENGTH)..).unwrap_or("");
        say_first(notes, alike, rest, given.get(alike..).unwrap_or(&[]));
    }
}

/// The number, the verb and the register stand in front of a result.
const WORDS_IN_FRONT: usize = 3;

/// The characters of a word, as lines show it, and of the space behind it.
const WORD_LENGTH: usize = 11;

/// How many words in front of a value are those that are given, each with a space behind it.
fn words_alike(value: &[u8], given: &[u32]) -> usize {
    let mut count = 0usize;
    for (shown, word) in value.chunks_exact(WORD_LENGTH).zip(given) {
        if !is_shown_as(shown, *word) {
            return count;
        }
        count = count.saturating_add(1);
    }
    count
}

/// Whether a text is that of a word and a space.
fn is_shown_as(text: &[u8], word: u32) -> bool {
    let Some(text) = text.strip_prefix(b"0x".as_slice()) else {
        return false;
    };
    let Some(digits) = text.strip_suffix(b" ".as_slice()) else {
        return false;
    };
    for (pair, byte) in digits.chunks_exact(2).zip(word.to_be_bytes()) {
        if !are_digits(pair, byte) {
            return false;
        }
    }
    true
}

const DIGITS: &[u8; 16] = b"0123456789abcdef";

/// Whether a text is that of a byte.
fn are_digits(pair: &[u8], byte: u8) -> bool {
    let [high, low] = pair else {
        return false;
    };
    is_digit(*high, byte / 16) && is_digit(*low, byte % 16)
}

fn is_digit(digit: u8, value: u8) -> bool {
    match DIGITS.get(value as usize) {
        Some(wanted) => *wanted == digit,
        None => false,
    }
}

/// Says the first word that is not the one that is given, behind so many.
fn say_first(notes: &mut Notes, before: usize, rest: &str, given: &[u32]) {
    let mut number = u32::try_from(before).unwrap_or(u32::MAX);
    let mut wanted = given.iter();
    for word in rest.split(' ') {
        let other = wanted.next();
        number = number.saturating_add(1);
        if !is_shown(word, other) {
            return say_word(notes, number, word, other);
        }
    }
}

/// Whether a text is that of a word, as lines show it.
fn is_shown(text: &str, word: Option<&u32>) -> bool {
    let (Some(digits), Some(word)) = (text.strip_prefix("0x"), word) else {
        return false;
    };
    match u32::from_str_radix(digits, 16) {
        Ok(read) => digits.len() == 8 && read == *word,
        Err(_) => false,
    }
}

/// Says a word of a value, by its number from 1, and the one that was given. The places behind a value are no such word.
fn say_word(notes: &mut Notes, number: u32, word: &str, other: Option<&u32>) {
    if word.starts_with('@') {
        return;
    }
    match other {
        Some(other) => {
            let other = *other;
            notes.say(format_args!(
                "word {number} of the value is {word}, and 0x{other:08x} is given"
            ));
        }
        None => notes.say(format_args!("word {number} of the value is {word}, and none is given")),
    }
}
