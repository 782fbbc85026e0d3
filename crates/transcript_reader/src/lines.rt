//! The lines of a text, one after another.

ghost use Rattle.std.specs.Prelude.{◌≡◌, ◌≢◌, ℕ, ◌<◌, [], ◌∷◌, drop, length, slice_index, MatchOption};
ghost use Rattle.transcript_reader.specs.Entries.{lines_of};
ghost use Rattle.transcript_reader.specs.Walks.{IsFirstFeed};

use memchr::memchr;

/// Where the first line feed of a text stands.
fn first_feed(text: &[u8]) -> Option<usize>
    ensures { MatchOption result ((k : ℕ) → k < length text.now → slice_index text.now k ≢ 10) (IsFirstFeed text.now) }
{
    memchr(b'\n', text)
}

/// The first line of a text, and the text behind it.
pub(crate) fn first_line(text: &[u8]) -> Option<(&[u8], &[u8])>
    ensures { MatchOption result (lines_of text.now ≡ []) (λ cut. lines_of text.now ≡ cut.0.now ∷ lines_of cut.1.now) }
{
    if text.is_empty() {
        return None;
    }
    match first_feed(text) {
        Some(end) => Some((&text[..end + 1], &text[end + 1..])),
        None => Some((text, &[])),
    }
}

/// The text behind the first line.
fn behind_line(text: &[u8]) -> &[u8]
    ensures { lines_of result.now ≡ drop 1 (lines_of text.now) }
{
    match first_line(text) {
        Some((_line, rest)) => rest,
        None => text,
    }
}

/// The text behind so many lines.
pub(crate) fn skip_lines(text: &[u8], count: usize) -> &[u8]
    ensures { lines_of result.now ≡ drop count (lines_of text.now) }
{
    let mut rest = text;
    for _i in 0..count {
        rest = behind_line(rest);
    }
    rest
}
