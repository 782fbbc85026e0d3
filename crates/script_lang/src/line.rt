//! The words of a line.

ghost use Rattle.std.specs.Prelude.{◌≡◌, ◌∷◌, ◌<◌, ◌≤◌, [], not, false, length, MatchOption, IfSome};
ghost use Rattle.std.specs.List.{prefix_len};
ghost use Rattle.script_lang.specs.Lines as spec;

/// How many blanks stand at the front.
fn blank_len(text: &[u8]) -> usize
    ensures { result ≡ prefix_len spec.is_blank text.now }
{
    for i in 0..text.len() {
        if !is_blank(text[i]) {
            return i;
        }
    }
    text.len()
}

/// How many bytes stand before the first blank.
fn word_len(text: &[u8]) -> usize
    ensures { result ≡ prefix_len (λ byte. not (spec.is_blank byte)) text.now }
{
    for i in 0..text.len() {
        if is_blank(text[i]) {
            return i;
        }
    }
    text.len()
}

fn is_blank(byte: u8) -> bool
    ensures { result ≡ spec.is_blank byte }
{
    byte == b' ' || byte == b'\t'
}

/// The text without the blanks at its front.
fn trimmed(text: &str) -> &str
    ensures same { spec.words result.now ≡ spec.words text.now }
    ensures begun { spec.starts_blank result.now ≡ false }
    ensures shorter { length result.now ≤ length text.now }
{
    let (_blanks, rest) = text.split_at(blank_len(text.as_bytes()));
    rest
}

/// The first word of a text, and what follows it.
pub(crate) fn next_word(text: &str) -> Option<(&str, &str)>
    ensures words { MatchOption result (spec.words text.now ≡ [])
        (λ parts. spec.words text.now ≡ parts.0.now ∷ spec.words parts.1.now) }
    ensures shorter { IfSome result (λ parts. length parts.1.now < length text.now) }
{
    let text = trimmed(text);
    if text.is_empty() {
        return None;
    }
    Some(text.split_at(word_len(text.as_bytes())))
}
