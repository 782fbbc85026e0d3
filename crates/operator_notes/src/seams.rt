//! Where a text of values stands behind a document whose last line has no line feed.

use note_lines::Notes;

/// Says the first line in which the heading of a board's values stands behind something else, as where `cat` put the
/// values behind a document without a last line feed. The line behind it is that of a value.
pub(crate) fn say_seam(notes: &mut Notes, bytes: &[u8]) {
    let mut before: &[u8] = b"";
    let mut number = 0u64;
    for line in bytes.split(|byte| *byte == b'\n') {
        if is_seam(before) && is_value(line) {
            return notes.say_line(number, SEAM);
        }
        before = line;
        number = number.saturating_add(1);
    }
}

const SEAM: &str =
    "the values of a board begin behind something else: the text in front of them has no line feed at its end; { cat DOCUMENT; echo; cat VALUES; } puts one there";

/// Whether a line ends with the heading of a board's values, and begins otherwise.
fn is_seam(line: &[u8]) -> bool {
    let Some(at) = line.iter().rposition(|byte| *byte == b'[') else {
        return false;
    };
    let heading = line.get(at..).unwrap_or(&[]);
    at > 0 && heading.starts_with(b"[state.".as_slice()) && heading.ends_with(b"]".as_slice())
}

/// Whether a line is that of a value, or of a register without one.
fn is_value(line: &[u8]) -> bool {
    line.starts_with(b"\"".as_slice()) || line.starts_with(b"# \"".as_slice())
}
