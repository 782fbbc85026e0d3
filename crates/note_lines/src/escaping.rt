//! Names and words of others, as they are shown in a line.

use std::fmt;

/// So many characters of a text are shown, and two dots for those behind them.
pub const MOST_SHOWN: usize = 200;

/// A text that is written as it is shown in a line: each control character as its code, and no more than `MOST_SHOWN`
/// characters.
#[derive(Clone, Copy)]
pub struct OneLine<'a>(pub &'a str);

impl fmt::Display for OneLine<'_> {
    fn fmt<W: fmt::Write>(&self, f: &mut fmt::Formatter<W>) -> fmt::Result {
        for (count, character) in self.0.chars().enumerate() {
            if count == MOST_SHOWN {
                return f.write_str("..");
            }
            write_shown(f, character)?;
        }
        Ok(())
    }
}

/// Writes a character, and its code where it is a control character.
fn write_shown<W: fmt::Write>(f: &mut fmt::Formatter<W>, character: char) -> fmt::Result {
    if character.is_control() {
        return write!(f, "\\u{{{:x}}}", u32::from(character));
    }
    f.write_char(character)
}
