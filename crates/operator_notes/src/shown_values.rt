//! Values of a document, as they are shown.

use note_lines::OneLine;
use std::fmt;
use toml::Value;

/// A value that is shown in a line: a number or a text as it is, and of others the kind alone.
#[derive(Clone, Copy)]
pub(crate) struct ShownValue<'a>(pub(crate) &'a Value);

impl fmt::Display for ShownValue<'_> {
    fn fmt<W: fmt::Write>(&self, f: &mut fmt::Formatter<W>) -> fmt::Result {
        match self.0 {
            Value::Integer(number) => write!(f, "{number}"),
            Value::String(text) => {
                let text = OneLine(text.as_str());
                write!(f, "\"{text}\"")
            }
            Value::Boolean(true) => f.write_str("true"),
            Value::Boolean(false) => f.write_str("false"),
            Value::Float(_) => f.write_str("a number with a fraction or an exponent"),
            Value::Datetime(_) => f.write_str("a date or a time"),
            Value::Array(_) => f.write_str("an array"),
            Value::Table(_) => f.write_str("a table"),
        }
    }
}
