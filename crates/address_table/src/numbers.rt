ghost use Rattle.std.specs.Prelude.{◌≡◌};
ghost use Rattle.toml.specs.View.{view};
ghost use Rattle.address_table.specs.Numbers as spec;

use ipb_base::number_in_text;
use toml::Value;

/// The number of 32 bits that a value of a document is (profile): an integer from 0 to 4294967295, or a text as
/// `number_in_text` reads it. `None` for every other value.
pub fn number(value: &Value) -> Option<u32>
    ensures { result ≡ spec.number (view value.now) }
{
    match value {
        Value::Integer(n) => u32::try_from(*n).ok(),
        Value::String(text) => number_in_text(text.as_bytes()),
        _ => None,
    }
}
