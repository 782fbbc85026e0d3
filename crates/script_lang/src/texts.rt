//! The rules of the texts of a document.

ghost use Rattle.std.specs.Prelude.{◌≡◌, ◌==◌, ◌&&◌, option_map};
ghost use Rattle.std.specs.List.{list_all};
ghost use Rattle.ipb_base.specs.Numbers.{greatest_port};
ghost use Rattle.address_table.specs.Rules.{holds_of};
ghost use Rattle.toml.specs.Data.{as_str};
ghost use Rattle.toml.specs.View.{view};
ghost use Rattle.script_lang.specs.Texts as spec;

use crate::keys::TextRule;
use crate::named::value_named;
use address_table::{is_id, number_in_text};
use board_bus::RangeKind;
use toml::Value;

const RANGE_KINDS: [(&str, RangeKind); 4] = [
    ("rw", RangeKind::Rw),
    ("ro", RangeKind::Ro),
    ("wo", RangeKind::Wo),
    ("slow", RangeKind::Slow),
];

/// Whether a value is a text that keeps a rule.
pub(crate) fn keeps_rule(rule: TextRule, value: &Value) -> bool
    ensures { result ≡ holds_of (spec.keeps rule) (as_str (view value.now)) }
{
    match value.as_str() {
        Some(text) => keeps(rule, text),
        None => false,
    }
}

/// Whether a text keeps a rule.
fn keeps(rule: TextRule, text: &str) -> bool
    ensures { result ≡ spec.keeps rule text.now }
{
    match rule {
        TextRule::Any => true,
        TextRule::Id => is_id(text.as_bytes()),
        TextRule::Link => text == "sim" || text == "udp",
        TextRule::RangeWord => range_kind_named(text).is_some(),
        TextRule::Fates => are_fates(text.as_bytes()),
        TextRule::Endpoint => endpoint(text.as_bytes()).is_some(),
    }
}

/// The kind of a range that a word names.
pub(crate) fn range_kind_named(word: &str) -> Option<RangeKind>
    ensures { result ≡ spec.range_kind_named word.now }
{
    value_named(&RANGE_KINDS, word)
}

fn are_fates(text: &[u8]) -> bool
    ensures { result ≡ list_all spec.is_fate text.now }
{
    text.iter().all(|byte| is_fate(*byte))
}

fn is_fate(byte: u8) -> bool
    ensures { result ≡ spec.is_fate byte }
{
    matches!(byte, b'd' | b'l' | b'r' | b'1'..=b'9')
}

fn is_digit(byte: u8) -> bool
    ensures { result ≡ spec.is_digit byte }
{
    matches!(byte, b'0'..=b'9')
}

fn are_digits(text: &[u8]) -> bool
    ensures { result ≡ list_all spec.is_digit text.now }
{
    text.iter().all(|byte| is_digit(*byte))
}

/// Whether a text is decimal digits without a leading zero.
fn is_decimal(text: &[u8]) -> bool
    ensures { result ≡ spec.is_decimal text.now }
{
    match text {
        [] => false,
        [first, rest @ ..] => {
            is_digit(*first) && are_digits(rest) && (*first != b'0' || rest.is_empty())
        }
    }
}

/// The number from `least` to `most` that decimal digits without a leading zero write. `None` of any other text.
pub fn decimal_between(least: u32, most: u32, text: &[u8]) -> Option<u32>
    ensures { result ≡ spec.decimal_between least most text.now }
{
    if !is_decimal(text) {
        return None;
    }
    let number = number_in_text(text)?;
    if least <= number && number <= most {
        Some(number)
    } else {
        None
    }
}

/// A number of a byte.
fn byte_in(text: &[u8]) -> Option<u8>
    ensures { result ≡ spec.decimal_between 0 255 text.now }
{
    let number = decimal_between(0, 255, text)?;
    u8::try_from(number).ok()
}

/// A port, from 1.
fn port_in(text: &[u8]) -> Option<u16>
    ensures { result ≡ spec.decimal_between 1 greatest_port text.now }
{
    let number = decimal_between(1, 65535, text)?;
    u16::try_from(number).ok()
}

/// What stands before and after the first such byte.
pub(crate) fn cut_at(cut: u8, text: &[u8]) -> Option<(&[u8], &[u8])>
    ensures { option_map (λ parts. (parts.0.now, parts.1.now)) result ≡ spec.cut_at cut text.now }
{
    for i in 0..text.len() {
        if text[i] == cut {
            return Some((&text[..i], &text[i + 1..]));
        }
    }
    None
}

/// The IPv4 address and the port of a text `A.B.C.D:PORT`.
#[tactic(auto, unfolding(crate::specs::Texts::endpoint))]
pub(crate) fn endpoint(text: &[u8]) -> Option<([u8; 4], u16)>
    ensures { result ≡ spec.endpoint text.now }
{
    let (host, port) = cut_at(b':', text)?;
    let (first, rest) = cut_at(b'.', host)?;
    let (second, rest) = cut_at(b'.', rest)?;
    let (third, fourth) = cut_at(b'.', rest)?;
    let first = byte_in(first)?;
    let second = byte_in(second)?;
    let third = byte_in(third)?;
    let fourth = byte_in(fourth)?;
    let port = port_in(port)?;
    Some(([first, second, third, fourth], port))
}
