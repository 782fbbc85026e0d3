//! Numbers in texts.

ghost use Rattle.std.specs.Prelude.{◌≡◌, ◌≤◌, ◌<◌};
ghost use Rattle.ipb_base.specs.Digits as spec;

/// The number of 32 bits that a text writes (profile): behind `0x` in at most 8 hexadecimal digits, upper or lower
/// case, or in at most 10 decimal ones, one at least. Leading zeros count as digits. `None` for every other text, and
/// for a number past 4294967295.
pub fn number_in_text(text: &[u8]) -> Option<u32>
    ensures { result ≡ spec.number_in_text text.now }
{
    match text.strip_prefix(b"0x".as_slice()) {
        Some(digits) => digits_number(digits, 16, 8),
        None => digits_number(text, 10, 10),
    }
}

/// The number of 1 to `most` digits in a base up to 16.
fn digits_number(text: &[u8], base: u32, most: usize) -> Option<u32>
    requires some { 1 ≤ base }
    requires few { base ≤ 16 }
    ensures { result ≡ spec.digits_number base most text.now }
{
    if text.is_empty() || text.len() > most {
        return None;
    }
    digits_value(text, base)
}

/// What digits stand for in a base, if all of them are digits and the number has 32 bits.
fn digits_value(text: &[u8], base: u32) -> Option<u32>
    requires some { 1 ≤ base }
    requires few { base ≤ 16 }
    ensures { result ≡ spec.digits_in_base base text.now }
{
    let mut value: u32 = 0;
    for byte in text {
        let digit = digit_value(*byte);
        if digit >= base {
            return None;
        }
        value = value.checked_mul(base)?.checked_add(digit)?;
    }
    Some(value)
}

#[tactic(auto, unfolding(crate::specs::Digits::digit_value))]
fn digit_value(byte: u8) -> u32
    ensures { result ≡ spec.digit_value byte }
{
    match byte {
        b'0'..=b'9' => (byte - b'0') as u32,
        b'a'..=b'f' => (byte - b'a' + 10) as u32,
        b'A'..=b'F' => (byte - b'A' + 10) as u32,
        _ => 16,
    }
}
