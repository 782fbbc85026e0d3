//! Reading a number at the front of a text.

ghost use Rattle.std.specs.Prelude.{◌≡◌, ◌≤◌, ◌<◌};
ghost use Rattle.ipb_base.specs.Fronts.{Finds};
ghost use Rattle.transcript_reader.specs.Reading.{digit_at, with_digit, number_at};

/// The value of the digit of a base at the front.
#[tactic(auto, unfolding(crate::specs::Reading::digit_at))]
fn first_digit(base: u32, text: &[u8]) -> Option<(u32, &[u8])>
    requires some { 2 ≤ base }
    requires few { base ≤ 36 }
    ensures { Finds (λ read. (read.0, read.1.now)) result (digit_at base text.now) }
{
    let [byte, rest @ ..] = text else {
        return None;
    };
    match char::from(*byte).to_digit(base) {
        Some(digit) => Some((digit, rest)),
        None => None,
    }
}

/// A number with one digit more, if it has 64 bits.
fn with_digit(base: u32, value: u64, digit: u32) -> Option<u64>
    ensures { result ≡ with_digit base value digit }
{
    value
        .checked_mul(u64::from(base))?
        .checked_add(u64::from(digit))
}

/// The number of the digits of a base at the front, up to a byte that is none. No digits are 0.
pub(crate) fn read_number(base: u32, text: &[u8]) -> Option<(u64, &[u8])>
    requires some { 2 ≤ base }
    requires few { base ≤ 36 }
    ensures { Finds (λ read. (read.0, read.1.now)) result (number_at base text.now) }
{
    let mut value = 0;
    let mut rest = text;
    'digits: while let Some((digit, more)) = first_digit(base, rest) {
        value = with_digit(base, value, digit)?;
        rest = more;
    }
    Some((value, rest))
}
