//! Reading a decimal number at the front of a text.

ghost use Rattle.std.specs.Prelude.{◌≡◌, ◌<◌};
ghost use Rattle.ipb_base.specs.Fronts.{Finds};
ghost use Rattle.capture_reader.specs.Reading.{digit_at, with_digit, number_at};

/// The value of the decimal digit at the front.
#[tactic(auto, unfolding(crate::specs::Reading::digit_at))]
fn first_digit(text: &[u8]) -> Option<(u8, &[u8])>
    ensures { Finds (λ read. (read.0, read.1.now)) result (digit_at text.now) }
{
    let [byte, rest @ ..] = text else {
        return None;
    };
    match *byte {
        b'0'..=b'9' => Some((*byte - b'0', rest)),
        _ => None,
    }
}

/// A number with one digit more, if it has 32 bits.
fn with_digit(value: u32, digit: u8) -> Option<u32>
    ensures { result ≡ with_digit value digit }
{
    u32::try_from(10 * u64::from(value) + u64::from(digit)).ok()
}

/// The number of the digits at the front, up to a byte that is none. No digits are 0.
pub(crate) fn read_number(text: &[u8]) -> Option<(u32, &[u8])>
    ensures { Finds (λ read. (read.0, read.1.now)) result (number_at text.now) }
{
    let mut value = 0;
    let mut rest = text;
    'digits: while let Some((digit, more)) = first_digit(rest) {
        value = with_digit(value, digit)?;
        rest = more;
    }
    Some((value, rest))
}
