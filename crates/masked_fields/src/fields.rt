ghost use Rattle.std.specs.Prelude.{◌≡◌, ◌≢◌, ℕ, ◌*◌, ◌^◌, ◌<◌, IfOk, OnOk, OnErr, bit_and, bit_or};
ghost use Rattle.std.specs.Int.{w32, bit_not};
ghost use Rattle.masked_fields.specs.Field.{IsShift, shift, field, shifted_value, FitsMask, put_field};

use std::error::Error;
use std::fmt;

/// A value has a bit outside the mask that it is to be written under.
#[derive(Clone, Copy, Debug, PartialEq, Eq)]
pub struct BitsOutside;

impl fmt::Display for BitsOutside {
    fn fmt<W: fmt::Write>(&self, f: &mut fmt::Formatter<W>) -> fmt::Result {
        write!(f, "the value has a bit outside the mask")
    }
}

impl Error for BitsOutside {}

/// How far a field under this mask stands above bit 0 (uHAL): the greatest number `z` such that 2^z divides the mask,
/// 0 to 31.
pub fn shift_of(mask: u32) -> u32
    requires { 0 < mask }
    ensures shift { result ≡ shift mask }
    ensures greatest { IsShift mask result }
    ensures below { result < 32 }
{
    mask.trailing_zeros()
}

/// The field of a word under a mask (uHAL): the bits of the word under the mask, moved down so that the lowest bit of
/// the mask is bit 0.
pub fn extract(word: u32, mask: u32) -> u32
    requires { 0 < mask }
    ensures field { result ≡ field word mask }
{
    (word & mask) >> shift_of(mask)
}

/// The AND term and the OR term by which one RMW bits transaction puts a value into the field under a mask, and
/// leaves the other bits of the register as they are (IPbus 2.0, `X = (X AND A) OR B`).
///
/// `BitsOutside` where the value, moved up to the field, has a bit that is not in the mask.
pub fn terms(mask: u32, value: u32) -> Result<(u32, u32), BitsOutside>
    requires { 0 < mask }
    ensures and_term { IfOk result (λ terms. terms.0 ≡ bit_not w32 mask) }
    ensures or_term { IfOk result (λ terms. terms.1 ≡ shifted_value mask value) }
    ensures put { IfOk result (λ terms. (word : ℕ) → word < 2 ^ 32 →
        bit_or (bit_and word terms.0) terms.1 ≡ put_field word mask value) }

    // A value is refused exactly where it is the field of no word.
    ensures fits { OnOk result (FitsMask mask value) }
    ensures outside { OnErr result ((word : ℕ) → field word mask ≢ value) }
{
    let or_term = u64::from(value) << shift_of(mask);
    if or_term & u64::from(mask) != or_term {
        return Err(BitsOutside);
    }
    Ok((!mask, or_term as u32))
}
