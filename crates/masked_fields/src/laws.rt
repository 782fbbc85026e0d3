//! Laws of the definitions. These functions do nothing when they run: their clauses are what is proved.

ghost use Rattle.std.specs.Prelude.{◌≡◌, ◌↔◌, ℕ, ◌<◌, ◌^◌, bit_and};
ghost use Rattle.std.specs.Int.{w32, bit_not};
ghost use Rattle.masked_fields.specs.Field.{IsShift, shift, field, shifted_value, FitsMask, put_field};

/// Each mask has one shift.
pub fn a_mask_has_one_shift()
    ensures { (mask z : ℕ) → 0 < mask → mask < 2 ^ 32 → IsShift mask z → z ≡ shift mask }
{}

/// A value that is put into a field is read from it again, and the bits outside the mask stay as they were.
pub fn a_field_gives_back_what_was_put()
    ensures inside { (word mask value : ℕ) → 0 < mask → mask < 2 ^ 32 → word < 2 ^ 32
        → FitsMask mask value → field (put_field word mask value) mask ≡ value }
    ensures outside { (word mask value : ℕ) → 0 < mask → mask < 2 ^ 32 → word < 2 ^ 32
        → FitsMask mask value
        → bit_and (put_field word mask value) (bit_not w32 mask) ≡ bit_and word (bit_not w32 mask) }
    ensures word { (word mask value : ℕ) → 0 < mask → mask < 2 ^ 32 → word < 2 ^ 32
        → FitsMask mask value → put_field word mask value < 2 ^ 32 }
{}

/// The field of a word fits its mask, and to put it back changes nothing.
pub fn a_field_put_back_changes_nothing()
    ensures fits { (word mask : ℕ) → 0 < mask → mask < 2 ^ 32 → FitsMask mask (field word mask) }
    ensures same { (word mask : ℕ) → 0 < mask → mask < 2 ^ 32 → word < 2 ^ 32
        → put_field word mask (field word mask) ≡ word }
{}

/// The values that fit a mask are the fields of words.
pub fn what_fits_is_a_field()
    ensures { (mask value : ℕ) → 0 < mask → mask < 2 ^ 32 →
        (FitsMask mask value ↔ ((word : ℕ) × (word < 2 ^ 32) × (field word mask ≡ value))) }
{}

/// The AND term and the OR term of a value that fits share no bit.
pub fn the_terms_share_no_bit()
    ensures { (mask value : ℕ) → mask < 2 ^ 32 → FitsMask mask value →
        bit_and (bit_not w32 mask) (shifted_value mask value) ≡ 0 }
{}

/// Under the mask of all 32 bits the field is the whole word.
pub fn the_full_mask_is_the_word()
    ensures shift { shift 0xffff_ffff ≡ 0 }
    ensures field { (word : ℕ) → word < 2 ^ 32 → field word 0xffff_ffff ≡ word }
    ensures put { (word value : ℕ) → word < 2 ^ 32 → value < 2 ^ 32
        → put_field word 0xffff_ffff value ≡ value }
{}

/// Fields of 8 bits, of one bit, and under a mask with a gap.
pub fn examples_of_fields()
    ensures byte { field 0x12345678 0xff00 ≡ 0x56 }
    ensures byte_put { put_field 0x12345678 0xff00 0xab ≡ 0x1234ab78 }
    ensures bit { field 0x8000_0000 0x8000_0000 ≡ 1 }
    ensures gap { field 0xffff_ffff 0x00f0_0f00 ≡ 0xf00f }
    ensures in_the_gap { ¬ FitsMask 0x00f0_0f00 0x0010 }
    ensures past_bit_31 { ¬ FitsMask 0xff00_0000 0x100 }
{}
