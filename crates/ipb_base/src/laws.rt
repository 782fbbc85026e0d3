//! Laws of the definitions. These functions do nothing when they run: their clauses are what is proved.

ghost use Rattle.std.specs.Prelude.{◌≡◌, ◌⊎◌, ℕ, ◌+◌, ◌-◌, ◌^◌, ◌<◌, ◌≤◌, List, [], ◌∷◌, length};
ghost use Rattle.ipb_base.specs.Word.{big_endian};
ghost use Rattle.ipb_base.specs.Faults.{Rose, one_more};
ghost use Rattle.ipb_base.specs.Lists.{IsPrefix, IsProperPrefix};
ghost use Rattle.ipb_base.specs.Numbers.{
  protocol_version,
  least_mtu,
  greatest_mtu,
  payload_of,
  least_payload,
  greatest_payload,
};

use crate::VERSION;

/// The packet header of packet 1 and a word of data, byte by byte.
pub fn words_go_out_high_byte_first()
    ensures { big_endian (0x200001f0 ∷ 0xabcd ∷ []) ≡ 0x20 ∷ 0 ∷ 1 ∷ 0xf0 ∷ 0 ∷ 0 ∷ 0xab ∷ 0xcd ∷ [] }
{}

/// A count rose exactly where it is greater now or stands at its end.
pub fn rising_is_seen()
    ensures greater { (before now : ℕ) → before < now → Rose before now }
    ensures at_its_end { (before : ℕ) → Rose before (2 ^ 64 - 1) }
    ensures only { (before now : ℕ) → Rose before now → (before < now) ⊎ (2 ^ 64 - 1 ≤ now) }
{}

/// One more than a count is where it rose to at least, and the count stands still at its end.
pub fn counting_stands_still_at_the_end()
    ensures next { (count : ℕ) → count < 2 ^ 64 - 1 → one_more count ≡ count + 1 }
    ensures at_its_end { one_more (2 ^ 64 - 1) ≡ 2 ^ 64 - 1 }
{}

/// A list that is cut short is a prefix that is shorter than the whole, and no other list is.
pub fn cut_short_is_a_shorter_prefix()
    ensures prefix { (front whole : List ℕ) → IsProperPrefix front whole → IsPrefix front whole }
    ensures shorter { (front whole : List ℕ) → IsProperPrefix front whole → length front < length whole }
    ensures only { (front whole : List ℕ) → IsPrefix front whole → length front < length whole
        → IsProperPrefix front whole }
{}

/// The version of the protocol is 2.
pub fn the_version_is_two()
    ensures { VERSION ≡ protocol_version }
{}

/// The payloads of packets are those of the MTUs.
pub fn payloads_are_those_of_mtus()
    ensures least { payload_of least_mtu ≡ least_payload }
    ensures greatest { payload_of greatest_mtu ≡ greatest_payload }
    ensures rising { (less more : ℕ) → less ≤ more → payload_of less ≤ payload_of more }
{}
