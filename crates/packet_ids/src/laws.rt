//! Laws of the definitions. These functions do nothing when they run: their clauses are what is proved.

ghost use Rattle.std.specs.Prelude.{◌≡◌, ℕ, ◌+◌, ◌^◌, ◌≤◌};
ghost use Rattle.packet_ids.specs.Identifier.{identifier_at, following, IsIdentifier, IsPlaceOf, AreNear};
ghost use Rattle.packet_ids.specs.declared.places.TheConstants.{IDENTIFIERS};

/// The packet at place 1 has the first identifier, each next packet the following one, and 0 never comes.
pub fn identifiers_follow_each_other()
    ensures first { (first : ℕ) → IsIdentifier first → identifier_at first 1 ≡ first }
    ensures next { (first place : ℕ) → IsIdentifier first → 1 ≤ place →
        identifier_at first (place + 1) ≡ following (identifier_at first place) }
    ensures never_zero { (first place : ℕ) → IsIdentifier (identifier_at first place) }
{}

/// Among places with fewer steps between them than there are identifiers, an identifier names one place.
pub fn an_identifier_names_one_place_nearby()
    ensures { (first place other : ℕ) → IsIdentifier first → 1 ≤ place → 1 ≤ other → AreNear place other →
        identifier_at first place ≡ identifier_at first other → place ≡ other }
{}

/// There are 65535 identifiers, and after as many places they begin again.
pub fn identifiers_come_again()
    ensures number { IDENTIFIERS ≡ 0xffff }
    ensures again { (first place : ℕ) → IsIdentifier first → 1 ≤ place →
        identifier_at first (place + IDENTIFIERS) ≡ identifier_at first place }
{}

/// From the first identifier 65534 the places 1 to 5 have the identifiers 65534, 65535, 1, 2 and 3.
pub fn identifiers_pass_their_end()
    ensures last_but_one { identifier_at 65534 1 ≡ 65534 }
    ensures last { identifier_at 65534 2 ≡ 65535 }
    ensures one { identifier_at 65534 3 ≡ 1 }
    ensures three { identifier_at 65534 5 ≡ 3 }
    ensures place_of_one { IsPlaceOf 65534 1 5 1 3 }
    ensures no_place_of_four { (place : ℕ) → ¬ IsPlaceOf 65534 1 5 4 place }
    ensures at_the_end_of_places { identifier_at 65535 (2 ^ 63) ≡ 0x7fff }
{}
