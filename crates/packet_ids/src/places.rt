ghost use Rattle.std.specs.Prelude.{◌≡◌, ℕ, ◌+◌, ◌-◌, ◌%◌, ◌^◌, ◌<◌, ◌≤◌, Some, IfSome, IfNone};
ghost use Rattle.packet_ids.specs.Identifier.{identifier_at, IsPlaceOf};

use crate::Id;

/// How many packet identifiers there are, 1 to 0xffff (IPbus 2.0, packet identifiers).
pub const IDENTIFIERS: u64 = 0xffff;

/// The identifier of the packet at a place, where the packet at place 1 has the identifier `first`
/// (IPbus 2.0, packet identifiers: each goes up by one, and 1 follows 0xffff).
pub fn id_at(first: Id, place: u64) -> Id
    requires from_one { 1 ≤ place }
    requires up_to_end { place ≤ 2 ^ 63 }
    ensures identifier { result ≡ identifier_at first place }
{
    let steps = u64::from(first.get()) - 1 + (place - 1);
    Id::numbered((steps % IDENTIFIERS + 1) as u16)
}

/// The place with the identifier `id` among the `len` places from `low` on, or `None` where no place among them has
/// it (IPbus 2.0, packet identifiers). `len` is at most 256 (profile): in up to `IDENTIFIERS` places in a row no
/// identifier stands twice.
pub fn place_of(first: Id, low: u64, len: u64, id: Id) -> Option<u64>
    requires few { len ≤ 256 }
    requires from_one { 1 ≤ low }
    requires up_to_end { low ≤ 2 ^ 62 }
    ensures found { IfSome result (IsPlaceOf first low len id) }
    ensures none { IfNone result ((place : ℕ) → ¬ IsPlaceOf first low len id place) }
    ensures only { (place : ℕ) → IsPlaceOf first low len id place → result ≡ Some place }
{
    let ahead = steps(id_at(first, low), id);
    if ahead < len { Some(low + ahead) } else { None }
}

/// How many steps lead from one identifier up to another, past 0xffff where need be: and fewer than `IDENTIFIERS`.
fn steps(from: Id, to: Id) -> u64
    ensures few { result < IDENTIFIERS }
    ensures reached { (from + result - 1) % IDENTIFIERS + 1 ≡ to }
{
    let from = u64::from(from.get());
    let to = u64::from(to.get());
    if from <= to {
        to - from
    } else {
        to + IDENTIFIERS - from
    }
}
