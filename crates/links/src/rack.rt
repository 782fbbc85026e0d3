//! Racks of links: what makes them and keeps them once they are done with.

ghost use Rattle.std.specs.Prelude.{◌≡◌, ◌≤◌, ◌<◌, ◌++◌, ◌∷◌, ℕ, List, [], length, Err};
ghost use Rattle.std.specs.Prelude.{IfOk};
ghost use Rattle.ipb_outside.specs.Faults.{RisesExactlyIf};
ghost use Rattle.board_specs.specs.declared.spec.LinkSpec.{LinkSpec};
ghost use Rattle.links.specs.Racks.{IsMakeable, made_after, telling_for};

use crate::link::{Link, LinkFault};
use board_specs::BoardSpec;
use ipb_base::NoMemory;
use std::marker::Send;

/// Why no link was made.
#[derive(Clone, Copy, PartialEq, Eq)]
pub enum RackFault {
    /// The link could not be made. The rack counted it.
    Failed,
    /// Memory ran out while the link was made.
    NoMemory,
}

impl From<NoMemory> for RackFault {
    ghost use Rattle.std.specs.Prelude.{◌≡◌};
    ghost use Rattle.links.specs.declared.rack.RackFault.TheVariants.{NoMemory as no_memory};

    ghost from_gives = { λ _ fault. fault ≡ no_memory };

    fn from(_error: NoMemory) -> RackFault {
        RackFault::NoMemory
    }
}

/// What makes links to boards and keeps those that are given back (profile).
///
/// Contracts see the links kept, in order, the specs that links were made of, in order, and how often one could not be
/// made, which counts up to 2^64 - 1.
pub trait Rack {
    /// The links that it makes.
    type L: Link + Send + Drop;

    /// The links that were given back, in order.
    ghost kept: { Self → List Self.L };

    /// The specs that links were made of, in order.
    ghost made: { Self → List LinkSpec };

    /// How often a link could not be made.
    ghost faults: { Self → ℕ };

    /// Makes a link for a board, with counts of 0 and no traffic. For a simulated one its ranges are those of a bus,
    /// its MTU is 92 to 9000 bytes and it has 1 to 64 buffers; the link tells a fresh board and an empty air. One for a
    /// board on a network does not tell. What it was made of stands behind the specs of the links before, and its number
    /// is how many these are. It takes the room that keeping the link needs. No more links are ever kept than were made.
    fn make(&mut self, spec: &BoardSpec) -> Result<Self::L, RackFault>
        requires { IsMakeable spec.now.link }
        ensures told { IfOk result (λ link. Self.L.telling link ≡ telling_for spec.now.link) }
        ensures no_faults { IfOk result (λ link. Self.L.faults link ≡ 0) }
        ensures no_quiets { IfOk result (λ link. Self.L.quiets link ≡ 0) }
        ensures no_gots { IfOk result (λ link. Self.L.gots link ≡ 0) }
        ensures none_held { IfOk result (λ link. Self.L.held link ≡ 0) }
        ensures no_traffic { IfOk result (λ link. Self.L.traffic link ≡ []) }
        ensures number { IfOk result (λ link. Self.L.number link ≡ length (made self.old)) }
        ensures faults { RisesExactlyIf (result ≡ Err RackFault.Failed) (faults self.old) (faults self.new) }
        ensures kept { kept self.new ≡ kept self.old }
        ensures made { made self.new ≡ made_after result spec.now.link (made self.old) }
        ensures within { length (kept self.old) ≤ length (made self.old) };

    /// Takes a link back, behind those that were kept before. It takes no memory.
    fn keep(&mut self, link: Self::L)
        requires { length (kept self.old) < length (made self.old) }
        ensures kept { kept self.new ≡ kept self.old ++ link ∷ [] }
        ensures made { made self.new ≡ made self.old }
        ensures faults { faults self.new ≡ faults self.old };
}
