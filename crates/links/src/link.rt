//! What a hub knows of a network: a link to one board.

ghost use Rattle.std.specs.Prelude.{◌≡◌, ◌≢◌, ◌≤◌, ℕ, List, [], Option, None, length, OnOk, OnErr, Err, IfSome};
ghost use Rattle.ipb_base.specs.Faults.{Rose};
ghost use Rattle.reliable_engine.specs.Traffic.{Passed};
ghost use Rattle.links.specs.Telling.{gots_after, IfTelling, IsCarried, IsSent, quiets_after, Receives, Telling};
ghost use Rattle.links.specs.Traffic.{received_after, sent_after};

use crate::waiter::Waiter;
use ipb_base::NoMemory;
use std::alloc::Global;

/// The most further first sends to the board after which a datagram may still be heard (profile).
pub const LIFETIME: u64 = 32_768;

/// The most bytes of a datagram: as many as the greatest MTU (profile).
pub const MAX_DATAGRAM: usize = 9000;

/// Why a link did not do what it was asked.
#[derive(Clone, Copy, PartialEq, Eq)]
pub enum LinkFault {
    /// The network failed. The link counted it.
    Failed,
    /// Memory ran out for the datagram.
    NoMemory,
}

impl From<NoMemory> for LinkFault {
    ghost use Rattle.std.specs.Prelude.{◌≡◌};
    ghost use Rattle.links.specs.declared.link.LinkFault.TheVariants.{NoMemory as no_memory};

    ghost from_gives = { λ _ fault. fault ≡ no_memory };

    fn from(_error: NoMemory) -> LinkFault {
        LinkFault::NoMemory
    }
}

/// What a receive came to.
#[derive(Clone, Copy, PartialEq, Eq)]
pub enum Received {
    /// A datagram is in the buffer.
    Got,
    /// None came in the time that the link waits.
    Quiet,
}

/// A link to one board (profile). It may lose datagrams, repeat them, delay them and change their order.
///
/// Contracts see four counts, none of which falls: its faults, the receives that were quiet and those that got a
/// datagram, and the datagrams that it lost, delayed or dropped for age. A count stands still at 2^64 - 1. They see its
/// traffic, and its number among the links of its rack, of which the program need not keep a byte. A link may tell what
/// it carries, as a simulated one does: then
/// contracts see its board and all datagrams ever sent too, and a fault is counted only in a call that fails. Whether it
/// tells never changes.
pub trait Link {
    /// What it tells, where it tells: its board and its air, what is still to be heard, and what was handed out. A
    /// first send is a control packet with the identifier of the place after the last first send, and places are
    /// counted from the board's first identifier.
    ghost telling: { Self → Option Telling };

    /// How often the network failed.
    ghost faults: { Self → ℕ };

    /// How many receives were quiet.
    ghost quiets: { Self → ℕ };

    /// How many receives got a datagram.
    ghost gots: { Self → ℕ };

    /// How many datagrams were lost, delayed or dropped for age.
    ghost held: { Self → ℕ };

    /// What passed over it, in the order of the calls that did not fail: each datagram that was sent or received, and
    /// each receive that was quiet.
    ghost traffic: { Self → List Passed };

    /// Which of the links of its rack it is, in the order in which they were made, counted from 0. No call changes it.
    ghost number: { Self → ℕ };

    /// Sends a datagram to the board. A refused one changes nothing that the link tells.
    fn send(&mut self, bytes: &[u8]) -> Result<(), LinkFault>
        requires { length bytes.now ≤ MAX_DATAGRAM }
        ensures sent { OnOk result (IfTelling (telling self.old) (telling self.new)
            (IsSent bytes.now (held self.old) (held self.new))) }
        ensures refused { OnErr result (telling self.new ≡ telling self.old) }
        ensures failed { result ≡ Err LinkFault.Failed → Rose (faults self.old) (faults self.new) }
        ensures unfaulted { IfSome (telling self.old) (λ _.
            result ≢ Err LinkFault.Failed → faults self.new ≡ faults self.old) }
        ensures faults { faults self.old ≤ faults self.new }
        ensures quiets { quiets self.new ≡ quiets self.old }
        ensures gots { gots self.new ≡ gots self.old }
        ensures traffic { traffic self.new ≡ sent_after result bytes.now (traffic self.old) }
        ensures number { number self.new ≡ number self.old }
        ensures held { held self.old ≤ held self.new };

    /// Waits for a datagram from the board, and puts it into `into` in place of what stood there. `into` is empty where
    /// none came.
    fn receive(&mut self, into: &mut Vec<u8>) -> Result<Received, LinkFault>
        ensures datagram { IsCarried result into.new.items }
        ensures received { IfTelling (telling self.old) (telling self.new)
            (Receives result into.new.items (held self.old) (held self.new)) }
        ensures failed { result ≡ Err LinkFault.Failed → Rose (faults self.old) (faults self.new) }
        ensures unfaulted { IfSome (telling self.old) (λ _.
            result ≢ Err LinkFault.Failed → faults self.new ≡ faults self.old) }
        ensures faults { faults self.old ≤ faults self.new }
        ensures quiets { quiets self.new ≡ quiets_after result (quiets self.old) }
        ensures quiets_rise { quiets self.old ≤ quiets self.new }
        ensures gots { gots self.new ≡ gots_after result (gots self.old) }
        ensures gots_rise { gots self.old ≤ gots self.new }
        ensures traffic { traffic self.new ≡ received_after result into.new.items (traffic self.old) }
        ensures number { number self.new ≡ number self.old }
        ensures held { held self.old ≤ held self.new };

    /// What waits for the next datagram beside the link. `None` where there is nothing to wait for, or no room for it.
    /// Nothing that contracts see of the link changes.
    fn waiter(&mut self, _alloc: Global) -> Option<Waiter>
        ensures telling { telling self.new ≡ telling self.old }
        ensures faults { faults self.new ≡ faults self.old }
        ensures quiets { quiets self.new ≡ quiets self.old }
        ensures gots { gots self.new ≡ gots self.old }
        ensures traffic { traffic self.new ≡ traffic self.old }
        ensures number { number self.new ≡ number self.old }
        ensures held { held self.new ≡ held self.old }
    {
        None
    }

    /// Another link to the same board, over which nothing passed yet: what was sent or received over this one is never
    /// heard there. It has the number of this one, and does not tell. `None` where there is none, and where the network
    /// failed or memory ran out for it. Nothing that contracts see of this link changes.
    fn again(&mut self, _alloc: Global) -> Option<Self>
        ensures untold { IfSome result (λ link. telling link ≡ None) }
        ensures unused { IfSome result (λ link. (faults link ≡ 0) × (quiets link ≡ 0) × (gots link ≡ 0)
            × (held link ≡ 0) × (traffic link ≡ [])) }
        ensures same_number { IfSome result (λ link. number link ≡ number self.old) }
        ensures telling { telling self.new ≡ telling self.old }
        ensures faults { faults self.new ≡ faults self.old }
        ensures quiets { quiets self.new ≡ quiets self.old }
        ensures gots { gots self.new ≡ gots self.old }
        ensures traffic { traffic self.new ≡ traffic self.old }
        ensures number { number self.new ≡ number self.old }
        ensures held { held self.new ≡ held self.old }
    {
        None
    }
}
