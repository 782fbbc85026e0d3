//! What passes over a link.

ghost use Rattle.std.specs.Prelude.{◌≡◌, ◌++◌, ◌∷◌, []};
ghost use Rattle.reliable_engine.specs.Traffic as passed;

use crate::ghost_list::GhostList;
use std::marker::Model;

/// What one call of a link came to.
#[derive(Drop)]
enum Call {
    /// A datagram of these bytes was sent.
    Sent(GhostList<u8>),
    /// A datagram of these bytes was received.
    Got(GhostList<u8>),
    /// The receive was quiet.
    Quiet,
}

/// What passed over a link, in order. Contracts see it. It has no copy of a datagram: where the program runs it has no
/// byte, and adding to it takes no memory.
#[derive(Drop)]
pub struct TrafficLog {
    calls: GhostList<Call>,
}

impl Model for TrafficLog {
    ghost use Rattle.std.specs.Prelude.{List, map};
    ghost use Rattle.reliable_engine.specs.Traffic.{Passed};
    ghost use Rattle.links.specs.TrafficLogs.{passed_in};

    ghost Value = { List Passed };

    ghost view = { λ log. map passed_in log.calls };
}

impl TrafficLog {
    /// A log of a link over which nothing passed.
    pub fn new() -> TrafficLog
        ensures { result ≡ [] }
    {
        TrafficLog {
            calls: GhostList::new(),
        }
    }

    /// Adds a datagram that was sent.
    pub fn add_sent(&mut self, datagram: &[u8])
        ensures { self.new ≡ self.old ++ passed.Sent datagram.now ∷ [] }
    {
        let call = Call::Sent(bytes_of(datagram));
        self.calls.add(&call);
    }

    /// Adds a datagram that was received.
    pub fn add_got(&mut self, datagram: &[u8])
        ensures { self.new ≡ self.old ++ passed.Got datagram.now ∷ [] }
    {
        let call = Call::Got(bytes_of(datagram));
        self.calls.add(&call);
    }

    /// Adds a receive that was quiet.
    pub fn add_quiet(&mut self)
        ensures { self.new ≡ self.old ++ passed.Quiet ∷ [] }
    {
        let call = Call::Quiet;
        self.calls.add(&call);
    }
}

/// The bytes of a datagram.
fn bytes_of(datagram: &[u8]) -> GhostList<u8>
    ensures { result ≡ datagram.now }
{
    let mut bytes = GhostList::new();
    for byte in datagram {
        bytes.add(byte);
    }
    bytes
}
