//! Links of either kind.

ghost use Rattle.std.specs.Prelude.{◌≡◌};
ghost use Rattle.net_edges.specs.Links.{with_number};

use links::{Link, LinkFault, Received, Waiter};
use lossy_network::SimLink;
use std::alloc::Global;
use std_edges::UdpLink;

/// A link to a board of this process or to one on the network.
#[derive(Drop)]
pub enum AnyLink {
    /// Over a simulated network. It tells what it carries.
    Sim(SimLink),
    /// Over UDP. It does not tell what it carries.
    Udp(UdpLink),
}

impl AnyLink {
    /// The link, numbered among those that its rack made, of which so many were made before.
    pub(crate) fn numbered(self, others: usize) -> AnyLink
        ensures { result ≡ with_number others self }
    {
        match self {
            AnyLink::Sim(link) => {
                let mut link = link;
                link.set_number(others);
                AnyLink::Sim(link)
            }
            AnyLink::Udp(link) => {
                let mut link = link;
                link.set_number(others);
                AnyLink::Udp(link)
            }
        }
    }

    /// The link is given back: says what was not said yet.
    pub(crate) fn finish(&mut self)
        ensures { self.new ≡ self.old }
    {
        if let AnyLink::Udp(link) = self {
            link.finish();
        }
    }
}

impl Link for AnyLink {
    ghost use Rattle.net_edges.specs.Links.{telling_of_real, faults_of, quiets_of, gots_of, held_of, traffic_of, number_of};

    ghost telling = { telling_of_real };

    ghost faults = { faults_of };

    ghost quiets = { quiets_of };

    ghost gots = { gots_of };

    ghost held = { held_of };

    ghost traffic = { traffic_of };

    ghost number = { number_of };

    /// Sends a datagram on the link that it is.
    fn send(&mut self, bytes: &[u8]) -> Result<(), LinkFault> {
        match self {
            AnyLink::Sim(link) => Link::send(link, bytes),
            AnyLink::Udp(link) => Link::send(link, bytes),
        }
    }

    /// Receives a datagram on the link that it is.
    fn receive(&mut self, into: &mut Vec<u8>) -> Result<Received, LinkFault> {
        match self {
            AnyLink::Sim(link) => Link::receive(link, into),
            AnyLink::Udp(link) => Link::receive(link, into),
        }
    }

    /// What waits beside a link over UDP. A simulated one has nothing to wait for.
    fn waiter(&mut self, alloc: Global) -> Option<Waiter> {
        match self {
            AnyLink::Sim(_link) => None,
            AnyLink::Udp(link) => Link::waiter(link, alloc),
        }
    }

    /// Another link over UDP, where it is one. There is no other one to a board of this process.
    fn again(&mut self, alloc: Global) -> Option<AnyLink> {
        match self {
            AnyLink::Sim(_link) => None,
            AnyLink::Udp(link) => Link::again(link, alloc).map(AnyLink::Udp),
        }
    }
}
