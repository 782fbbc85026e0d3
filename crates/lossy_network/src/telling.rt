//! What a hub knows of a simulated link.

use crate::link::SimLink;
use links::laws::a_receive_goes_step_by_step;
use links::{Link, LinkFault, Received};

impl Link for SimLink {
    ghost use Rattle.std.specs.Prelude.{Some};
    ghost use Rattle.lossy_network.specs.Network.{telling_of};

    ghost telling = { λ link. Some (telling_of link) };

    ghost faults = { λ link. link.faults };

    ghost quiets = { λ link. link.quiets };

    ghost gots = { λ link. link.gots };

    ghost held = { λ link. link.traffic.held };

    ghost traffic = { λ link. link.passed };

    ghost number = { λ link. link.number };

    fn send(&mut self, bytes: &[u8]) -> Result<(), LinkFault> {
        self.counts_fit();
        SimLink::send(self, bytes)
    }

    fn receive(&mut self, into: &mut Vec<u8>) -> Result<Received, LinkFault> {
        a_receive_goes_step_by_step();
        self.counts_fit();
        SimLink::receive(self, into)
    }
}
