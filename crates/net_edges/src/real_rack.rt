//! A rack whose links are simulated or go over UDP, as the session document says.

ghost use Rattle.std.specs.Prelude.{◌≡◌, ◌≤◌, [], length, IfOk, Err};
ghost use Rattle.links.specs.Racks.{IsMakeable, made_after};
ghost use Rattle.net_edges.specs.Links.{IsOnNetwork, after_make, new_link, with_number};

use crate::any_link::AnyLink;
use board_specs::{BoardSpec, LinkSpec};
use ipb_base::NoMemory;
use links::{Rack, RackFault, SpecLog};
use lossy_network::SimRack;
use std::alloc::Global;
use std::marker::Model;
use std::net::Net;
use std_edges::{Console, RackNotes};

/// A rack that makes each link as its board says: simulated, with no call that fails, or over UDP. Contracts see a
/// `RealRackState`.
#[derive(Drop)]
pub struct RealRack<R: Net + AllocGlobal + Drop> {
    rt: R,
    notes: RackNotes,
    kept: Vec<AnyLink>,
    made: SpecLog,
    faults: u64,
}

impl<R: Net + AllocGlobal + Drop> Model for RealRack<R> {
    ghost use Rattle.std.specs.Prelude.{◌≤◌, length, vec_capacity};
    ghost use Rattle.net_edges.specs.Links.{RealRackState};

    ghost Value = { RealRackState };

    ghost view = { λ rack. record { kept = rack.kept.items; made = rack.made; faults = rack.faults } };

    // The room to keep a link is taken when it is made.
    ghost invariant = { λ rack.
        (length rack.kept.items ≤ length rack.made) × (length rack.made ≤ vec_capacity rack.kept) };
}

impl<R: Net + AllocGlobal + Drop> RealRack<R> {
    /// A rack that has made no link.
    pub fn new(rt: R) -> RealRack<R>
        ensures { result ≡ record { kept = []; made = []; faults = 0 } }
    {
        RealRack::made(rt, None)
    }

    /// A rack that has made no link, and whose links over UDP say on standard error what befalls them. It holds a lock
    /// of this machine for each board over UDP, and makes no link where another process has it.
    pub fn with_notes(rt: R, console: Console) -> RealRack<R>
        ensures { result ≡ record { kept = []; made = []; faults = 0 } }
    {
        RealRack::made(rt, Some(console))
    }

    fn made(rt: R, console: Option<Console>) -> RealRack<R>
        ensures { result ≡ record { kept = []; made = []; faults = 0 } }
    {
        let alloc: Global = rt.alloc();
        RealRack {
            rt,
            notes: RackNotes::new(alloc, console),
            kept: Vec::new(alloc),
            made: SpecLog::new(alloc),
            faults: 0,
        }
    }
}

impl<R: Net + AllocGlobal + Drop> RealRack<R> {
    /// Makes a link for a board: a simulated one, with its fates and no call that fails, or one over UDP to the address
    /// and the port of the board, which waits as long as its spec says. `Failed` comes only for a board on a network,
    /// where the machine refuses the socket, where the rack made a link to that address and port before, and where
    /// another process has the lock of the board: the rack counts it. It takes the room that keeping the link needs.
    pub fn make(&mut self, spec: &BoardSpec) -> Result<AnyLink, RackFault>
        requires { IsMakeable spec.now.link }
        ensures made { IfOk result (λ link. link ≡ with_number (length self.old.made) (new_link spec.now.link)) }
        ensures failed { result ≡ Err RackFault.Failed → IsOnNetwork spec.now.link }
        ensures rack { self.new ≡ after_make result spec.now.link self.old }
        ensures later { self.old.faults ≤ self.new.faults }
        ensures within { length self.old.kept ≤ length self.old.made }
    {
        let places = self.made.count() - self.kept.len() + 1;
        if self.kept.reserve(places).is_err() {
            return Err(RackFault::NoMemory);
        }
        match numbered_link(&self.rt, spec, self.made.count(), &mut self.notes) {
            Ok(link) => Ok(put_down(&mut self.made, &spec.link, link)?),
            Err(RackFault::Failed) => {
                self.faults = self.faults.saturating_add(1);
                Err(RackFault::Failed)
            }
            Err(RackFault::NoMemory) => Err(RackFault::NoMemory),
        }
    }
}

impl<R: Net + AllocGlobal + Drop> Rack for RealRack<R> {
    type L = AnyLink;

    ghost kept = { λ rack. rack.kept };

    ghost made = { λ rack. rack.made };

    ghost faults = { λ rack. rack.faults };

    fn make(&mut self, spec: &BoardSpec) -> Result<AnyLink, RackFault> {
        RealRack::make(self, spec)
    }

    fn keep(&mut self, link: AnyLink) {
        let mut link = link;
        self.notes.given_back();
        link.finish();
        self.kept.push_reserved(link);
    }
}

// Puts down the spec that a link was made of, and gives the link back.
fn put_down(made: &mut SpecLog, spec: &LinkSpec, link: AnyLink) -> Result<AnyLink, NoMemory>
    ensures same { IfOk result (λ given. given ≡ link) }
    ensures made { made.new ≡ made_after result spec.now made.old }
{
    made.add(spec).map(|()| link)
}

// A link for a board, numbered among those of its rack, of which so many were made before.
fn numbered_link<R: Net + AllocGlobal>(
    rt: &R,
    spec: &BoardSpec,
    others: usize,
    notes: &mut RackNotes,
) -> Result<AnyLink, RackFault>
    requires { IsMakeable spec.now.link }
    ensures made { IfOk result (λ link. link ≡ with_number others (new_link spec.now.link)) }
    ensures failed { result ≡ Err RackFault.Failed → IsOnNetwork spec.now.link }
{
    match make_link(rt, spec, notes) {
        Ok(link) => Ok(link.numbered(others)),
        Err(fault) => Err(fault),
    }
}

// A link for a board: a simulated one in memory of its own, or one over UDP.
fn make_link<R: Net + AllocGlobal>(
    rt: &R,
    spec: &BoardSpec,
    notes: &mut RackNotes,
) -> Result<AnyLink, RackFault>
    requires { IsMakeable spec.now.link }
    ensures made { IfOk result (λ link. link ≡ new_link spec.now.link) }
    ensures failed { result ≡ Err RackFault.Failed → IsOnNetwork spec.now.link }
{
    let alloc: Global = rt.alloc();
    notes.add_board(alloc, spec.name.as_str());
    match &spec.link {
        LinkSpec::Sim { .. } => {
            let mut rack = SimRack::new(alloc, Vec::new(alloc), Vec::new(alloc));
            Ok(AnyLink::Sim(rack.make(spec)?))
        }
        LinkSpec::Udp {
            address,
            port,
            wait,
        } => {
            let name = spec.name.as_str();
            let link = notes.link_to(rt, name, *address, *port, *wait)?;
            Ok(AnyLink::Udp(link))
        }
    }
}
