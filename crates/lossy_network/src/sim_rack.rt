//! A rack of simulated links.

ghost use Rattle.std.specs.Prelude.{◌≡◌, ◌↔◌, ◌≤◌, ◌<◌, ◌^◌, [], length, true, false, Some, Err, IfOk, OnErr, IfSome, IfNone, List, is_none};
ghost use Rattle.std.specs.List.{slice_get};
ghost use Rattle.ipb_base.specs.Faults.{one_more};
ghost use Rattle.board_specs.specs.declared.spec.LinkSpec.{LinkSpec as Spec};
ghost use Rattle.links.specs.declared.rack.RackFault.TheVariants.{Failed};
ghost use Rattle.links.specs.Racks.{fresh_board, IsMakeable, IsSimulable, made_after};
ghost use Rattle.lossy_network.specs.Racks.{after_keep, after_make, fails_to_make, is_named, link_for, new_rack};

use crate::link::{SimLink, fits};
use crate::room::make_room;
use board_bus::{Bus, BusRefusal};
use board_node::{Board, Id};
use board_specs::{BoardSpec, Fates, LinkSpec, Ranges};
use ipb_base::{NoMemory, Text};
use links::{Rack, RackFault, SpecLog};
use std::alloc::Global;
use std::marker::Model;

/// A rack of simulated links, for tests and for sessions that need no network. Contracts see it as a `RackState`.
#[derive(Drop)]
pub struct SimRack {
    alloc: Global,
    fail_makes: Vec<u64>,
    fail_calls: Vec<u64>,
    kept: Vec<SimLink>,
    makes: u64,
    made: SpecLog,
    faults: u64,
}

impl Model for SimRack {
    ghost use Rattle.lossy_network.specs.Racks.{RackState};

    ghost Value = { RackState };

    ghost use Rattle.lossy_network.specs.Inside.{rack_of, IsRack};

    ghost view = { rack_of };

    ghost invariant = { IsRack };
}

impl SimRack {
    /// A rack that has made no link. The makes whose numbers, from 1, are in `fail_makes` fail, and on each link the
    /// calls whose numbers are in `fail_calls`.
    pub fn new(alloc: Global, fail_makes: Vec<u64>, fail_calls: Vec<u64>) -> SimRack
        ensures { result ≡ new_rack fail_makes.items fail_calls.items }
    {
        SimRack {
            alloc,
            fail_makes,
            fail_calls,
            kept: Vec::new(alloc),
            makes: 0,
            made: SpecLog::new(alloc),
            faults: 0,
        }
    }

    /// The link that was given back as the i-th, from 0.
    pub fn kept(&self, i: usize) -> Option<&SimLink>
        ensures some { IfSome result (λ link. slice_get self.now.kept i ≡ Some link.now) }
        ensures none { IfNone result (length self.now.kept ≤ i) }
    {
        self.kept.get(i)
    }

    /// How many links were made.
    pub fn made(&self) -> usize
        ensures { result ≡ length self.now.made }
    {
        self.made.count()
    }

    /// No more links are kept than were made, and the count of faults is one of 64 bits. It does nothing when it runs.
    pub fn counts_fit(&self)
        ensures within { length self.now.kept ≤ length self.now.made }
        ensures faults { self.now.faults < 2 ^ 64 }
    {
        fits(self.faults);
        let _kept = &self.kept;
    }

    /// Makes a link for a simulated board. `Failed` where this make's number was named, and for a board on a network:
    /// the rack counts it. It takes the room that keeping the link needs.
    pub fn make(&mut self, spec: &BoardSpec) -> Result<SimLink, RackFault>
        requires { IsMakeable spec.now.link }
        ensures made { IfOk result (λ link.
            link_for (length self.old.made) self.old.fail_calls spec.now.link ≡ Some link) }
        ensures fails { (result ≡ Err Failed) ↔ (fails_to_make self.old spec.now.link ≡ true) }
        ensures rack { self.new ≡ after_make result spec.now.link self.old }
    {
        let is_named = self.is_next_named();
        self.makes = self.makes.saturating_add(1);
        if is_named {
            return Err(self.count_fault());
        }
        match link_for(self.alloc, &spec.link, &self.fail_calls, self.made.count())? {
            Some(link) => Ok(made_link(self.put_down(&spec.link), link)?),
            None => Err(self.count_fault()),
        }
    }

    /// Takes a link back, behind those that were kept before. It takes no memory.
    pub fn keep(&mut self, link: SimLink)
        requires { length self.old.kept < length self.old.made }
        ensures { self.new ≡ after_keep link self.old }
    {
        self.kept.push_reserved(link);
    }
}

impl SimRack {
    /// Whether the number of the next make is one of those that fail.
    fn is_next_named(&self) -> bool
        ensures { result ≡ is_named self.now }
    {
        self.fail_makes.contains(&self.makes.saturating_add(1))
    }

    /// Takes the room that keeping one more link needs, and puts down the spec that it was made of.
    fn put_down(&mut self, spec: &LinkSpec) -> Result<(), NoMemory>
        ensures { self.new ≡ record self.old { made = made_after result spec.now self.old.made } }
    {
        make_room(&mut self.kept, self.made.count())?;
        self.made.add(spec)
    }

    /// Counts one fault of the rack, and answers it.
    fn count_fault(&mut self) -> RackFault
        ensures fault { result ≡ Failed }
        ensures counted { self.new ≡ record self.old { faults = one_more self.old.faults } }
    {
        self.faults = self.faults.saturating_add(1);
        RackFault::Failed
    }
}

impl Rack for SimRack {
    type L = SimLink;

    ghost kept = { λ rack. rack.kept };

    ghost made = { λ rack. rack.made };

    ghost faults = { λ rack. rack.faults };

    fn make(&mut self, spec: &BoardSpec) -> Result<SimLink, RackFault> {
        self.counts_fit();
        SimRack::make(self, spec)
    }

    fn keep(&mut self, link: SimLink) {
        SimRack::keep(self, link)
    }
}

/// The link that was made, where its spec was put down.
fn made_link(put_down: Result<(), NoMemory>, link: SimLink) -> Result<SimLink, NoMemory>
    ensures same { IfOk result (λ given. given ≡ link) }
    ensures made { (spec : Spec) (made : List Spec) → made_after result spec made ≡ made_after put_down spec made }
{
    put_down.map(|()| link)
}

/// The link for a simulated board, made after so many others, on which the calls with these numbers fail. There is none
/// for a board on a network.
fn link_for(
    alloc: Global,
    spec: &LinkSpec,
    fail: &[u64],
    others: usize,
) -> Result<Option<SimLink>, NoMemory>
    requires { IsMakeable spec.now }
    ensures link { IfOk result (λ link. link ≡ link_for others fail.now spec.now) }
    ensures simulated { OnErr result (is_none (link_for others fail.now spec.now) ≡ false) }
{
    let LinkSpec::Sim {
        mtu,
        buffers,
        first,
        ranges,
        fates,
    } = spec
    else {
        return Ok(None);
    };
    let fates = copy_fates(alloc, fates)?;
    let fail = Vec::from_slice(alloc, fail)?;
    let board = fresh_board(alloc, *mtu, *buffers, *first, ranges)?;
    let mut link = SimLink::new(alloc, board, fates, fail)?;
    link.set_number(others);
    Ok(Some(link))
}

/// A board that opens with these ranges and has executed nothing.
fn fresh_board(
    alloc: Global,
    mtu: u32,
    buffers: u32,
    first: Id,
    ranges: &Ranges,
) -> Result<Board, NoMemory>
    requires { IsSimulable mtu buffers ranges.now }
    ensures { IfOk result (λ board. board ≡ fresh_board mtu buffers first ranges.now) }
{
    match Bus::new(alloc, ranges.as_slice()) {
        Ok(bus) => Board::new(alloc, bus, mtu, buffers, first),
        Err(BusRefusal::NoMemory) => Err(NoMemory),
        Err(_) => unreachable!(),
    }
}

/// A copy of some fates, which shares no memory with them.
fn copy_fates(alloc: Global, fates: &Fates) -> Result<Fates, NoMemory>
    ensures { IfOk result (λ copied. copied ≡ fates.now) }
{
    match fates {
        Fates::Text(text) => Ok(Fates::Text(Text::copy_of(alloc, text.as_str())?)),
        Fates::Noise(noise) => Ok(Fates::Noise(*noise)),
    }
}
