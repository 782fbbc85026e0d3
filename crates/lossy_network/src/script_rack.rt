//! A rack of links whose answers are given beforehand.

ghost use Rattle.std.specs.Prelude.{◌≡◌, ◌↔◌, ◌≤◌, ◌<◌, ◌^◌, [], length, reverse, true, Err, IfOk, IfSome, IfNone, Some};
ghost use Rattle.std.specs.List.{All, slice_get};
ghost use Rattle.links.specs.declared.rack.RackFault.TheVariants.{Failed};
ghost use Rattle.lossy_network.specs.Scripts.{AreDatagrams, after_keep, after_make, is_simulated, lists_of, new_rack};
ghost use Rattle.lossy_network.specs.Scripts.{bytes_of, lists_after, new_script, next_answers, script_with_number};

use crate::link::fits;
use crate::room::make_room;
use crate::script_link::ScriptLink;
use board_specs::{BoardSpec, LinkSpec};
use links::{Rack, RackFault, SpecLog};
use std::alloc::Global;
use std::marker::Model;

/// A rack of links whose answers are given beforehand, for boards on a network that may answer anything. Contracts see
/// it as a `ScriptRackState`.
#[derive(Drop)]
pub struct ScriptRack {
    alloc: Global,
    // the last is that of the next link
    lists: Vec<Vec<Vec<u8>>>,
    kept: Vec<ScriptLink>,
    made: SpecLog,
    faults: u64,
}

impl Model for ScriptRack {
    ghost use Rattle.lossy_network.specs.Scripts.{ScriptRackState};

    ghost Value = { ScriptRackState };

    ghost use Rattle.lossy_network.specs.ScriptsInside.{scripts_of, IsScriptRack};

    ghost view = { scripts_of };

    ghost invariant = { IsScriptRack };
}

impl ScriptRack {
    /// A rack that has made no link. The links get these lists of answers in order, of at most 9000 bytes each answer,
    /// and a link behind the last list has none.
    pub fn new(alloc: Global, answers: Vec<Vec<Vec<u8>>>) -> ScriptRack
        requires { All (λ list. AreDatagrams list.items) answers.items }
        ensures { result ≡ new_rack (lists_of answers.items) }
    {
        let mut lists = answers;
        lists.reverse();
        ScriptRack {
            alloc,
            lists,
            kept: Vec::new(alloc),
            made: SpecLog::new(alloc),
            faults: 0,
        }
    }

    /// The link that was given back as the i-th, from 0.
    pub fn kept(&self, i: usize) -> Option<&ScriptLink>
        ensures some { IfSome result (λ link. slice_get self.now.kept i ≡ Some link.now) }
        ensures none { IfNone result (length self.now.kept ≤ i) }
    {
        self.kept.get(i)
    }

    /// How many links were made.
    pub fn made(&self) -> usize
        ensures { result ≡ length self.now.made }
    {
        self.made.count()
    }

    /// No more links are kept than were made, and the count of faults is one of 64 bits. It does nothing when it runs.
    pub fn counts_fit(&self)
        ensures within { length self.now.kept ≤ length self.now.made }
        ensures faults { self.now.faults < 2 ^ 64 }
    {
        fits(self.faults);
        let _kept = &self.kept;
    }

    /// Makes a link for a board on a network, with the next list of answers, or none behind the last one. `Failed` for
    /// a simulated board: the rack counts it. It takes the room that keeping the link needs, before it takes the list,
    /// so a make that fails uses up none.
    pub fn make(&mut self, spec: &BoardSpec) -> Result<ScriptLink, RackFault>
        ensures made { IfOk result (λ link.
            link ≡ script_with_number (length self.old.made) (new_script (next_answers self.old.left) [])) }
        ensures fails { (result ≡ Err Failed) ↔ (is_simulated spec.now.link ≡ true) }
        ensures rack { self.new ≡ after_make result spec.now.link self.old }
    {
        if is_for_simulation(&spec.link) {
            self.faults = self.faults.saturating_add(1);
            return Err(RackFault::Failed);
        }
        let others = self.made.count();
        make_room(&mut self.kept, others)?;
        self.made.add(&spec.link)?;
        let answers = next_list(self.alloc, &mut self.lists);
        let mut link = ScriptLink::new(answers, Vec::new(self.alloc));
        link.set_number(others);
        Ok(link)
    }

    /// Takes a link back, behind those that were kept before. It takes no memory.
    pub fn keep(&mut self, link: ScriptLink)
        requires { length self.old.kept < length self.old.made }
        ensures { self.new ≡ after_keep link self.old }
    {
        self.kept.push_reserved(link);
    }
}

impl Rack for ScriptRack {
    type L = ScriptLink;

    ghost kept = { λ rack. rack.kept };

    ghost made = { λ rack. rack.made };

    ghost faults = { λ rack. rack.faults };

    fn make(&mut self, spec: &BoardSpec) -> Result<ScriptLink, RackFault> {
        self.counts_fit();
        ScriptRack::make(self, spec)
    }

    fn keep(&mut self, link: ScriptLink) {
        ScriptRack::keep(self, link)
    }
}

/// Whether a board is a simulated one.
fn is_for_simulation(link: &LinkSpec) -> bool
    ensures { result ≡ is_simulated link.now }
{
    match link {
        LinkSpec::Sim { .. } => true,
        LinkSpec::Udp { .. } => false,
    }
}

/// Takes the last list out. An empty one where there is none.
fn next_list(alloc: Global, lists: &mut Vec<Vec<Vec<u8>>>) -> Vec<Vec<u8>>
    requires short { All (λ list. AreDatagrams list.items) lists.old.items }
    ensures taken { bytes_of result.items ≡ next_answers (lists_of (reverse lists.old.items)) }
    ensures others { lists_of (reverse lists.new.items) ≡ lists_after (lists_of (reverse lists.old.items)) }
    ensures datagrams { AreDatagrams result.items }
    ensures short { All (λ list. AreDatagrams list.items) lists.new.items }
{
    match lists.pop() {
        Some(answers) => answers,
        None => Vec::new(alloc),
    }
}
