//! What a greeting of a board came to, and what stands there since.

ghost use Rattle.std.specs.Prelude.{◌≡◌, ◌↔◌, ℕ, ◌+◌, ◌≤◌, ◌^◌, IfOk, IfErr, IfSome, IsTrue, None, length};
ghost use Rattle.hub_lane.specs.Greeting.{CanBegin, IsUnused, StaysFresh};
ghost use Rattle.links.specs.Telling.{IfTelling};
ghost use Rattle.board_berth.specs.Greetings.{IsNew, IsOver, IsSameGreeting, KeepsAllIn, came_to, has_stopped_in};
ghost use Rattle.board_berth.specs.Greetings.{link_in, number_in, payload_in};
ghost use Rattle.board_berth.specs.Records.{entries_from, stretch_of};

use crate::answers::Begun;
use hub_lane::{Greeted, Lane, Link, Waiter};
use std::alloc::Global;
use world_model::Settings;

/// What a greeting of a board came to, and what stands there since (profile).
#[derive(Drop)]
pub enum Greeting<L: Link> {
    /// The board told its status: the client that began the greeting, 0 for the first one, and the lane.
    Answered { by: u32, lane: Lane<L> },
    /// The board told no status in any round: its link.
    Silent { link: L },
    /// The link failed before the board told its status: that link.
    Down { link: L },
}

/// Greets the board of an unused link for a client. Where memory ran out the link is given back.
pub(crate) fn greet_for<L: Link>(
    alloc: Global,
    link: L,
    settings: Settings,
    client: u32,
) -> Result<Greeting<L>, L>
    requires unused { IsUnused L.Link link }
    requires begins { IfSome (L.telling link) (CanBegin settings) }
    ensures new { IfOk result (IsNew L.Link settings (L.number link) client) }
    ensures fresh { IfOk result (λ greeting.
        IfTelling (L.telling link) (L.telling (link_in greeting)) (StaysFresh settings)) }
    ensures given_back { IfErr result (λ back. L.number back ≡ L.number link) }
{
    match Lane::greet(alloc, link, settings) {
        Greeted::Ready(lane) => Ok(Greeting::Answered { by: client, lane }),
        Greeted::Silent { link, rounds: _ } => Ok(Greeting::Silent { link }),
        Greeted::Down { link } => Ok(Greeting::Down { link }),
        Greeted::NoMemory { link } => Err(link),
    }
}

impl<L: Link> Greeting<L> {
    /// All that a lane keeps, where the board answered. It does nothing when it runs.
    pub(crate) fn keeps_all(&self)
        ensures { KeepsAllIn L.Link self.now }
    {
        if let Greeting::Answered { by: _, lane } = self {
            lane.has_number();
            lane.is_sound();
            lane.has_paid();
            lane.has_heard();
            lane.has_listened();
            lane.has_run();
        }
    }

    /// What it came to.
    pub(crate) fn came_to(&self) -> Begun
        ensures { result ≡ came_to self.now }
    {
        match self {
            Greeting::Answered { by: _, lane: _ } => Begun::Answered,
            Greeting::Silent { link: _ } => Begun::Silent,
            Greeting::Down { link: _ } => Begun::Down,
        }
    }

    /// The words of the longest packet of a board that answered, its header included.
    pub(crate) fn payload(&self) -> Option<u32>
        ensures { result ≡ payload_in self.now }
    {
        match self {
            Greeting::Answered { by: _, lane } => Some(lane.payload()),
            Greeting::Silent { link: _ } => None,
            Greeting::Down { link: _ } => None,
        }
    }

    /// Whether nothing is sent or received any more.
    pub(crate) fn is_stopped(&self) -> bool
        ensures { result ≡ has_stopped_in self.now }
    {
        match self {
            Greeting::Answered { by: _, lane } => lane.is_stopped(),
            Greeting::Silent { link: _ } => true,
            Greeting::Down { link: _ } => true,
        }
    }

    /// Whether nothing of it is open: each body that was planned was asked, and what became of it taken.
    pub(crate) fn is_over(&self) -> bool
        ensures { IsTrue result ↔ IsOver self.now }
    {
        match self {
            Greeting::Answered { by: _, lane } => lane.is_all_taken(),
            Greeting::Silent { link: _ } => true,
            Greeting::Down { link: _ } => true,
        }
    }

    /// How many entries the record of a berth has for it.
    pub(crate) fn count(&self) -> u64
        ensures count { (before : ℕ) → result ≡ length (entries_from before (stretch_of L.telling self.now)) }
        ensures few { result ≤ 2 ^ 63 }
    {
        match self {
            Greeting::Answered { by: _, lane } => lane.entries().len() as u64 + 1,
            Greeting::Silent { link: _ } => 0,
            Greeting::Down { link: _ } => 0,
        }
    }

    /// Ends the greeting, and gives its link back.
    pub(crate) fn close(self) -> L
        ensures link { result ≡ link_in self }
        ensures number { L.number result ≡ number_in L.number self }
    {
        match self {
            Greeting::Answered { by: _, lane } => lane.close(),
            Greeting::Silent { link } => link,
            Greeting::Down { link } => link,
        }
    }

    /// What waits beside the lane for the next datagram, where the board answered.
    pub(crate) fn waiter(&mut self) -> Option<Waiter>
        ensures { IsSameGreeting L.Link self.old self.new }
    {
        match self {
            Greeting::Answered { by: _, lane } => lane.waiter(),
            Greeting::Silent { link: _ } => None,
            Greeting::Down { link: _ } => None,
        }
    }

    /// Another link to the board, which does not tell.
    pub(crate) fn another_link(&mut self, alloc: Global) -> Option<L>
        ensures untold { IfSome result (λ link. L.telling link ≡ None) }
        ensures unused { IfSome result (λ link. IsUnused L.Link link) }
        ensures number { IfSome result (λ link. L.number link ≡ number_in L.number self.old) }
        ensures same { IsSameGreeting L.Link self.old self.new }
    {
        match self {
            Greeting::Answered { by: _, lane } => lane.another_link(),
            Greeting::Silent { link } => link.again(alloc),
            Greeting::Down { link } => link.again(alloc),
        }
    }
}
