//! One step of a client, and one look.

ghost use Rattle.std.specs.Prelude.{◌≡◌, ◌≤◌, IfOk, IfSome, IfNone, OnErr};
ghost use Rattle.hub_lane.specs.Calls.{IsSameRecord, WasAsked};
ghost use Rattle.hub_lane.specs.Lanes.{opening_of};
ghost use Rattle.hub_lane.specs.Links.{KeepsCounting};
ghost use Rattle.hub_lane.specs.Step.{LooksAs, RoseInVain, StepsAs, StepsOnce};
ghost use Rattle.lane_tables.specs.Taken.{HasTakenAll, IsOldest};

use crate::answers::Taken;
use crate::lane::Lane;
use ipb_base::NoMemory;
use lane_record::Outcome;
use links::Link;

/// The token of a step that found no outcome. A step alone makes one, so whoever has it knows that a lane received
/// once.
#[derive(Drop)]
pub struct Turned {
    received: (),
}

/// What a step came to.
#[derive(Drop)]
pub enum Stepped {
    /// What became of the client's oldest asked and untaken body.
    Ready(Outcome),
    /// Nothing became of it yet.
    NotYet(Turned),
    /// The client has no asked body to take.
    Nothing,
}

/// What a look came to.
#[derive(Drop)]
pub enum Looked {
    /// What became of the client's oldest asked and untaken body.
    Ready(Outcome),
    /// Nothing became of it yet.
    NotYet,
    /// The client has no asked body to take.
    Nothing,
}

impl<L: Link> Lane<L> {
    /// Takes what became of the client's oldest asked and untaken body, if anything did. It neither sends nor receives.
    /// Want of memory changes nothing.
    pub fn look(&mut self, client: u32) -> Result<Looked, NoMemory>
        requires client { 1 ≤ client }
        ensures looked { IfOk result (LooksAs self.old client self.new) }
        ensures unchanged { OnErr result (self.new ≡ self.old) }
        ensures link { self.new.link ≡ self.old.link }
    {
        let Some(seq) = self.oldest(client) else {
            return Ok(Looked::Nothing);
        };
        match self.take(client, seq)? {
            Taken::Ready(outcome) => Ok(Looked::Ready(outcome)),
            Taken::NotYet => Ok(Looked::NotYet),
        }
    }

    /// Takes what became of the client's oldest asked and untaken body; where nothing did yet, pumps and looks once
    /// more. Want of memory adds no entry, but may come behind a receive, and may leave the lane spent.
    pub fn step(&mut self, client: u32) -> Result<Stepped, NoMemory>
        requires client { 1 ≤ client }
        ensures stepped { IfOk result (λ stepped. StepsAs self.old client self.new stepped) }
        ensures once { IfOk result (λ stepped. StepsOnce L.Link self.old client self.new stepped) }
        ensures same { OnErr result (IsSameRecord self.old self.new) }
        ensures received { IfOk result (λ stepped. RoseInVain L.Link stepped self.old.link self.new.link) }
        ensures counts { KeepsCounting L.Link self.old.link self.new.link }
        ensures opening { opening_of (L.telling self.new.link) ≡ opening_of (L.telling self.old.link) }
    {
        let Some(seq) = self.oldest(client) else {
            return Ok(Stepped::Nothing);
        };
        match self.take(client, seq)? {
            Taken::Ready(outcome) => return Ok(Stepped::Ready(outcome)),
            Taken::NotYet => {}
        }
        self.pump()?;
        self.is_sound();
        match self.take(client, seq)? {
            Taken::Ready(outcome) => Ok(Stepped::Ready(outcome)),
            Taken::NotYet => Ok(Stepped::NotYet(Turned { received: () })),
        }
    }

    /// The client's oldest body that was asked and not taken.
    fn oldest(&self, client: u32) -> Option<u64>
        ensures some { IfSome result (λ seq. IsOldest self.now.items client seq) }
        ensures asked { IfSome result (λ seq. WasAsked self.now.items client seq) }
        ensures none { IfNone result (HasTakenAll self.now.items client) }
    {
        self.book.oldest(client)
    }
}
