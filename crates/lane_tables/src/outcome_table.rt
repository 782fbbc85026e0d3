//! What became of asked bodies, by the number of the Ask. What came late for a body stands at its place.

ghost use Rattle.std.specs.Prelude.{◌≡◌, ◌≤◌, ◌<◌, ◌^◌, ◌∷◌, ◌++◌, [], length, Some, None, OnOk, OnErr, IfOk};
ghost use Rattle.std.specs.Prelude.{MatchOption, if◌then◌else◌};
ghost use Rattle.std.specs.List.{slice_get};
ghost use Rattle.world_model.specs.Hub.{offer};
ghost use Rattle.reliable_engine.specs.Answers.{body_count};
ghost use Rattle.lane_record.specs.declared.outcome.Outcome.TheVariants.{LinkLost};
ghost use Rattle.lane_record.specs.Lates.{late_in, put_late};
ghost use Rattle.lane_record.specs.Offers.{put};

use ipb_base::{NoMemory, Words};
use lane_record::Outcome;
use reliable_engine::Engine;
use std::alloc::Global;
use std::marker::Model;

/// What became of the asked bodies, in the order of the Asks; and what came late, by place from 1 on. There are as many
/// places for that as Asks, so there is room for every place.
#[derive(Drop)]
pub struct OutcomeTable {
    outcomes: Vec<Option<Outcome>>,
    lates: Vec<Option<Words>>,
}

impl Model for OutcomeTable {
    ghost use Rattle.lane_tables.specs.OutcomeTable.{TableState};

    ghost Value = { TableState };

    ghost view = { λ t. record {
      items = t.outcomes.items;
      lates = t.lates.items;
    } };
}

impl OutcomeTable {
    /// A table in which nothing was asked yet. It takes no memory.
    pub fn new(alloc: Global) -> OutcomeTable
        ensures items { result.items ≡ [] }
        ensures lates { result.lates ≡ [] }
    {
        OutcomeTable {
            outcomes: Vec::new(alloc),
            lates: Vec::new(alloc),
        }
    }

    /// How many bodies were asked. They fit into memory.
    pub fn len(&self) -> usize
        ensures count { result ≡ length self.now.items }
        ensures few { result < 2 ^ 62 }
    {
        self.outcomes.as_slice().len()
    }

    /// What became of the Ask of this number.
    pub fn of_ask(&self, ask: usize) -> &Option<Outcome>
        requires { ask < length self.now.items }
        ensures { slice_get self.now.items ask ≡ Some result.now }
    {
        &self.outcomes[ask]
    }

    /// An outcome comes for the Ask of this number. Where there is no such Ask nothing changes.
    pub fn put(&mut self, ask: u64, outcome: Outcome)
        ensures items { self.new.items ≡ put ask outcome self.old.items }
        ensures lates { self.new.lates ≡ self.old.lates }
    {
        let ask = ask as usize;
        if ask < self.outcomes.len() {
            self.outcomes[ask] = Some(outcome);
        }
    }

    /// The words come late for the body at this place. Where there is no such place nothing changes.
    pub fn put_late(&mut self, place: u64, words: Words)
        ensures lates { self.new.lates ≡ put_late place words self.old.lates }
        ensures items { self.new.items ≡ self.old.items }
    {
        if place == 0 {
            return;
        }
        let at = (place - 1) as usize;
        if at < self.lates.len() {
            self.lates[at] = Some(words);
        }
    }

    /// What came late for the body at this place.
    pub fn late_at(&self, place: u64) -> Option<&[u32]>
        ensures { MatchOption result (late_in self.now.lates place ≡ None)
            (λ words. late_in self.now.lates place ≡ Some words.now) }
    {
        if place == 0 {
            return None;
        }
        let late = self.lates.get((place - 1) as usize)?;
        Some(late.as_ref()?.as_slice())
    }

    /// Adds an Ask: the engine is offered its body under the number of the Ask, or it is lost where the link failed.
    /// There is room for what may come late then. The engine has no more bodies than were asked. An `Err` changes
    /// nothing.
    pub fn offer(&mut self, engine: &mut Engine, down: bool, body: Words) -> Result<(), NoMemory>
        requires { body_count engine.old ≤ length self.old.items }
        ensures engine { OnOk result (engine.new ≡ (if down then engine.old
            else offer engine.old (record { tag = length self.old.items; body = body }))) }
        ensures items { OnOk result (self.new.items ≡ self.old.items
            ++ (if down then Some (LinkLost None) else None) ∷ []) }
        ensures lates { OnOk result (self.new.lates ≡ self.old.lates ++ None ∷ []) }
        ensures same_engine { OnErr result (engine.new ≡ engine.old) }
        ensures unchanged { OnErr result (self.new ≡ self.old) }
    {
        let ask = self.len() as u64;
        self.outcomes.reserve(1)?;
        self.lates.reserve(1)?;
        let outcome = offer_body(engine, down, ask, body)?;
        self.outcomes.push_reserved(outcome);
        self.lates.push_reserved(None);
        Ok(())
    }
}

/// Offers a body to the engine under the number of its Ask, or it is lost where the link failed. Answers what became of
/// it so far.
fn offer_body(
    engine: &mut Engine,
    down: bool,
    ask: u64,
    body: Words,
) -> Result<Option<Outcome>, NoMemory>
    requires few { body_count engine.old < 2 ^ 62 }
    ensures engine { OnOk result (engine.new ≡ (if down then engine.old
        else offer engine.old (record { tag = ask; body = body }))) }
    ensures outcome { IfOk result (λ outcome. outcome ≡ (if down then Some (LinkLost None) else None)) }
    ensures unchanged { OnErr result (engine.new ≡ engine.old) }
{
    if down {
        return Ok(Some(Outcome::LinkLost { place: None }));
    }
    if engine.offer(ask, body).is_err() {
        return Err(NoMemory);
    }
    Ok(None)
}
