//! The places that lines show, each taken once.

ghost use Rattle.std.specs.Prelude.{◌≡◌, ◌+◌, ◌==◌, ◌||◌, ℕ, false, if◌then◌else◌, IfOk, OnOk};
ghost use Rattle.run_audit.specs.Taken as spec;

use ipb_base::NoMemory;
use std::alloc::Global;
use std::collections::BTreeSet;

/// Places that are taken, and how many.
#[derive(Drop)]
pub(crate) struct Taken {
    /// For each of the first places whether it is taken.
    low: Vec<bool>,
    /// The taken places among the others.
    high: BTreeSet<u64>,
    count: usize,
}

impl Taken {
    /// No places. Most of those that will be taken are below a number.
    pub(crate) fn new(alloc: Global, most: usize) -> Result<Taken, NoMemory>
        ensures none { IfOk result (λ taken. (place : ℕ) → spec.has taken place ≡ false) }
        ensures count { IfOk result (λ taken. taken.count ≡ 0) }
    {
        Ok(Taken {
            low: vec![in alloc; false; most]?,
            high: BTreeSet::new(alloc),
            count: 0,
        })
    }

    /// How many places are taken.
    pub(crate) fn count(&self) -> usize
        ensures { result ≡ self.now.count }
    {
        self.count
    }

    /// Takes a place. Answers whether it was taken before.
    pub(crate) fn take(&mut self, place: u64) -> Result<bool, NoMemory>
        ensures was { IfOk result (λ was. was ≡ spec.has self.old place) }
        ensures places { OnOk result ((other : ℕ) → spec.has self.new other
            ≡ (spec.has self.old other || (other == place))) }
        ensures count { IfOk result (λ was.
            self.new.count ≡ (if was then self.old.count else self.old.count + 1)) }
    {
        let was = self.put(place)?;
        if !was {
            self.count = self.count.checked_add(1).ok_or(NoMemory)?;
        }
        Ok(was)
    }

    /// Takes a place without counting it. Answers whether it was taken before.
    fn put(&mut self, place: u64) -> Result<bool, NoMemory>
        ensures was { IfOk result (λ was. was ≡ spec.has self.old place) }
        ensures places { OnOk result ((other : ℕ) → spec.has self.new other
            ≡ (spec.has self.old other || (other == place))) }
        ensures count { self.new.count ≡ self.old.count }
    {
        if place >= self.low.len() as u64 {
            return Ok(!self.high.insert(place)?);
        }
        let at = place as usize;
        let was = self.low[at];
        self.low[at] = true;
        Ok(was)
    }
}
