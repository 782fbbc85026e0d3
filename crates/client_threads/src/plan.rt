//! What a client asks of the lanes of a hub.

ghost use Rattle.std.specs.Prelude.{◌≡◌, ◌++◌, ◌∷◌, [], OnErr, OnOk};

use hub_multiplexer::NoMemory;
use smallvec::SmallVec;
use std::alloc::Global;
use std::marker::Model;

/// How many bodies to ask of which lane: pairs of a lane's number, from 0, and a number of bodies, by rising lane. One
/// pair takes no memory. Contracts see that list, and not for how many operations of a script they are asked.
#[derive(Drop)]
pub struct Asks {
    items: SmallVec<(u32, u32), 1>,
    operations: u32,
}

impl Model for Asks {
    ghost use Rattle.std.specs.Prelude.{ℕ, List};

    ghost Value = { List (ℕ × ℕ) };

    ghost view = { λ asks. asks.items.items };
}

impl Asks {
    /// A list with no pairs, for so many operations. It takes no memory.
    pub fn new(alloc: Global, operations: u32) -> Asks
        ensures { result ≡ [] }
    {
        Asks {
            items: SmallVec::new(alloc),
            operations,
        }
    }

    /// Adds a pair at the end. Where memory ran out nothing changed.
    pub fn push(&mut self, lane: u32, count: u32) -> Result<(), NoMemory>
        ensures pushed { OnOk result (self.new ≡ self.old ++ (lane, count) ∷ []) }
        ensures unchanged { OnErr result (self.new ≡ self.old) }
    {
        Ok(self.items.push((lane, count))?)
    }

    /// The pairs, in order.
    pub fn as_slice(&self) -> &[(u32, u32)]
        ensures { result.now ≡ self.now }
    {
        self.items.as_slice()
    }

    /// For how many operations of its script a client asks them.
    pub(crate) fn operations(&self) -> u32 {
        self.operations
    }

    /// How many bodies it asks on all lanes, and no more than 64 bits can say.
    pub(crate) fn bodies(&self) -> u64 {
        let mut all = 0u64;
        for ask in self.as_slice() {
            all = all.saturating_add(u64::from(ask.1));
        }
        all
    }
}

/// The bodies that a client asks for at once.
#[derive(Drop)]
pub struct Dispatch {
    pub asks: Asks,
}

/// The dispatches of a client, in order. Contracts see that list.
#[derive(Drop)]
pub struct Dispatches {
    items: Vec<Dispatch>,
}

impl Model for Dispatches {
    ghost use Rattle.std.specs.Prelude.{List};
    ghost use Rattle.client_threads.specs.declared.plan.Dispatch.{Dispatch};

    ghost Value = { List Dispatch };

    ghost view = { λ dispatches. dispatches.items.items };
}

impl Dispatches {
    /// The dispatches of a vector, in its order. It takes no memory.
    pub fn from_vec(items: Vec<Dispatch>) -> Dispatches
        ensures { result ≡ items.items }
    {
        Dispatches { items }
    }

    /// The dispatches, in order.
    pub fn as_slice(&self) -> &[Dispatch]
        ensures { result.now ≡ self.now }
    {
        self.items.as_slice()
    }
}

/// A client, from 1, and what it asks, dispatch by dispatch.
#[derive(Drop)]
pub struct ClientPlan {
    pub client: u32,
    pub dispatches: Dispatches,
}

impl ClientPlan {
    /// How many of its dispatches ask for something, and no more than 64 bits can say.
    pub(crate) fn asking(&self) -> u64 {
        let mut all = 0u64;
        for dispatch in self.dispatches.as_slice() {
            if dispatch.asks.bodies() > 0 {
                all = all.saturating_add(1);
            }
        }
        all
    }

    /// How many bodies it asks in all, and no more than 64 bits can say.
    pub(crate) fn bodies(&self) -> u64 {
        let mut all = 0u64;
        for dispatch in self.dispatches.as_slice() {
            all = all.saturating_add(dispatch.asks.bodies());
        }
        all
    }

    /// For how many operations of its script it asks them, and no more than 64 bits can say.
    pub(crate) fn operations(&self) -> u64 {
        let mut all = 0u64;
        for dispatch in self.dispatches.as_slice() {
            all = all.saturating_add(u64::from(dispatch.asks.operations()));
        }
        all
    }
}
