//! What became of a client's bodies.

ghost use Rattle.std.specs.Prelude.{◌≡◌, option_copied};
ghost use Rattle.client_threads.specs.Clients.{outcome_of};

use hub_multiplexer::Outcome;
use lane_record::Outcomes;
use std::marker::Model;

/// For each lane of a hub, in order, what became of a client's bodies there. Contracts see a list of lists.
#[derive(Drop)]
pub struct LaneOutcomes {
    items: Vec<Outcomes>,
}

impl Model for LaneOutcomes {
    ghost use Rattle.std.specs.Prelude.{List};
    ghost use Rattle.lane_record.specs.declared.outcome.Outcome.{Outcome};

    ghost Value = { List (List Outcome) };

    ghost view = { λ lanes. lanes.items.items };
}

impl LaneOutcomes {
    /// The outcomes of a vector, in its order. It takes no memory.
    pub fn from_vec(items: Vec<Outcomes>) -> LaneOutcomes
        ensures { result ≡ items.items }
    {
        LaneOutcomes { items }
    }

    /// The vector of these outcomes. It takes no memory.
    pub fn into_vec(self) -> Vec<Outcomes>
        ensures { result.items ≡ self }
    {
        let LaneOutcomes { items } = self;
        items
    }

    /// The outcomes, lane by lane.
    pub fn as_slice(&self) -> &[Outcomes]
        ensures { result.now ≡ self.now }
    {
        self.items.as_slice()
    }
}

/// What became of all bodies of a client's plan.
#[derive(Drop)]
pub struct ClientResult {
    pub client: u32,
    pub lanes: LaneOutcomes,
}

impl ClientResult {
    /// What became of the client's body of this number, from 0, on a lane, if its plan has one there.
    pub fn outcome(&self, lane: u32, seq: u64) -> Option<&Outcome>
        ensures { option_copied result ≡ outcome_of self.now lane seq }
    {
        let lane = self.lanes.as_slice().get(usize::try_from(lane).ok()?)?;
        lane.as_slice().get(usize::try_from(seq).ok()?)
    }
}
