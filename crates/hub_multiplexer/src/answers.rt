//! What the calls of a hub answer.

ghost use Rattle.std.specs.Prelude.{ℕ, List};
ghost use Rattle.turn_pass.specs.Pass.{Knowledge};
ghost use Rattle.lane_record.specs.declared.item.Item.{Item};
ghost use Rattle.hub_multiplexer.specs.AnyCalls.{AskMeansAs, AskTriedAs, FindMeansOf, MadeAs, StepMeansAs, StepMeansOf};
ghost use Rattle.hub_multiplexer.specs.AnyCalls.{StepTriedAs};

use crate::at_hub::AtHub;
use hub_lane::{Asked, Outcome, Stepped, Turned};

/// How a try to ask went.
#[derive(Clone, Copy, PartialEq, Eq)]
pub enum AskTry {
    /// Another client held the lane.
    Busy,
    /// The client's body of this number was asked.
    Asked(u64),
    /// All planned bodies of the client were asked before.
    Nothing,
}

impl AskTry {
    /// The answer of what was found in the turn.
    pub(crate) fn of<V: AtHub>(asked: Asked) -> AskTry
        ensures { (k after : Knowledge) → MadeAs V.manner k (AskMeansAs V.manner k asked) after
            → AskTriedAs V.manner k result after }
    {
        match asked {
            Asked::Asked(seq) => AskTry::Asked(seq),
            Asked::Nothing => AskTry::Nothing,
        }
    }
}

/// How a try to step went.
#[derive(Drop)]
pub enum StepTry {
    /// Another client held the lane.
    Busy,
    /// Nothing became of the client's oldest asked and untaken body yet, and the lane received once.
    NotYet(Turned),
    /// What became of it.
    Ready(Outcome),
    /// The client has no asked body to take.
    Nothing,
}

impl StepTry {
    /// The answer of what was found in the turn.
    pub(crate) fn of<V: AtHub>(stepped: Stepped) -> StepTry
        ensures { (k after : Knowledge) → MadeAs V.manner k (StepMeansAs V.manner k stepped) after
            → StepTriedAs V.manner k result after }
    {
        match stepped {
            Stepped::NotYet(turned) => StepTry::NotYet(turned),
            Stepped::Ready(outcome) => StepTry::Ready(outcome),
            Stepped::Nothing => StepTry::Nothing,
        }
    }
}

/// What a client performed.
#[derive(Drop)]
pub enum Performed {
    /// What became of its oldest asked and untaken body.
    Ready(Outcome),
    /// It has no asked body to take.
    Nothing,
}

impl Performed {
    /// What a step found, if anything became of the body.
    pub(crate) fn found_by(stepped: Stepped) -> Option<Performed>
        ensures { (own : List Item) (client : ℕ) (added : List Item) → StepMeansOf own client stepped added
            → FindMeansOf own client result added }
    {
        match stepped {
            Stepped::Ready(outcome) => Some(Performed::Ready(outcome)),
            Stepped::NotYet(_turned) => None,
            Stepped::Nothing => Some(Performed::Nothing),
        }
    }
}
