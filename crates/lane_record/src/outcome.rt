//! What became of the bodies that clients asked a board to execute.

ghost use Rattle.std.specs.Prelude.{◌≡◌};

use ipb_base::Words;
use std::marker::Model;

/// What became of one body. A body has a place where it was sent: its number, from 1, among the first sends to its
/// board (profile).
#[derive(Drop)]
pub enum Outcome {
    /// The board replied with these words, the packet header left out.
    Replied { place: u64, words: Words },
    /// The hub gave up after so many rounds without an answer: whether the board executed the body is not known.
    TimedOut { place: u64, rounds: u8 },
    /// The hub gave up before the body was sent, and the board never executed it.
    Unsent,
    /// The link failed before the reply came. A body that was not sent has no place.
    LinkLost { place: Option<u64> },
}

impl Outcome {
    ghost use Rattle.lane_record.specs.Outcomes.{is_sent};

    /// Whether the body was sent: then it has a place.
    pub fn is_sent(&self) -> bool
        ensures { result ≡ is_sent self.now }
    {
        match self {
            Outcome::Replied { place: _, words: _ } => true,
            Outcome::TimedOut {
                place: _,
                rounds: _,
            } => true,
            Outcome::Unsent => false,
            Outcome::LinkLost { place } => place.is_some(),
        }
    }
}

/// What became of some bodies, in order. Contracts see that list.
#[derive(Drop)]
pub struct Outcomes {
    items: Vec<Outcome>,
}

impl Model for Outcomes {
    ghost use Rattle.std.specs.Prelude.{List};
    ghost use Rattle.lane_record.specs.declared.outcome.Outcome.{Outcome};

    ghost Value = { List Outcome };

    ghost view = { λ outcomes. outcomes.items.items };
}

impl Outcomes {
    /// The outcomes of a vector, in its order. It takes no memory.
    pub fn from_vec(items: Vec<Outcome>) -> Outcomes
        ensures { result ≡ items.items }
    {
        Outcomes { items }
    }

    /// The vector of these outcomes. It takes no memory.
    pub fn into_vec(self) -> Vec<Outcome>
        ensures { result.items ≡ self }
    {
        let Outcomes { items } = self;
        items
    }

    /// The outcomes, in order.
    pub fn as_slice(&self) -> &[Outcome]
        ensures { result.now ≡ self.now }
    {
        self.items.as_slice()
    }
}
