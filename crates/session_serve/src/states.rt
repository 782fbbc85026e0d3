//! How the boards stand to the connections that are served.

ghost use Rattle.std.specs.Prelude.{◌≡◌};

use hub_session::BoardState;
use std::marker::Model;

/// How the board at each position stands. Contracts see that list.
#[derive(Drop)]
pub(crate) struct BoardStates {
    items: Vec<BoardState>,
}

impl Model for BoardStates {
    ghost use Rattle.std.specs.Prelude.{List};
    ghost use Rattle.hub_lane.specs.declared.answers.BoardState.{BoardState};

    ghost Value = { List BoardState };

    ghost view = { λ states. states.items.items };
}

impl BoardStates {
    /// The states of a vector, in its order. It takes no memory.
    pub(crate) fn from_vec(items: Vec<BoardState>) -> BoardStates
        ensures { result ≡ items.items }
    {
        BoardStates { items }
    }

    /// The states, in order.
    pub(crate) fn as_slice(&self) -> &[BoardState]
        ensures { result.now ≡ self.now }
    {
        self.items.as_slice()
    }
}
