//! What all clients ask of one board.

ghost use Rattle.std.specs.Prelude.{◌≡◌};

use script_plans::Planned;
use std::marker::Model;

/// What each client has planned on a live board, client 1 first. Contracts see that list.
#[derive(Drop)]
pub struct BoardPlans {
    items: Vec<Planned>,
}

impl Model for BoardPlans {
    ghost use Rattle.std.specs.Prelude.{List};
    ghost use Rattle.script_plans.specs.Plan.{ClientBodies};

    ghost Value = { List ClientBodies };

    ghost view = { λ plans. plans.items.items };
}

impl BoardPlans {
    /// The plans of a vector, in its order. It takes no memory.
    pub fn from_vec(items: Vec<Planned>) -> BoardPlans
        ensures { result ≡ items.items }
    {
        BoardPlans { items }
    }

    /// The vector of these plans. It takes no memory.
    pub fn into_vec(self) -> Vec<Planned>
        ensures { result.items ≡ self }
    {
        let BoardPlans { items } = self;
        items
    }

    /// The plans, client by client.
    pub fn as_slice(&self) -> &[Planned]
        ensures { result.now ≡ self.now }
    {
        self.items.as_slice()
    }
}
