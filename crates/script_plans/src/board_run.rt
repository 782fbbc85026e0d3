//! What became of a board.

ghost use Rattle.std.specs.Prelude.{◌≡◌};

use crate::greeting::Greeting;
use crate::planned::Planned;
use ipb_base::{Text, Words};
use lane_record::Outcomes;
use std::marker::Model;

/// What came late for some bodies, in their order: the words of a reply that came after its body was timed out, the
/// packet header left out. A body behind the end of the list has no late answer. Contracts see that list.
#[derive(Drop)]
pub struct Lates {
    items: Vec<Option<Words>>,
}

impl Model for Lates {
    ghost use Rattle.std.specs.Prelude.{List, ℕ, Option};

    ghost Value = { List (Option (List ℕ)) };

    ghost view = { λ lates. lates.items.items };
}

impl Lates {
    /// The late answers of a vector, in its order. It takes no memory.
    pub fn from_vec(items: Vec<Option<Words>>) -> Lates
        ensures { result ≡ items.items }
    {
        Lates { items }
    }

    /// The vector of these late answers. It takes no memory.
    pub fn into_vec(self) -> Vec<Option<Words>>
        ensures { result.items ≡ self }
    {
        let Lates { items } = self;
        items
    }

    /// The late answers, in order.
    pub fn as_slice(&self) -> &[Option<Words>]
        ensures { result.now ≡ self.now }
    {
        self.items.as_slice()
    }
}

/// What one client asked of a board, and what became of it: the outcomes stand in the order of the bodies. Late answers
/// stand beside the outcomes and not in them, since a client takes an outcome before its late answer can come. `lates`
/// may be shorter than `outcomes`: the others have none.
#[derive(Drop)]
pub struct ClientPart {
    pub planned: Planned,
    pub outcomes: Outcomes,
    pub lates: Lates,
}

/// The parts of the clients on a board, client 1 first. Contracts see that list.
#[derive(Drop)]
pub struct ClientParts {
    items: Vec<ClientPart>,
}

impl Model for ClientParts {
    ghost use Rattle.std.specs.Prelude.{List};
    ghost use Rattle.script_plans.specs.declared.board_run.ClientPart.{ClientPart};

    ghost Value = { List ClientPart };

    ghost view = { λ parts. parts.items.items };
}

impl ClientParts {
    /// The parts of a vector, in its order. It takes no memory.
    pub fn from_vec(items: Vec<ClientPart>) -> ClientParts
        ensures { result ≡ items.items }
    {
        ClientParts { items }
    }

    /// The vector of these parts. It takes no memory.
    pub fn into_vec(self) -> Vec<ClientPart>
        ensures { result.items ≡ self }
    {
        let ClientParts { items } = self;
        items
    }

    /// The parts, in order.
    pub fn as_slice(&self) -> &[ClientPart]
        ensures { result.now ≡ self.now }
    {
        self.items.as_slice()
    }
}

/// A board after a run: its name, what greeting it told, and what each client asked of it. A board that is not live
/// was asked nothing.
#[derive(Drop)]
pub struct BoardRun {
    pub name: Text,
    pub greeting: Greeting,
    pub parts: ClientParts,
}
