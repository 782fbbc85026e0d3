//! The bodies that a client asks a board to execute.

ghost use Rattle.std.specs.Prelude.{◌≡◌, Some, None, MatchOption, IfSome, slice_get};
ghost use Rattle.std.specs.List.{AllByRecursion};
ghost use Rattle.transaction_codec.specs.Request.{SpellsRequests};
ghost use Rattle.script_plans.specs.Plan.{IsWithinBody, AreSound};

use crate::op_pieces::OpPieces;
use ipb_base::Words;
use std::marker::Model;

/// Where one piece of an operation stands among the bodies of its client on a board. Profile.
#[derive(Clone, Copy, PartialEq, Eq)]
pub struct PieceAt {
    /// The number of the body, from 0 through all dispatches of the client.
    pub body: usize,
    /// The request in that body, from 0.
    pub index: u16,
}

/// The bodies of a client on one board, through all its dispatches, where the pieces of each of its operations there
/// stand, and how many bodies each dispatch has. Contracts see the three lists.
#[derive(Drop)]
pub struct Planned {
    bodies: Vec<Words>,
    pieces: OpPieces,
    counts: Vec<usize>,
}

impl Model for Planned {
    ghost use Rattle.script_plans.specs.Plan.{ClientBodies, AreSound};

    ghost Value = { ClientBodies };

    ghost view = { λ p. record { bodies = p.bodies.items; pieces = p.pieces; counts = p.counts.items } };

    ghost invariant = { λ p.
        AreSound (record { bodies = p.bodies.items; pieces = p.pieces; counts = p.counts.items }) };
}

impl Planned {
    /// The bodies, where the pieces of each operation stand in them, and how many each dispatch has. It takes no
    /// memory.
    pub(crate) fn new(bodies: Vec<Words>, pieces: OpPieces, counts: Vec<usize>) -> Planned
        requires { AreSound (record { bodies = bodies.items; pieces = pieces; counts = counts.items }) }
        ensures { result ≡ record { bodies = bodies.items; pieces = pieces; counts = counts.items } }
    {
        Planned {
            bodies,
            pieces,
            counts,
        }
    }

    /// The bodies, in order, each without its packet header. Each is the words of requests alone.
    pub fn bodies(&self) -> &[Words]
        ensures bodies { result.now ≡ self.now.bodies }
        ensures spelled { AllByRecursion SpellsRequests result.now }
    {
        self.bodies.as_slice()
    }

    /// How many of the bodies each dispatch of the client has, in order.
    pub fn counts(&self) -> &[usize]
        ensures { result.now ≡ self.now.counts }
    {
        self.counts.as_slice()
    }

    /// Where the pieces of operation `op`, from 0, of those of the client on the board stand; none where it has fewer.
    pub fn pieces(&self, op: usize) -> Option<&[PieceAt]>
        ensures pieces { MatchOption result (slice_get self.now.pieces op ≡ None)
            (λ pieces. slice_get self.now.pieces op ≡ Some pieces.now) }
        ensures within { IfSome result (λ pieces. AllByRecursion IsWithinBody pieces.now) }
    {
        self.pieces.get(op)
    }
}
