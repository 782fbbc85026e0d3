//! Where the pieces of all operations of a client on one board stand.

ghost use Rattle.std.specs.Prelude.{◌≡◌, ◌+◌, ◌++◌, ◌∷◌, ◌^◌, ◌<◌, ◌≤◌, [], Some, None, MatchOption, OnOk};
ghost use Rattle.std.specs.Prelude.{length, map, slice_get, vec_capacity, vec_len};
ghost use Rattle.script_plans.specs.Plan.{piece_behind};

use crate::planned::PieceAt;
use ipb_base::NoMemory;
use mtu_packer::Piece;
use std::alloc::Global;
use std::marker::Model;

/// Which of the pieces belong to one operation.
#[derive(Clone, Copy)]
pub(crate) struct Span {
    start: usize,
    end: usize,
}

/// Where the pieces of each operation stand, all in one list. Contracts see a list for each operation.
#[derive(Drop)]
pub(crate) struct OpPieces {
    places: Vec<PieceAt>,
    spans: Vec<Span>,
}

impl Model for OpPieces {
    ghost use Rattle.std.specs.Prelude.{List, length, map};
    ghost use Rattle.script_plans.specs.declared.planned.PieceAt.{PieceAt};
    ghost use Rattle.script_plans.specs.Spans.{span_pieces, AreWithin};

    ghost Value = { List (List PieceAt) };

    ghost view = { λ p. map (span_pieces p.places.items) p.spans.items };

    ghost invariant = { λ p. AreWithin (length p.places.items) p.spans.items };
}

/// Adds pieces of a dispatch that begins with the body of this number. There is room for them.
fn push_moved(places: &mut Vec<PieceAt>, pieces: &[Piece], first: usize)
    requires few { first < 2 ^ 63 }
    requires room { vec_len places.old + length pieces.now ≤ vec_capacity places.old }
    ensures { places.new.items ≡ places.old.items ++ map (piece_behind first) pieces.now }
{
    for piece in pieces {
        places.push_reserved(PieceAt {
            body: first + piece.body as usize,
            index: piece.index,
        });
    }
}

impl OpPieces {
    /// The pieces of no operation. It takes no memory.
    pub(crate) fn new(alloc: Global) -> OpPieces
        ensures { result ≡ [] }
    {
        OpPieces {
            places: Vec::new(alloc),
            spans: Vec::new(alloc),
        }
    }

    /// Adds those of an operation in a dispatch that begins with the body of this number.
    pub(crate) fn push(&mut self, pieces: &[Piece], first: usize) -> Result<(), NoMemory>
        requires { first < 2 ^ 63 }
        ensures { OnOk result (self.new ≡ self.old ++ map (piece_behind first) pieces.now ∷ []) }
    {
        self.spans.reserve(1)?;
        self.places.reserve(pieces.len())?;
        let start = self.places.len();
        push_moved(&mut self.places, pieces, first);
        let end = self.places.len();
        self.spans.push_reserved(Span { start, end });
        Ok(())
    }

    /// The pieces of operation `op`, from 0, in order; none where there are fewer operations.
    pub(crate) fn get(&self, op: usize) -> Option<&[PieceAt]>
        ensures { MatchOption result (slice_get self.now op ≡ None)
            (λ pieces. slice_get self.now op ≡ Some pieces.now) }
    {
        let span = self.spans.get(op)?;
        Some(&self.places.as_slice()[span.start..span.end])
    }
}
