ghost use Rattle.std.specs.Prelude.{◌≡◌, ◌<◌, Some, length, map, slice_get};
ghost use Rattle.mtu_packer.specs.Span.{span_places, AreWithin};

use smallvec::SmallVec;
use std::marker::Model;
use transaction_codec::Words;

/// Where one piece of an operation stands. Profile.
#[derive(Clone, Copy, Default, PartialEq, Eq)]
pub struct Piece {
    /// The body, from 0.
    pub body: u32,
    /// The request in that body, from 0. It is its transaction identifier, too (IPbus 2.0, transaction header).
    pub index: u16,
}

/// Which places belong to one operation.
#[derive(Clone, Copy, Default)]
pub(crate) struct Span {
    pub(crate) start: u32,
    pub(crate) end: u32,
}

/// Where the pieces of each operation stand. Contracts see it as a list of lists: the places of each operation.
/// Profile.
#[derive(Drop)]
pub struct Places {
    // few of either stand in the value itself, as those of a dispatch of few operations
    places: SmallVec<Piece, 4>,
    spans: SmallVec<Span, 4>,
}

impl Model for Places {
    ghost use Rattle.std.specs.Prelude.{List, length, map};
    ghost use Rattle.mtu_packer.specs.declared.packed.Piece.{Piece};
    ghost use Rattle.mtu_packer.specs.Span.{span_places, AreWithin};

    ghost Value = { List (List Piece) };

    ghost view = { λ p. map (span_places p.places.items) p.spans.items };

    ghost invariant = { λ p. AreWithin (length p.places.items) p.spans.items };
}

impl Places {
    pub(crate) fn new(places: SmallVec<Piece, 4>, spans: SmallVec<Span, 4>) -> Places
        requires { AreWithin (length places.items) spans.items }
        ensures { result ≡ map (span_places places.items) spans.items }
    {
        Places { places, spans }
    }

    /// Where the pieces of an operation stand, in order; `op` is its place in the list of operations, from 0.
    pub fn pieces(&self, op: usize) -> &[Piece]
        requires { op < length self.now }
        ensures { slice_get self.now op ≡ Some result.now }
    {
        let span = self.spans.as_slice()[op];
        &self.places.as_slice()[span.start as usize..span.end as usize]
    }
}

/// Operations that are packed into bodies. Profile.
#[derive(Drop)]
pub struct Packed {
    bodies: Vec<Words>,
    places: Places,
}

impl Model for Packed {
    ghost use Rattle.mtu_packer.specs.Packed.{Contents};

    ghost Value = { Contents };

    ghost view = { λ p. record { bodies = p.bodies.items; pieces = p.places } };
}

impl Packed {
    pub(crate) fn new(bodies: Vec<Words>, places: Places) -> Packed
        ensures bodies { result.bodies ≡ bodies.items }
        ensures pieces { result.pieces ≡ places }
    {
        Packed { bodies, places }
    }

    /// The bodies, in order, each without its packet header.
    pub fn bodies(&self) -> &[Words]
        ensures { result.now ≡ self.now.bodies }
    {
        self.bodies.as_slice()
    }

    /// Where the pieces of an operation stand, in order; `op` is its place in the list of operations, from 0.
    pub fn pieces(&self, op: usize) -> &[Piece]
        requires { op < length self.now.pieces }
        ensures { slice_get self.now.pieces op ≡ Some result.now }
    {
        self.places.pieces(op)
    }

    /// The bodies by value, in order, and where the pieces of each operation stand in them. It takes no memory.
    pub fn into_parts(self) -> (Vec<Words>, Places)
        ensures bodies { result.0.items ≡ self.bodies }
        ensures places { result.1 ≡ self.pieces }
    {
        let Packed { bodies, places } = self;
        (bodies, places)
    }
}
