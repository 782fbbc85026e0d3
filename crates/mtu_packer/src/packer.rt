ghost use Rattle.std.specs.Prelude.{◌≡◌, ◌+◌, ◌^◌, ◌<◌, ◌≤◌, IfOk, OnOk, length, map, true};
ghost use Rattle.std.specs.List.{AllByRecursion};
ghost use Rattle.ipb_base.specs.Word.{AreWords};
ghost use Rattle.transaction_codec.specs.declared.header_word.TheConstants.{MAX_COUNT};
ghost use Rattle.transaction_codec.specs.First.{op_of};
ghost use Rattle.transaction_codec.specs.Request.{op_count};
ghost use Rattle.mtu_packer.specs.Cutting as spec;
ghost use Rattle.mtu_packer.specs.Cutting.{CanBeCut, cut_pieces};
ghost use Rattle.mtu_packer.specs.Span.{span_places, AreWithin};
ghost use Rattle.mtu_packer.specs.Progress as progress;
ghost use Rattle.mtu_packer.specs.Progress.{IsWithin, FitsAlone, step, run};

use crate::cutting::{HEADERS, piece, piece_count};
use crate::packed::{Packed, Piece, Places, Span};
use smallvec::SmallVec;
use std::alloc::Global;
use std::marker::Model;
use std::mem;
use transaction_codec::{NoMemory, Op, OpRef, Words, put_request};

/// A packer at work: the bodies that are closed, and the one that takes pieces.
#[derive(Drop)]
pub(crate) struct Packer {
    alloc: Global,
    /// The most words of a packet, its packet header included.
    payload: u32,
    bodies: Vec<Words>,
    open_body: Vec<u32>,
    /// The requests of the open body.
    requests: u16,
    /// The words of the longest reply to the open body.
    reply: u32,
    places: SmallVec<Piece, 4>,
}

impl Model for Packer {
    ghost use Rattle.mtu_packer.specs.Progress.{Progress, IsWithin};

    ghost Value = { Progress };

    ghost view = { λ p. record {
      payload = p.payload;
      bodies = p.bodies.items;
      open_body = p.open_body.items;
      requests = p.requests;
      reply = p.reply;
      places = p.places.items;
    } };
}

impl Packer {
    /// A packer that has taken no piece. Its bodies take the place of what stood in this list.
    pub(crate) fn new(alloc: Global, payload: u32, mut bodies: Vec<Words>) -> Packer
        ensures { result ≡ progress.start payload }
    {
        bodies.clear();
        Packer {
            alloc,
            payload,
            bodies,
            open_body: Vec::new(alloc),
            requests: 0,
            reply: 0,
            places: SmallVec::new(alloc),
        }
    }

    fn has_room(&self, op: &OpRef<'_>) -> bool
        requires within { IsWithin self.now }
        requires count { op_count (op_of op.now) ≤ MAX_COUNT }
        ensures { result ≡ progress.has_room self.now (op_of op.now) }
    {
        let request = self.open_body.len() + op.words_after_header() + HEADERS as usize;
        let reply = self.reply + op.values_done() + HEADERS;
        request <= self.payload as usize && reply <= self.payload
    }

    /// Closes the open body and begins another.
    #[tactic(auto, using(crate::proofs::Steps::close_within))]
    fn close(&mut self) -> Result<(), NoMemory>
        requires within { IsWithin self.old }
        requires begun { 1 ≤ self.old.requests }
        ensures closed { OnOk result (self.new ≡ progress.close self.old) }
        ensures within { OnOk result (IsWithin self.new) }
    {
        let body = mem::replace(&mut self.open_body, Vec::new(self.alloc));
        self.bodies.push(Words::from_vec(body))?;
        self.requests = 0;
        self.reply = 0;
        Ok(())
    }

    /// Adds a piece to the open body.
    #[tactic(auto, using(crate::proofs::Steps::add_within))]
    fn add(&mut self, op: &OpRef<'_>) -> Result<(), NoMemory>
        requires within { IsWithin self.old }
        requires few { length self.old.places < 2 ^ 31 }
        requires count { op_count (op_of op.now) ≤ MAX_COUNT }
        requires room { progress.has_room self.old (op_of op.now) ≡ true }
        ensures added { OnOk result (self.new ≡ progress.add self.old (op_of op.now)) }
        ensures within { OnOk result (IsWithin self.new) }
    {
        put_request(&mut self.open_body, self.requests, op)?;
        self.places.push(Piece {
            body: self.bodies.len() as u32,
            index: self.requests,
        })?;
        self.requests += 1;
        self.reply += op.values_done() + 1;
        Ok(())
    }

    /// Takes the next piece, into the open body where it has room and else into a new one.
    #[tactic(auto, using(crate::proofs::Steps::begun_without_room))]
    fn push(&mut self, op: &OpRef<'_>) -> Result<(), NoMemory>
        requires within { IsWithin self.old }
        requires few { length self.old.places < 2 ^ 31 }
        requires alone { FitsAlone self.old.payload (op_of op.now) }
        ensures stepped { OnOk result (self.new ≡ step self.old (op_of op.now)) }
        ensures within { OnOk result (IsWithin self.new) }
    {
        if self.has_room(op) {
            return self.add(op);
        }
        self.close()?;
        self.add(op)
    }

    /// Takes all pieces of an operation, and tells how many places there are then.
    pub(crate) fn push_op(&mut self, op: &Op) -> Result<u32, NoMemory>
        requires within { IsWithin self.old }
        requires few { length self.old.places + spec.piece_count self.old.payload op.now ≤ 2 ^ 31 }
        requires sound { CanBeCut op.now }
        ensures taken { OnOk result (self.new ≡ run self.old (cut_pieces self.old.payload op.now)) }
        ensures within { OnOk result (IsWithin self.new) }
        ensures places { IfOk result (λ count. count ≡ length self.new.places) }
    {
        let payload = self.payload;
        for k in 0..piece_count(op, payload) {
            self.push(&piece(op, payload, k))?;
        }
        Ok(self.places.len() as u32)
    }

    /// Closes the last body. Each operation has the places of its span.
    pub(crate) fn finish(mut self, spans: SmallVec<Span, 4>) -> Result<Packed, NoMemory>
        requires within { IsWithin self }
        requires spans { AreWithin (length self.places) spans.items }
        ensures bodies { IfOk result (λ packed. packed.bodies ≡ progress.all_bodies self) }
        ensures words { IfOk result (λ packed. AllByRecursion AreWords packed.bodies) }
        ensures pieces { IfOk result (λ packed. packed.pieces ≡ map (span_places self.places) spans.items) }
    {
        if self.requests > 0 {
            self.close()?;
        }
        let Packer {
            alloc: _,
            payload: _,
            bodies,
            open_body: _,
            requests: _,
            reply: _,
            places,
        } = self;
        Ok(Packed::new(bodies, Places::new(places, spans)))
    }
}
