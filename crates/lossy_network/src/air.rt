//! The air between a hub and a board, and the board, as a link keeps them that tells.

ghost use Rattle.std.specs.Prelude.{◌≡◌, ◌+◌, ◌<◌, ◌^◌, ◌++◌, ◌∷◌, ℕ, List, [], length, IsTrue, Some};
ghost use Rattle.std.specs.Prelude.{IfOk, OnOk, OnErr, IfSome, IfNone};
ghost use Rattle.std.specs.List.{slice_get};
ghost use Rattle.world_model.specs.declared.datagram.Direction.TheVariants.{ToBoard};
ghost use Rattle.world_model.specs.Board.{bodies_executed};
ghost use Rattle.world_model.specs.Air.{goes_to, is_alive};
ghost use Rattle.world_model.specs.Links.{first_sends, heard_by, is_first_send, IsHandedAt, sent_on};
ghost use Rattle.links.specs.Births.{birth_after};
ghost use Rattle.lossy_network.specs.Airs.{IsHeardBy, may_hear};
ghost use Rattle.lossy_network.specs.Store.{datagram_of};

use crate::datagrams::{DatagramRef, Datagrams};
use board_node::Board;
use ipb_base::NoMemory;
use links::LIFETIME;
use packet_codec::{PacketKind, read_head};
use packet_ids::{Id, id_at};
use std::alloc::Global;
use std::marker::Model;
use world_model::Direction;
use world_model::laws::links::a_link_forgets_nothing;

/// A board and every datagram that was ever sent to it or by it, in order, each with its direction and the number of
/// first sends when it was sent. Contracts see it as the board and the air of `world_model`'s links.
#[derive(Drop)]
pub struct Air {
    board: Board,
    first: Id,
    datagrams: Datagrams,
    sent: u64,
}

impl Model for Air {
    ghost use Rattle.world_model.specs.Links.{Told};
    ghost use Rattle.lossy_network.specs.Airs.{told_of, IsCounted};

    ghost Value = { Told };

    ghost view = { told_of };

    ghost invariant = { IsCounted };
}

impl Air {
    /// The air of a board that has executed nothing, with nothing in it.
    pub fn new(alloc: Global, board: Board) -> Air
        requires { bodies_executed board ≡ [] }
        ensures { result ≡ record { board = board; air = [] } }
    {
        Air {
            first: board.next(),
            board,
            datagrams: Datagrams::new(alloc),
            sent: 0,
        }
    }

    /// The board at the end of the air.
    pub fn board(&self) -> &Board
        ensures { result.now ≡ self.now.board }
    {
        &self.board
    }

    /// The board, given back.
    pub fn into_board(self) -> Board
        ensures { result ≡ self.board }
    {
        let Air { board, .. } = self;
        board
    }

    /// How many datagrams there are.
    pub fn len(&self) -> usize
        ensures { result ≡ length self.now.air }
    {
        self.datagrams.len()
    }

    /// How many first sends there were: control packets with the identifier of the place after the last first send.
    pub fn sent(&self) -> u64
        ensures { result ≡ first_sends self.now }
    {
        self.sent
    }

    /// Puts a datagram for the board at the end. Where memory ran out nothing changed.
    pub fn send(&mut self, bytes: &[u8]) -> Result<(), NoMemory>
        ensures sent { OnOk result (self.new ≡ sent_on self.old bytes.now) }
        ensures unchanged { OnErr result (self.new ≡ self.old) }
    {
        self.datagrams.are_few();
        self.sent = put_send(self.first, self.sent, &mut self.datagrams, bytes)?;
        Ok(())
    }

    /// The board hears the datagram at a place, from 0, and its answer is put at the end. `false` where no datagram for
    /// the board is there that is within its lifetime: then nothing changed, and neither where memory ran out.
    pub fn hear(&mut self, place: usize) -> Result<bool, NoMemory>
        ensures heard { IfOk result (λ was.
            IsHeardBy was (heard_by self.old (slice_get self.old.air place)) self.old self.new) }
        ensures unchanged { OnErr result (self.new ≡ self.old) }
    {
        if !is_for(&self.datagrams, place, Direction::ToBoard, self.sent) {
            return Ok(false);
        }
        a_link_forgets_nothing();
        self.datagrams.hear_at(&mut self.board, self.sent, place)?;
        Ok(true)
    }

    /// The datagram at a place, from 0, where it is for the hub and within its lifetime.
    pub fn for_hub(&self, place: usize) -> Option<&[u8]>
        ensures some { IfSome result (λ bytes. IsHandedAt self.now bytes.now place) }
        ensures none { IfNone result ((bytes : List ℕ) → ¬ IsHandedAt self.now bytes place) }
    {
        let Some(datagram) = self.datagrams.get(place) else {
            return None;
        };
        if !may_hear(Direction::ToHub, self.sent, &datagram) {
            return None;
        }
        Some(datagram.bytes)
    }
}

/// Puts a datagram for the board at the end, and counts the first sends.
fn put_send(first: Id, count: u64, air: &mut Datagrams, bytes: &[u8]) -> Result<u64, NoMemory>
    requires { count < 2 ^ 63 }
    ensures counted { IfOk result (λ birth. birth ≡ birth_after first count bytes.now) }
    ensures put { OnOk result (air.new ≡ air.old
        ++ record { direction = ToBoard; bytes = bytes.now; birth = birth_after first count bytes.now } ∷ []) }
    ensures unchanged { OnErr result (air.new ≡ air.old) }
{
    let birth = if is_first_send(first, count, bytes) {
        count + 1
    } else {
        count
    };
    air.push(Direction::ToBoard, bytes, birth)?;
    Ok(birth)
}

/// Whether bytes are the control packet of the place after the last first send.
fn is_first_send(first: Id, count: u64, bytes: &[u8]) -> bool
    requires { count < 2 ^ 63 }
    ensures { result ≡ is_first_send first count ToBoard bytes.now }
{
    match read_head(bytes) {
        Ok(head) => match head.kind {
            PacketKind::Control => head.id == id_at(first, count + 1).get(),
            PacketKind::Status | PacketKind::Resend => false,
        },
        Err(_) => false,
    }
}

/// Whether the datagram at a place may be heard by this side, where there are so many first sends.
fn is_for(air: &Datagrams, place: usize, hearer: Direction, sent: u64) -> bool
    ensures may { result ≡ may_hear hearer sent (slice_get air.now place) }
    ensures there { IsTrue result → place < length air.now }
{
    match air.get(place) {
        Some(datagram) => may_hear(hearer, sent, &datagram),
        None => false,
    }
}

/// Whether a datagram may be heard by this side, where there are so many first sends.
fn may_hear(hearer: Direction, sent: u64, datagram: &DatagramRef<'_>) -> bool
    ensures { result ≡ may_hear hearer sent (Some (datagram_of datagram.now)) }
{
    goes_to(hearer, datagram.direction) && is_alive(sent, datagram)
}

/// Whether a datagram of this direction is for this hearer.
pub fn goes_to(hearer: Direction, direction: Direction) -> bool
    ensures { result ≡ goes_to hearer direction }
{
    match hearer {
        Direction::ToBoard => direction == Direction::ToBoard,
        Direction::ToHub => direction == Direction::ToHub,
    }
}

/// Whether a datagram is within its lifetime, where there are so many first sends.
pub fn is_alive(sent: u64, datagram: &DatagramRef<'_>) -> bool
    ensures { result ≡ is_alive sent (datagram_of datagram.now) }
{
    sent.saturating_sub(datagram.birth) <= LIFETIME
}
