//! The hub: a turn for each board's lane, or for what serves the board as a lane does.

ghost use Rattle.std.specs.Prelude.{◌≡◌, ◌<◌, ◌+◌, length, map, IfOk, IfErr, OnErr};
ghost use Rattle.transaction_codec.specs.Answer.{reply_room};
ghost use Rattle.turn_pass.specs.Pass.{first_knowledge};
ghost use Rattle.hub_multiplexer.specs.AnyCalls.{AskMeansAs, AskTriedAs, BegunAs, HasSubmittedAs, IsNone, MadeAs};
ghost use Rattle.hub_multiplexer.specs.AnyCalls.{MadeInTimeAs, PerformMeansAs, StepTriedAs};
ghost use Rattle.hub_multiplexer.specs.OwnItems.{HasAskedAll};
ghost use Rattle.hub_multiplexer.specs.Ends.{AreEnded, HasTakenIn};
ghost use Rattle.hub_multiplexer.specs.Seats.{ChangesAt, IsMasterOf, IsSeatOf};

use crate::answers::{AskTry, Performed, StepTry};
use crate::at_hub::AtHub;
use crate::bell::{Bell, bells_of};
use crate::boxed::Boxed;
use crate::master::Master;
use crate::room::{Room, room_for};
use crate::seat::Seat;
use crate::turns::{close_all, open_all};
use crate::{calls, waiting};
use hub_lane::{Asked, Lane, NoMemory, Words};
use std::alloc::Global;
use std::marker::Model;
use std::sync::Wait;
use turn_pass::Turn;

/// A turn for each board's lane, or for what serves the board as a lane does, and one for the room in which these are
/// handed back. Threads share it by `&`, each with a seat of its own. The calls below say "lane" for either.
#[derive(Drop)]
pub struct BoardHub<V: AtHub> {
    pub(crate) turns: Vec<Turn<Boxed<V>>>,
    pub(crate) room: Turn<Room<V>>,
    bells: Vec<Bell>,
}

impl<V: AtHub> Model for BoardHub<V> {
    ghost use Rattle.std.specs.Prelude.{◌≡◌, length};
    ghost use Rattle.hub_multiplexer.specs.Seats.{HubState};

    ghost Value = { HubState };

    ghost view = { λ hub. record { turns = hub.turns.items; room = hub.room } };

    ghost invariant = { λ hub. length hub.bells.items ≡ length hub.turns.items };
}

/// There was no memory for a hub. What was to stand in its turns comes back, in order.
#[derive(Drop)]
pub struct BoardsReturned<V> {
    pub lanes: Vec<V>,
}

/// A hub of lanes.
pub type Hub<L> = BoardHub<Lane<L>>;

/// The lanes of a hub for which there was no memory.
pub type Returned<L> = BoardsReturned<Lane<L>>;

impl<V: AtHub + Send + Drop> BoardHub<V> {
    /// A hub of these lanes, and its master, who has seen their records. Where memory runs out there are as many lanes
    /// as before, with the same records in the same order.
    pub fn new(alloc: Global, mut lanes: Vec<V>) -> Result<(BoardHub<V>, Master), BoardsReturned<V>>
        ensures hub { IfOk result (λ made. IsMasterOf made.0 made.1) }
        ensures boards { IfOk result (λ made. length made.0.turns ≡ length lanes.items) }
        ensures no_seats { IfOk result (λ made. (made.1.seats ≡ 0) × HasTakenIn 1 made.1) }
        ensures master { IfOk result (λ made. made.1.knows ≡ map first_knowledge (map V.entries lanes.items)) }
        ensures returned { IfErr result (λ returned.
            map V.entries returned.lanes.items ≡ map V.entries lanes.items) }
    {
        let Ok((room, room_pass)) = room_for(alloc, lanes.len()) else {
            return Err(BoardsReturned { lanes });
        };
        let Ok(bells) = bells_of(alloc, &mut lanes) else {
            return Err(BoardsReturned { lanes });
        };
        let Ok((turns, passes)) = open_all(alloc, &mut lanes) else {
            return Err(BoardsReturned { lanes });
        };
        let hub = BoardHub { turns, room, bells };
        Ok((hub, Master::of(passes, room_pass)))
    }

    /// Takes the lanes for good, in order, once every seat was joined. It waits for those who hold one. The record of
    /// each lane begins with that at `new` and with all that the joined seats had seen, and past that at `new` it has
    /// only entries of joined seats.
    pub fn finish<R: Wait>(self, rt: &R, master: Master) -> Vec<V>
        requires hub { IsMasterOf self master }
        requires joined { HasTakenIn (master.seats + 1) master }
        ensures { AreEnded master.knows (map V.entries result.items) }
    {
        let BoardHub {
            turns,
            room,
            bells: _bells,
        } = self;
        let Master {
            passes,
            room: room_pass,
            ..
        } = master;
        let mut lanes = room.close(rt, room_pass).into_vec();
        close_all(rt, turns, passes, &mut lanes);
        lanes
    }
}

impl<V: AtHub + Send> BoardHub<V> {
    /// How many boards there are.
    pub fn boards(&self) -> usize
        ensures { result ≡ length self.now.turns }
    {
        self.turns.len()
    }

    /// Whether the link of a board has what waits beside its lane: then a call that waits for something of the board may
    /// sleep until a datagram comes. It never waits.
    pub fn has_waiter(&self, board: usize) -> bool
        requires { board < length self.now.turns }
    {
        self.bells[board].has_waiter()
    }

    /// Asks the seat's next planned body on a board, by one exchange. It never waits. `Busy` where another held the
    /// lane at that exchange. Want of memory adds nothing.
    #[tactic(auto, using(crate::proofs::Boards::idle_at))]
    pub fn try_ask(&self, seat: &mut Seat, board: usize) -> Result<AskTry, NoMemory>
        requires board { board < length self.now.turns }
        requires seat { IsSeatOf self.now seat.old }
        ensures tried { IfOk result (λ tried. ChangesAt board seat.old seat.new (λ k. AskTriedAs V.manner k tried)) }
        ensures looked { OnErr result (ChangesAt board seat.old seat.new (λ k. MadeAs V.manner k IsNone)) }
    {
        let client = seat.client;
        calls::try_ask(
            &self.turns[board],
            &self.bells[board],
            &mut seat.passes[board],
            client,
        )
    }

    /// Takes a board's lane, pumps it once where nothing became of the seat's oldest asked and untaken body yet, takes
    /// what did, and gives the lane back: by one exchange, and it never waits. `Busy` where another held the lane at
    /// that exchange. Want of memory adds nothing, but it may come behind a pump, or leave the lane spent.
    #[tactic(auto, using(crate::proofs::Boards::idle_at))]
    pub fn try_step(&self, seat: &mut Seat, board: usize) -> Result<StepTry, NoMemory>
        requires board { board < length self.now.turns }
        requires seat { IsSeatOf self.now seat.old }
        ensures tried { IfOk result (λ tried. ChangesAt board seat.old seat.new (λ k. StepTriedAs V.manner k tried)) }
        ensures looked { OnErr result (ChangesAt board seat.old seat.new (λ k. MadeAs V.manner k IsNone)) }
    {
        let client = seat.client;
        calls::try_step(
            &self.turns[board],
            &self.bells[board],
            &mut seat.passes[board],
            client,
        )
    }

    /// Asks the seat's next planned body on a board. It waits for the lane. Want of memory adds nothing.
    #[tactic(auto, using(crate::proofs::Boards::idle_at))]
    pub fn ask<R: Wait>(&self, rt: &R, seat: &mut Seat, board: usize) -> Result<Asked, NoMemory>
        requires board { board < length self.now.turns }
        requires seat { IsSeatOf self.now seat.old }
        ensures asked { IfOk result (λ asked.
            ChangesAt board seat.old seat.new (λ k. MadeInTimeAs V.manner k (AskMeansAs V.manner k asked))) }
        ensures looked { OnErr result (ChangesAt board seat.old seat.new (λ k. MadeInTimeAs V.manner k IsNone)) }
    {
        let client = seat.client;
        calls::ask(
            rt,
            &self.turns[board],
            &self.bells[board],
            &mut seat.passes[board],
            client,
        )
    }

    /// Waits until something became of the seat's oldest asked and untaken body on a board, and takes it: beside the
    /// lane where its link has what waits there, and else by steps. It waits for the lane, and goes on as long as the
    /// board does not answer and the hub does not give up. Want of memory adds nothing, but it may come behind a pump,
    /// or leave the lane spent.
    #[tactic(auto, using(crate::proofs::Boards::idle_at))]
    pub fn perform<R: Wait>(
        &self,
        rt: &R,
        seat: &mut Seat,
        board: usize,
    ) -> Result<Performed, NoMemory>
        requires board { board < length self.now.turns }
        requires seat { IsSeatOf self.now seat.old }
        ensures performed { IfOk result (λ performed.
            ChangesAt board seat.old seat.new (λ k. MadeInTimeAs V.manner k (PerformMeansAs V.manner k performed))) }
        ensures looked { OnErr result (ChangesAt board seat.old seat.new (λ k. MadeInTimeAs V.manner k IsNone)) }
    {
        let client = seat.client;
        waiting::perform(
            rt,
            &self.turns[board],
            &self.bells[board],
            &mut seat.passes[board],
            client,
        )
    }

    /// Plans a body on a board for the seat's client, and asks it, and answers its number among the client's bodies,
    /// from 0. `reply_words` is the words of the longest reply to it. It waits for the lane. Every body that was
    /// planned for the client on that board was asked before. A refusal is that of `Lane::plan` on the record found,
    /// and adds nothing; after want of memory the body may stand planned and not asked.
    #[tactic(auto, using(crate::proofs::Boards::idle_at))]
    pub fn submit<R: Wait>(
        &self,
        rt: &R,
        seat: &mut Seat,
        board: usize,
        body: Words,
        reply_words: u32,
    ) -> Result<u64, V::Refusal>
        requires board { board < length self.now.turns }
        requires seat { IsSeatOf self.now seat.old }
        requires reply { reply_words ≡ reply_room body }
        requires all_asked { HasAskedAll seat.old board }
        ensures submitted { IfOk result (λ seq.
            ChangesAt board seat.old seat.new (λ k. MadeInTimeAs V.manner k (HasSubmittedAs V.manner k body seq))) }
        ensures refused { IfErr result (λ why.
            ChangesAt board seat.old seat.new (λ k. MadeInTimeAs V.manner k (V.manner.refuses k body why))) }
    {
        let client = seat.client;
        calls::submit(
            rt,
            &self.turns[board],
            &self.bells[board],
            &mut seat.passes[board],
            client,
            body,
            reply_words,
        )
    }

    /// Begins another greeting of a board where one is due, by an entry of the seat's client that is of no body, and
    /// exchanges what waits beside the board. Whether one began. It waits for the lane, and for the answer to the
    /// greeting. A board whose lane stands in its turn itself was greeted before, and none is due.
    #[tactic(auto, using(crate::proofs::Boards::idle_at))]
    pub fn begin<R: Wait>(&self, rt: &R, seat: &mut Seat, board: usize) -> bool
        requires board { board < length self.now.turns }
        requires seat { IsSeatOf self.now seat.old }
        ensures { ChangesAt board seat.old seat.new (BegunAs V.manner) }
    {
        let client = seat.client;
        calls::begin(
            rt,
            &self.turns[board],
            &self.bells[board],
            &mut seat.passes[board],
            client,
        )
    }
}
