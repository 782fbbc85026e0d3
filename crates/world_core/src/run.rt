//! A world while it runs.

ghost use Rattle.std.specs.Prelude.{◌≡◌, ◌≢◌, ◌≤◌, ◌<◌, ◌+◌, ◌^◌, length, true, OnOk, IfErr, Ok, Err};
ghost use Rattle.std.specs.List.{slice_get};
ghost use Rattle.reliable_engine.specs.Answers.{body_count};
ghost use Rattle.world_model.specs.declared.moves.WorldEnd.TheVariants.{NoMemory as no_memory};
ghost use Rattle.packet_codec.specs.declared.packet.TheConstants.{MAX_BODY_WORDS};
ghost use Rattle.world_model.specs.Hub.{hear_quiet, is_waiting, offer};
ghost use Rattle.world_model.specs.Sends.{pending};
ghost use Rattle.world_model.specs.Facts.{IsSendable};
ghost use Rattle.world_model.specs.History.{IsMove};
ghost use Rattle.world_model.specs.World.{flush, go_on, handed_out, step, taken_datagram};
ghost use Rattle.world_core.specs.Runs.{IsShortMove};
ghost use Rattle.links.specs.Messages.{IsWritable};
ghost use Rattle.world_core.specs.Steps.{board_told, end_of, HasSpellings, hub_told, put_into, world_of};

use board_node::Board;
use ipb_base::{NoMemory, Words};
use links::{Message, read_for_hub, write_sending};
use lossy_network::air::{goes_to, is_alive};
use lossy_network::datagrams::Datagrams;
use reliable_engine::{Engine, Fate, Sending};
use std::alloc::Global;
use world_model::laws::sends::{only_an_offer_makes_more_bodies, sends_go_one_by_one};
use world_model::{Direction, WorldEnd, WorldMove};

/// A board, the hub of it, the air between them, and the fates and late answers that were handed out.
#[derive(Drop)]
pub(crate) struct Run {
    pub(crate) board: Board,
    pub(crate) hub: Engine,
    pub(crate) air: Datagrams,
    pub(crate) fates: Vec<(u64, Fate)>,
    pub(crate) lates: Vec<(u64, Words)>,
}

impl Run {
    /// Puts a send into the air.
    fn put(&mut self, alloc: Global, send: Sending) -> Result<(), NoMemory>
        requires { IsWritable self.old.hub send }
        ensures { OnOk result (world_of self.new ≡ put_into (world_of self.old) send) }
    {
        let bytes = write_sending(alloc, &self.hub, send)?;
        let birth = self.hub.sent();
        self.air.push(Direction::ToBoard, &bytes, birth)
    }

    /// Puts all sends that the hub wants into the air.
    fn flush(&mut self, alloc: Global) -> Result<(), NoMemory>
        requires { HasSpellings self.old.hub }
        ensures flushed { OnOk result (world_of self.new ≡ flush (pending self.old.hub) (world_of self.old)) }
        ensures spellings { OnOk result (HasSpellings self.new.hub) }
        ensures counted { OnOk result (body_count self.new.hub ≤ body_count self.old.hub) }
    {
        sends_go_one_by_one();
        only_an_offer_makes_more_bodies();
        while let Some(send) = self.hub.next_send() {
            self.put(alloc, send)?;
        }
        Ok(())
    }

    /// Takes the fates and late answers that the hub hands out.
    fn hand_out(&mut self) -> Result<(), NoMemory>
        ensures handed { OnOk result (world_of self.new ≡ handed_out (world_of self.old)) }
    {
        while let Some(fate) = self.hub.settled() {
            self.fates.push(fate)?;
        }
        while let Some(late) = self.hub.late() {
            self.lates.push(late)?;
        }
        Ok(())
    }

    /// What follows an event of the hub.
    fn go_on(&mut self, alloc: Global) -> Result<(), NoMemory>
        requires { HasSpellings self.old.hub }
        ensures went { OnOk result (world_of self.new
            ≡ handed_out (flush (pending self.old.hub) (world_of self.old))) }
        ensures spellings { OnOk result (HasSpellings self.new.hub) }
        ensures counted { OnOk result (body_count self.new.hub ≤ body_count self.old.hub) }
    {
        self.flush(alloc)?;
        self.hand_out()
    }
}

impl Run {
    /// Whether the datagram at a place in the air may be heard by this side.
    fn check(&self, at: usize, hearer: Direction, place: usize) -> Result<(), WorldEnd>
        ensures { result
            ≡ end_of (taken_datagram at (length self.now.hub.sent) hearer (slice_get self.now.air place)) }
    {
        let Some(datagram) = self.air.get(place) else {
            return Err(WorldEnd::NotThere { at });
        };
        if !goes_to(hearer, datagram.direction) {
            return Err(WorldEnd::NotThere { at });
        }
        if !is_alive(self.hub.sent(), &datagram) {
            return Err(WorldEnd::TooOld { at });
        }
        Ok(())
    }

    /// The hub hears the datagram at a place in the air.
    fn tell_hub(&mut self, alloc: Global, place: usize) -> Result<(), NoMemory>
        requires there { place < length self.old.air }
        requires spellings { HasSpellings self.old.hub }
        ensures told { OnOk result (world_of self.new
            ≡ hub_told (world_of self.old) (slice_get self.old.air place)) }
        ensures spellings { OnOk result (HasSpellings self.new.hub) }
        ensures counted { OnOk result (body_count self.new.hub ≤ body_count self.old.hub) }
    {
        only_an_offer_makes_more_bodies();
        let Some(datagram) = self.air.get(place) else {
            unreachable!();
        };
        match read_for_hub(alloc, datagram.bytes)? {
            Message::Reply { id, words } => {
                self.hub.on_reply(id, words);
            }
            Message::Status(status) => {
                self.hub.on_status(&status);
            }
            Message::Other => {}
        }
        Ok(())
    }

    /// The board hears the datagram at a place in the air, and its answer joins the air.
    fn tell_board(&mut self, place: usize) -> Result<(), NoMemory>
        requires { place < length self.old.air }
        ensures { OnOk result (world_of self.new
            ≡ board_told (world_of self.old) (slice_get self.old.air place)) }
    {
        let sent = self.hub.sent();
        self.air.hear_at(&mut self.board, sent, place)
    }
}

impl Run {
    /// A body is offered to the hub.
    fn offer(&mut self, alloc: Global, tag: u64, body: &[u32]) -> Result<(), NoMemory>
        requires few { body_count self.old.hub < 2 ^ 62 }
        requires spellings { HasSpellings self.old.hub }
        requires short { length body.now ≤ MAX_BODY_WORDS }
        ensures moved { OnOk result (world_of self.new
            ≡ go_on (world_of self.old) (offer self.old.hub (record { tag = tag; body = body.now }))) }
        ensures sendable { IsSendable body.now }
        ensures spellings { OnOk result (HasSpellings self.new.hub) }
        ensures counted { OnOk result (body_count self.new.hub ≤ body_count self.old.hub + 1) }
    {
        only_an_offer_makes_more_bodies();
        let copied = Words::from_vec(Vec::from_slice(alloc, body)?);
        if self.hub.offer(tag, copied).is_err() {
            return Err(NoMemory);
        }
        self.go_on(alloc)
    }

    /// A receive of the hub is quiet.
    fn be_quiet(&mut self, alloc: Global) -> Result<(), NoMemory>
        requires waiting { is_waiting self.old.hub ≡ true }
        requires spellings { HasSpellings self.old.hub }
        ensures moved { OnOk result (world_of self.new ≡ go_on (world_of self.old) (hear_quiet self.old.hub)) }
        ensures spellings { OnOk result (HasSpellings self.new.hub) }
        ensures counted { OnOk result (body_count self.new.hub ≤ body_count self.old.hub) }
    {
        only_an_offer_makes_more_bodies();
        self.hub.on_quiet();
        self.go_on(alloc)
    }

    /// One move, the one of this number.
    pub(crate) fn step(
        &mut self,
        alloc: Global,
        at: usize,
        next: &WorldMove,
    ) -> Result<(), WorldEnd>
        requires few { body_count self.old.hub < 2 ^ 62 }
        requires spellings { HasSpellings self.old.hub }
        requires short { IsShortMove next.now }
        ensures moved { OnOk result (step at (world_of self.old) next.now ≡ Ok (world_of self.new)) }
        ensures refused { IfErr result (λ end. end ≢ no_memory → step at (world_of self.old) next.now ≡ Err end) }
        ensures sendable { OnOk result (IsMove next.now) }
        ensures spellings { OnOk result (HasSpellings self.new.hub) }
        ensures counted { OnOk result (body_count self.new.hub ≤ body_count self.old.hub + 1) }
    {
        match next {
            WorldMove::Offer { tag, body } => {
                self.offer(alloc, *tag, body.as_slice())?;
            }
            WorldMove::Quiet => {
                if !self.hub.waiting() {
                    return Err(WorldEnd::NotThere { at });
                }
                self.be_quiet(alloc)?;
            }
            WorldMove::HubHears(place) => {
                self.check(at, Direction::ToHub, *place)?;
                self.tell_hub(alloc, *place)?;
                self.go_on(alloc)?;
            }
            WorldMove::BoardHears(place) => {
                self.check(at, Direction::ToBoard, *place)?;
                self.tell_board(*place)?;
            }
        }
        Ok(())
    }
}
