//! Who makes the seats, and takes them in.

ghost use Rattle.std.specs.Prelude.{◌≡◌, ◌<◌, ◌+◌, ◌-◌, ◌^◌, ℕ, List, ◌∷◌, length, map, IfOk, OnErr};
ghost use Rattle.turn_pass.specs.Pass.{newcomer, one_more_made};
ghost use Rattle.hub_multiplexer.specs.Ends.{HasTakenIn, HasTakenInEach, IsMaster};
ghost use Rattle.hub_multiplexer.specs.Seats.{IsMasterOf, IsSeatOf, knows_after_join, knows_of, turns_of};

use crate::at_hub::AtHub;
use crate::hub::BoardHub;
use crate::passes::{join_all, split_all};
use crate::seat::Seat;
use hub_lane::NoMemory;
use std::alloc::Global;
use std::marker::Model;
use turn_pass::Pass;

/// The first pass of each board, and of the room for handing the lanes back. It makes the seats, and takes them in.
#[derive(Drop)]
pub struct Master {
    pub(crate) seats: u32,
    pub(crate) passes: Vec<Pass>,
    pub(crate) room: Pass,
}

impl Model for Master {
    ghost use Rattle.std.specs.Prelude.{◌+◌};
    ghost use Rattle.hub_multiplexer.specs.Seats.{MasterState, knows_of, turns_of};

    ghost Value = { MasterState };

    ghost use Rattle.hub_multiplexer.specs.Ends.{IsMaster};

    ghost view = { λ master. record {
      seats = master.seats;
      turns = turns_of master.passes.items;
      room = master.room.turn;
      knows = knows_of master.passes.items;
    } };

    ghost invariant = { λ master. IsMaster master.seats master.passes.items master.room };
}

impl Master {
    /// The master of turns that were just made, and of the room.
    pub(crate) fn of(passes: Vec<Pass>, room: Pass) -> Master
        requires { IsMaster 0 passes.items room }
        ensures { result ≡ record {
          seats = 0;
          turns = turns_of passes.items;
          room = room.turn;
          knows = knows_of passes.items;
        } }
    {
        Master {
            seats: 0,
            passes,
            room,
        }
    }

    /// The master knows of each turn. It does nothing when it runs.
    pub fn knows_each_turn(&self)
        ensures { length self.now.knows ≡ length self.now.turns }
    {
        let _ = &self.seats;
    }

    /// One seat more. Its client is its number among the seats, from 1, and the number of its pass on each board. It
    /// has seen what the master has. Want of memory changes nothing.
    #[tactic(auto, using(crate::proofs::Seats::idle_split, crate::proofs::Seats::master_split, crate::proofs::Seats::turns_split_off, crate::proofs::Seats::turns_after_split, crate::proofs::Seats::knows_split_off, crate::proofs::Seats::knows_after_split))]
    pub fn seat<V: AtHub + Send>(
        &mut self,
        alloc: Global,
        hub: &BoardHub<V>,
    ) -> Result<Seat, NoMemory>
        requires hub { IsMasterOf hub.now self.old }
        requires few { self.old.seats < 2 ^ 32 - 1 }
        ensures seat { IfOk result (λ seat. seat ≡ record {
          client = self.old.seats + 1;
          turns = hub.now.turns;
          knows = map newcomer self.old.knows;
        }) }
        ensures made { IfOk result (λ _. self.new ≡
            record self.old { seats = self.old.seats + 1; knows = map one_more_made self.old.knows }) }
        ensures unchanged { OnErr result (self.new ≡ self.old) }
        ensures taken_in { (n : ℕ) → HasTakenIn n self.old → HasTakenIn n self.new }
    {
        let mut passes = Vec::with_capacity(alloc, hub.turns.len())?;
        let count = u64::from(self.seats) + 1;
        split_all(&hub.turns, &mut self.passes, &mut passes, count);
        self.seats += 1;
        Ok(Seat {
            client: self.seats,
            passes,
        })
    }

    /// Takes a seat in, with all that it had seen and the entries that it made. Seats may be joined in any order.
    #[tactic(auto, using(crate::proofs::Seats::master_joined, crate::proofs::Seats::turns_after_join, crate::proofs::Seats::knows_joined))]
    pub fn join<V: AtHub + Send>(&mut self, hub: &BoardHub<V>, seat: Seat)
        requires hub { IsMasterOf hub.now self.old }
        requires seat { IsSeatOf hub.now seat }
        ensures joined { self.new ≡ record self.old { knows = knows_after_join self.old.knows seat.knows } }
        ensures taken_in { HasTakenIn seat.client self.old → HasTakenIn (seat.client + 1) self.new }
        ensures in_any_order { (clients : List ℕ) → HasTakenInEach clients self.old
            → HasTakenInEach (seat.client ∷ clients) self.new }
    {
        let Seat { client, passes } = seat;
        let count = u64::from(self.seats) + 1;
        join_all(&hub.turns, &mut self.passes, passes, count, client);
    }
}
