//! A client's place at a hub.

ghost use Rattle.std.specs.Prelude.{◌≡◌, length};
ghost use Rattle.std.specs.List.{AllByRecursion};

use std::marker::Model;
use turn_pass::Pass;

/// A client, from 1, with a pass on each board. The number of each pass is the client's (profile).
#[derive(Drop)]
pub struct Seat {
    pub(crate) client: u32,
    pub(crate) passes: Vec<Pass>,
}

impl Model for Seat {
    ghost use Rattle.std.specs.Prelude.{◌≤◌};
    ghost use Rattle.std.specs.List.{AllByRecursion};
    ghost use Rattle.hub_multiplexer.specs.Seats.{IsIdle, SeatState, knows_of, turns_of};

    ghost Value = { SeatState };

    ghost view = { λ seat. record {
      client = seat.client;
      turns = turns_of seat.passes.items;
      knows = knows_of seat.passes.items;
    } };

    ghost invariant = { λ seat. (1 ≤ seat.client) × AllByRecursion (IsIdle seat.client) seat.passes.items };
}

impl Seat {
    /// The pass on each board has the number of the seat's client, and there is a pass for each turn. It does nothing
    /// when it runs.
    pub fn is_of_its_client(&self)
        ensures numbers { AllByRecursion (λ k. k.number ≡ self.now.client) self.now.knows }
        ensures boards { length self.now.knows ≡ length self.now.turns }
    {
        let _ = &self.client;
    }
}
