//! A berth in a board's turn.

use crate::answers::BerthRefusal;
use crate::berth::Berth;
use crate::for_client::{ask_for, begin_for, look_for, step_for, submit_for, waiter_of};
use hub_lane::{Asked, Link, NoMemory, Stepped, Waiter, Words};
use hub_multiplexer::{AtHub, Performed};

impl<L: Link + Drop> AtHub for Berth<L> {
    ghost use Rattle.std.proofs.Common.{◌++◌, ◌∙◌, List, ap, append_assoc, map, refl, sym};
    ghost use Rattle.std.proofs.lemmas.List.{map-append};
    ghost use Rattle.turn_pass.specs.Record.{Recorded};
    ghost use Rattle.lane_record.specs.Coding.{as_recorded};
    ghost use Rattle.board_berth.specs.Manner.{berth_manner};

    type Refusal = BerthRefusal;

    ghost manner = { berth_manner };

    fn ask_next(&mut self, client: u32) -> Result<Asked, NoMemory> {
        ask_for(self, client)
    }

    fn step_for(&mut self, client: u32) -> Result<Stepped, NoMemory> {
        step_for(self, client)
    }

    fn look_for(&mut self, client: u32) -> Result<Option<Performed>, NoMemory> {
        look_for(self, client)
    }

    fn submit_for(
        &mut self,
        client: u32,
        body: Words,
        reply_words: u32,
    ) -> Result<u64, BerthRefusal> {
        submit_for(self, client, body, reply_words)
    }

    /// A greeting begins where another is wanted and nothing of the present one is open.
    fn begin_for(&mut self, client: u32) -> bool {
        begin_for(self, client)
    }

    fn has_stopped(&self) -> bool {
        self.is_stopped()
    }

    fn waiter_beside(&mut self) -> Option<Waiter> {
        waiter_of(self)
    }

    ghost sound = { record {
      more = λ lane added. record {
        head = refl;
        entries = ap (λ (l : List Recorded). lane.front ++ l) (map-append as_recorded lane.items added)
            ∙ sym (append_assoc lane.front (map as_recorded lane.items) (map as_recorded added));
      };
      own_same = λ k seen vain lane. refl;
    } };
}
