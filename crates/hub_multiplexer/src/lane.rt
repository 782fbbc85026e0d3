//! A lane in a board's turn.

use crate::answers::Performed;
use crate::at_hub::AtHub;
use crate::own::{ask_on, is_greeted_once, look_on, step_on, submit_on, tells_its_own, waiter_of};
use hub_lane::{Asked, Lane, Link, NoMemory, PlanRefusal, Stepped, Waiter, Words};

impl<L: Link> AtHub for Lane<L> {
    ghost use Rattle.std.proofs.Common.{refl};
    ghost use Rattle.std.proofs.lemmas.List.{map-append};
    ghost use Rattle.lane_record.specs.Coding.{as_recorded};
    ghost use Rattle.hub_multiplexer.specs.Calls.{lane_manner};

    type Refusal = PlanRefusal;

    ghost manner = { lane_manner };

    fn ask_next(&mut self, client: u32) -> Result<Asked, NoMemory> {
        ask_on(self, client)
    }

    fn step_for(&mut self, client: u32) -> Result<Stepped, NoMemory> {
        step_on(self, client)
    }

    fn look_for(&mut self, client: u32) -> Result<Option<Performed>, NoMemory> {
        look_on(self, client)
    }

    fn submit_for(
        &mut self,
        client: u32,
        body: Words,
        reply_words: u32,
    ) -> Result<u64, PlanRefusal> {
        tells_its_own(self);
        submit_on(self, client, body, reply_words)
    }

    /// A lane is greeted once.
    fn begin_for(&mut self, _client: u32) -> bool {
        is_greeted_once(self);
        false
    }

    fn has_stopped(&self) -> bool {
        self.is_stopped()
    }

    fn waiter_beside(&mut self) -> Option<Waiter> {
        waiter_of(self)
    }

    ghost sound = { record {
      more = λ lane added. record { head = refl; entries = map-append as_recorded lane.items added };
      own_same = λ k seen vain lane. refl;
    } };
}
