//! What became of a client's bodies, lane by lane.

ghost use Rattle.std.specs.Prelude.{◌≡◌, ◌∷◌};
ghost use Rattle.session_run.specs.Parts.{HasNext};

use client_threads::ClientResult;
use lane_record::Outcomes;
use std::marker::Model;
use std::vec::IntoIter;

/// What became of a client's bodies on the lanes that are left, in order. Contracts see that list.
#[derive(Drop)]
pub(crate) struct RestOutcomes {
    lanes: IntoIter<Outcomes>,
}

impl Model for RestOutcomes {
    ghost use Rattle.std.specs.Prelude.{List};
    ghost use Rattle.std.specs.Vec.Iter.{into_iter_items};
    ghost use Rattle.lane_record.specs.declared.outcome.Outcome.{Outcome};

    ghost Value = { List (List Outcome) };

    ghost view = { λ rest. into_iter_items rest.lanes };
}

impl RestOutcomes {
    /// The outcomes of a client on all lanes, of which none is taken yet.
    pub(crate) fn of(client: ClientResult) -> RestOutcomes
        ensures { result ≡ client.lanes }
    {
        RestOutcomes {
            lanes: client.lanes.into_vec().into_iter(),
        }
    }

    /// Takes the outcomes of the client on the next lane.
    pub(crate) fn next(&mut self) -> Outcomes
        requires { HasNext self.old }
        ensures { self.old ≡ result ∷ self.new }
    {
        let Some(outcomes) = self.lanes.next() else {
            unreachable!()
        };
        outcomes
    }
}
