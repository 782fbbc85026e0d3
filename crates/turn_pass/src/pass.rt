//! What a thread shows to take its turn.

ghost use Rattle.std.specs.Prelude.{◌≡◌, false, [], ◌∷◌};
ghost use Rattle.turn_pass.specs.PassInside.{view_of};
ghost use Rattle.turn_pass.specs.Rule.Stage.{Idle};
ghost use Rattle.turn_pass.specs.Steps.{view_at};

use atomic_table::Badge;
use std::marker::Model;

/// What a pass knows, among the passes of its turn. It is there for contracts alone: no value of it is made.
pub struct PassView {}

impl Model for PassView {
    ghost use Rattle.turn_pass.specs.Rule.{View};
    ghost use Rattle.turn_pass.specs.Steps.{spent_view};

    ghost Value = { View };

    ghost view = { λ _. spent_view };
}

/// A pass of a turn. The first pass of a turn has number 0, and also keeps how many passes were made.
///
/// Contracts see which turn it is of, whether it holds the value, its number, the record that it has seen, the entries
/// that it made itself, the count of its exchanges in vain, and the passes that it took in.
#[derive(Drop)]
pub struct Pass {
    pub(crate) number: u32,
    pub(crate) made: u64,
    pub(crate) badge: Badge<PassView>,
}

impl Model for Pass {
    ghost use Rattle.turn_pass.specs.Pass.{PassState};

    ghost Value = { PassState };

    ghost use Rattle.turn_pass.specs.PassInside.{state_of, IsWhole};

    ghost view = { state_of };

    ghost invariant = { IsWhole };
}

impl Pass {
    /// The number of the pass, below 2^32.
    pub fn number(&self) -> u32
        ensures { result ≡ self.now.knows.number }
    {
        self.number
    }

    /// The pass of a badge that was made with these numbers.
    pub(crate) fn of(number: u32, made: u64, badge: Badge<PassView>) -> Pass
        requires view { badge.views ≡ view_of badge.views ∷ [] }
        requires idle { view_of badge.views ≡ view_at Idle (view_of badge.views).knows }
        requires numbers { ((view_of badge.views).knows.number ≡ number) × ((view_of badge.views).knows.made ≡ made) }
        ensures { result ≡
            record { turn = badge.table_id; holds = false; knows = (view_of badge.views).knows } }
    {
        Pass {
            number,
            made,
            badge,
        }
    }
}
