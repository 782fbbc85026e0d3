//! The rule of a turn, as a rule of its table, and the kinds of step.

ghost use Rattle.turn_pass.specs.Steps.{
  first_after_split,
  Gives,
  Loads,
  pass_made,
  spent_view,
  StoresNumber,
  Takes,
  view_joined,
};

use crate::chronicle::Chronicle;
use crate::pass::PassView;
use atomic_table::{Join, Play, Split, TableRule};
use std::snapshot::Snapshot;

/// The rule of a turn, whose table is told the value that the turn opened with.
pub struct TurnRule {}

impl<V: Chronicle> TableRule<Option<V>, PassView, Snapshot<V>> for TurnRule {
    ghost use Rattle.turn_pass.specs.Pass.{first_knowledge};
    ghost use Rattle.turn_pass.specs.Rule.{Turning};
    ghost use Rattle.turn_pass.specs.Rule.Stage.{Idle};
    ghost use Rattle.turn_pass.specs.Steps.{view_at};

    ghost holds = { λ key. Turning V.entries (V.entries key.value) };

    ghost first = { λ key. view_at Idle (first_knowledge (V.entries key.value)) };
}

/// The exchange that takes, or is in vain.
pub struct Take {}

impl<V: Chronicle> Play<Option<V>, PassView> for Take {
    ghost then = { Takes V.entries };
}

/// The holder's load of the number of entries.
pub struct Load {}

impl<V: Chronicle> Play<Option<V>, PassView> for Load {
    ghost then = { Loads };
}

/// The holder's store of the number of entries that it will give.
pub struct Store {}

impl<V: Chronicle> Play<Option<V>, PassView> for Store {
    ghost then = { StoresNumber };
}

/// The exchange that gives.
pub struct Give {}

impl<V: Chronicle> Play<Option<V>, PassView> for Give {
    ghost then = { Gives V.entries };
}

/// The first pass makes one more.
pub struct OneMore {}

impl Split<PassView> for OneMore {
    ghost left = { first_after_split };

    ghost right = { pass_made };
}

/// A pass takes in another, which is spent.
pub struct TakeIn {}

impl Join<PassView> for TakeIn {
    ghost both = { view_joined };

    ghost spent = { spent_view };
}
