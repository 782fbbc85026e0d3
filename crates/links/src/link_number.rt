//! The number of a link among those that its rack made.

ghost use Rattle.std.specs.Prelude.{◌≡◌};

use std::marker::Model;
use std::snapshot::Snapshot;

/// The number of a link among those that its rack made, counted from 0. Contracts see it. Where the program runs it has
/// no byte.
#[derive(Drop)]
pub struct LinkNumber {
    number: Snapshot<usize>,
}

impl Model for LinkNumber {
    ghost use Rattle.std.specs.Prelude.{ℕ};

    ghost Value = { ℕ };

    ghost view = { λ n. n.number.value };
}

impl LinkNumber {
    /// The number of a link that is made after so many others.
    pub fn after(others: usize) -> LinkNumber
        ensures { result ≡ others }
    {
        LinkNumber {
            number: Snapshot::of(&others),
        }
    }
}
