//! The values of a configuration.

ghost use Rattle.std.specs.Prelude.{◌≡◌};

use ipb_base::Text;
use std::marker::Model;

/// A value for a register (profile).
#[derive(Drop)]
pub struct StateEntry {
    /// The name of the board.
    pub board: Text,
    /// The register's name in the board's table.
    pub name: Text,
    /// The field under the register's mask.
    pub value: u32,
}

/// Values for registers, in byte order of the boards' names and then of the registers'. Contracts see that list.
#[derive(Drop)]
pub struct State {
    entries: Vec<StateEntry>,
}

impl Model for State {
    ghost use Rattle.std.specs.Prelude.{List};
    ghost use Rattle.config_store.specs.declared.state.StateEntry.{StateEntry};

    ghost Value = { List StateEntry };

    ghost view = { λ state. state.entries.items };
}

impl State {
    /// The values of a vector, in its order. It takes no memory.
    pub(crate) fn from_vec(entries: Vec<StateEntry>) -> State
        ensures { result ≡ entries.items }
    {
        State { entries }
    }

    /// The values, in order.
    pub fn as_slice(&self) -> &[StateEntry]
        ensures { result.now ≡ self.now }
    {
        self.entries.as_slice()
    }
}
