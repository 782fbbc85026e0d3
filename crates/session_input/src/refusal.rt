//! Why a command refuses an input.

ghost use Rattle.std.specs.Prelude.{◌≡◌};

use address_table::{Path, TableWhy};
use board_bus::BusRefusal;
use ipb_base::{NoMemory, Text};
use node_tree::CompileWhy;
use script_lang::{DocWhy, ScriptWhy};
use std::alloc::{AllocError, AllocFailed};

/// The most bytes of a session document (profile).
pub const MAX_DOCUMENT: usize = 16_777_216;

/// Why an input is refused: the first rule that it breaks. The rules are tried in the order of this list (profile).
#[derive(Drop)]
pub enum Refusal {
    /// It has more than `MAX_DOCUMENT` bytes.
    TooLong,
    /// The document breaks a rule outside its tables. The path leads from the document to the place: keys and positions
    /// from 0 with dots between them. It is empty where the document as a whole is at fault.
    Document {
        path: Text,
        why: DocWhy,
    },
    /// The table of this name has a faulty node.
    Table {
        table: Text,
        path: Path,
        why: TableWhy,
    },
    /// The policy is not what it should be. The path leads from its array to the first faulty place; it is empty where the
    /// array itself is at fault.
    Policy {
        path: Text,
    },
    /// A session with a policy is to be served. A policy binds scripts alone.
    NoServe,
    /// A session with several boards is to be recorded. A capture is of one board.
    OneBoard,
    /// The board of this name, whose traffic is to be recorded, is on a network.
    NotSim {
        name: Text,
    },
    /// The tables cannot be compiled. The path is a register's name, or empty where it is the table that is at fault.
    Compile {
        table: Text,
        path: Text,
        why: CompileWhy,
    },
    /// The ranges of the board of this name are no bus.
    Board {
        name: Text,
        why: BusRefusal,
    },
    /// A line of a script, by the numbers from 1 of its client and of itself, breaks a rule.
    Script {
        client: u32,
        line: u32,
        why: ScriptWhy,
    },
}

/// Why an input gives nothing.
#[derive(Drop)]
pub enum Unread {
    Refused(Refusal),
    /// There was not enough memory.
    NoMemory,
}

impl From<NoMemory> for Unread {
    ghost use Rattle.session_input.specs.declared.refusal.Unread.TheVariants.{NoMemory as no_memory};

    ghost from_gives = { λ _ e. e ≡ no_memory };

    fn from(_error: NoMemory) -> Unread {
        Unread::NoMemory
    }
}

impl From<AllocError> for Unread {
    ghost use Rattle.session_input.specs.declared.refusal.Unread.TheVariants.{NoMemory as no_memory};

    ghost from_gives = { λ _ e. e ≡ no_memory };

    fn from(_error: AllocError) -> Unread {
        Unread::NoMemory
    }
}

impl<T: Drop> From<AllocFailed<T>> for Unread {
    ghost use Rattle.session_input.specs.declared.refusal.Unread.TheVariants.{NoMemory as no_memory};

    ghost from_gives = { λ _ e. e ≡ no_memory };

    fn from(_error: AllocFailed<T>) -> Unread {
        Unread::NoMemory
    }
}
