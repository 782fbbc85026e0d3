//! Why a document gives no session.

ghost use Rattle.std.specs.Prelude.{◌≡◌};

use address_table::TableRefusal;
use ipb_base::{NoMemory, Text};
use std::alloc::{AllocError, AllocFailed};

/// The most boards of a session (profile).
pub const MAX_BOARDS: usize = 16;

/// The most clients of a session (profile).
pub const MAX_CLIENTS: usize = 64;

/// The rule that a document breaks (profile), in the order in which they are told.
#[derive(Clone, Copy, PartialEq, Eq)]
pub enum DocWhy {
    /// The bytes are no TOML text.
    NotToml,
    /// A value is not what stands under its key, the table has no such key, or a key that it needs is left out.
    Shape,
    /// There is no board.
    NoBoards,
    /// There are more than `MAX_BOARDS` boards.
    ManyBoards,
    /// There are more than `MAX_CLIENTS` clients.
    ManyClients,
    /// A board has the name of an earlier one.
    DuplicateBoard,
}

/// Why a document was not read: its first fault.
#[derive(Drop)]
pub enum SessionRefusal {
    /// A fault of the document outside its tables. The path leads from the document to the place of the fault: keys as
    /// they are and positions from 0, with dots between them. It is empty where the document as a whole is at fault.
    Document { path: Text, why: DocWhy },
    /// A fault in the table of this name.
    Table { table: Text, refusal: TableRefusal },
    /// There was not enough memory.
    NoMemory,
}

impl From<NoMemory> for SessionRefusal {
    ghost use Rattle.script_lang.specs.declared.refusal.SessionRefusal.TheVariants.{NoMemory as no_memory};

    ghost from_gives = { λ _ e. e ≡ no_memory };

    fn from(_error: NoMemory) -> SessionRefusal {
        SessionRefusal::NoMemory
    }
}

impl From<AllocError> for SessionRefusal {
    ghost use Rattle.script_lang.specs.declared.refusal.SessionRefusal.TheVariants.{NoMemory as no_memory};

    ghost from_gives = { λ _ e. e ≡ no_memory };

    fn from(_error: AllocError) -> SessionRefusal {
        SessionRefusal::NoMemory
    }
}

impl<T: Drop> From<AllocFailed<T>> for SessionRefusal {
    ghost use Rattle.script_lang.specs.declared.refusal.SessionRefusal.TheVariants.{NoMemory as no_memory};

    ghost from_gives = { λ _ e. e ≡ no_memory };

    fn from(_error: AllocFailed<T>) -> SessionRefusal {
        SessionRefusal::NoMemory
    }
}
