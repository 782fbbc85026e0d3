//! Why scripts are not run.

ghost use Rattle.std.specs.Prelude.{◌≡◌};

use ipb_base::NoMemory;
use std::alloc::{AllocError, AllocFailed};

/// The most lines of all scripts of a session (profile).
pub const MAX_LINES: u64 = 200_000;

/// The rule that a line breaks (profile). Where a line breaks several, the first of this list is told.
#[derive(Clone, Copy, PartialEq, Eq)]
pub enum ScriptWhy {
    /// The words are no line of a script.
    BadLine,
    /// No board has that name.
    UnknownBoard,
    /// The board's table has no such register.
    UnknownName,
    /// The register may not be used so.
    NoPermission,
    /// The register is hierarchical.
    WrongMode,
    /// A block of more words than its register holds. A port of size 1 takes a block of any length.
    PastSize,
    /// The value has a bit outside the mask.
    BitsOutside,
    /// The register has a mask that leaves out a bit, and the operation is of a block, `rmwbits` or `rmwsum`.
    NotWhole,
    /// With this line the session has more than `MAX_LINES` lines, `MAX_OPERATIONS` operations or `MAX_BLOCK_WORDS`
    /// words in block operations.
    TooMany,
}

/// Why scripts were not compiled.
#[derive(Clone, Copy, PartialEq, Eq)]
pub enum ScriptRefusal {
    /// The first faulty line, by the numbers from 1 of its client and of itself in the client's script, and the first
    /// rule that it breaks.
    At {
        client: u32,
        line: u32,
        why: ScriptWhy,
    },
    /// There was not enough memory.
    NoMemory,
}

impl From<NoMemory> for ScriptRefusal {
    ghost use Rattle.script_lang.specs.declared.script_refusal.ScriptRefusal.TheVariants.{NoMemory as no_memory};

    ghost from_gives = { λ _ e. e ≡ no_memory };

    fn from(_error: NoMemory) -> ScriptRefusal {
        ScriptRefusal::NoMemory
    }
}

impl From<AllocError> for ScriptRefusal {
    ghost use Rattle.script_lang.specs.declared.script_refusal.ScriptRefusal.TheVariants.{NoMemory as no_memory};

    ghost from_gives = { λ _ e. e ≡ no_memory };

    fn from(_error: AllocError) -> ScriptRefusal {
        ScriptRefusal::NoMemory
    }
}

impl<T: Drop> From<AllocFailed<T>> for ScriptRefusal {
    ghost use Rattle.script_lang.specs.declared.script_refusal.ScriptRefusal.TheVariants.{NoMemory as no_memory};

    ghost from_gives = { λ _ e. e ≡ no_memory };

    fn from(_error: AllocFailed<T>) -> ScriptRefusal {
        ScriptRefusal::NoMemory
    }
}
