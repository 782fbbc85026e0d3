ghost use Rattle.std.specs.Prelude.{◌≡◌};
ghost use Rattle.config_store.specs.Refusals.{IsAt};

use ipb_base::{NoMemory, Text};
use std::alloc::{AllocError, AllocFailed, Global};
use std::error::Error;
use std::fmt;

/// The rule that a session or a state breaks (profile), in the order in which the rules are judged.
#[derive(Clone, Copy, Debug, PartialEq, Eq)]
pub enum StoreWhy {
    /// The state is no table of tables of numbers.
    Shape,
    /// A kept register of a board that shares bits of a word with a kept one before it, in byte order of the names.
    Overlap,
    /// The boards keep more than `MAX_KEPT` registers together.
    TooMany,
    /// No board has the name.
    UnknownBoard,
    /// The table of the board has no such register.
    UnknownName,
    /// The register is not kept.
    NotKept,
    /// The value has a bit outside the register's mask.
    BitsOutside,
}

/// Why a configuration is not saved or applied.
#[derive(Debug, Drop)]
pub enum StoreRefusal {
    /// The first rule that is broken, by the names of the board and the register. The register's name is empty where a
    /// board as a whole is meant, and both are where no board is.
    At {
        board: Text,
        name: Text,
        why: StoreWhy,
    },
    /// There was not enough memory.
    NoMemory,
}

impl From<NoMemory> for StoreRefusal {
    ghost use Rattle.config_store.specs.declared.refusal.StoreRefusal.TheVariants.{NoMemory as no_memory};

    ghost from_gives = { λ _ e. e ≡ no_memory };

    fn from(_error: NoMemory) -> StoreRefusal {
        StoreRefusal::NoMemory
    }
}

impl From<AllocError> for StoreRefusal {
    ghost use Rattle.config_store.specs.declared.refusal.StoreRefusal.TheVariants.{NoMemory as no_memory};

    ghost from_gives = { λ _ e. e ≡ no_memory };

    fn from(_error: AllocError) -> StoreRefusal {
        StoreRefusal::NoMemory
    }
}

impl<T: Drop> From<AllocFailed<T>> for StoreRefusal {
    ghost use Rattle.config_store.specs.declared.refusal.StoreRefusal.TheVariants.{NoMemory as no_memory};

    ghost from_gives = { λ _ e. e ≡ no_memory };

    fn from(_error: AllocFailed<T>) -> StoreRefusal {
        StoreRefusal::NoMemory
    }
}

impl fmt::Display for StoreWhy {
    fn fmt<W: fmt::Write>(&self, f: &mut fmt::Formatter<W>) -> fmt::Result {
        f.write_str(match self {
            StoreWhy::Shape => "no number under a register in a table under a board",
            StoreWhy::Overlap => "a kept register that shares bits with an earlier one",
            StoreWhy::TooMany => "too many kept registers",
            StoreWhy::UnknownBoard => "an unknown board",
            StoreWhy::UnknownName => "an unknown register",
            StoreWhy::NotKept => "a register that is not kept",
            StoreWhy::BitsOutside => "a value with a bit outside the mask",
        })
    }
}

impl Error for StoreWhy {}

impl fmt::Display for StoreRefusal {
    fn fmt<W: fmt::Write>(&self, f: &mut fmt::Formatter<W>) -> fmt::Result {
        match self {
            StoreRefusal::At { board, name, why } => {
                write!(f, "state {} {}: {}", board.as_str(), name.as_str(), why)
            }
            StoreRefusal::NoMemory => write!(f, "out of memory"),
        }
    }
}

impl Error for StoreRefusal {}

/// The refusal of a board and a register by a rule.
pub(crate) fn refused_at(alloc: Global, board: &str, name: &str, why: StoreWhy) -> StoreRefusal
    ensures { IsAt board.now name.now why result }
{
    match (Text::copy_of(alloc, board), Text::copy_of(alloc, name)) {
        (Ok(board), Ok(name)) => StoreRefusal::At { board, name, why },
        _ => StoreRefusal::NoMemory,
    }
}
