ghost use Rattle.std.specs.Prelude.{◌≡◌};
ghost use Rattle.reply_join.specs.declared.refusal.JoinRefusal.TheVariants.{NoMemory as no_memory};

use ipb_base::NoMemory;
use std::alloc::{AllocError, AllocFailed};
use std::error::Error;
use std::fmt;

/// Why a reply was not joined to a body.
#[derive(Clone, Copy, Debug, PartialEq, Eq)]
pub enum JoinRefusal {
    /// The words are no reply to this body (IPbus 2.0, transactions). `place`, in words from 0, is that of the first
    /// wrong word, and the number of words where one is missing.
    Garbled { place: u64 },
    /// Memory ran out for the words that were read.
    NoMemory,
}

impl fmt::Display for JoinRefusal {
    fn fmt<W: fmt::Write>(&self, f: &mut fmt::Formatter<W>) -> fmt::Result {
        match self {
            JoinRefusal::Garbled { place } => write!(f, "word {place} is not that of a reply"),
            JoinRefusal::NoMemory => write!(f, "out of memory"),
        }
    }
}

impl Error for JoinRefusal {}

impl From<NoMemory> for JoinRefusal {
    ghost from_gives = { λ _ refusal. refusal ≡ no_memory };

    fn from(_error: NoMemory) -> JoinRefusal {
        JoinRefusal::NoMemory
    }
}

impl From<AllocError> for JoinRefusal {
    ghost from_gives = { λ _ refusal. refusal ≡ no_memory };

    fn from(_error: AllocError) -> JoinRefusal {
        JoinRefusal::NoMemory
    }
}

impl<T: Drop> From<AllocFailed<T>> for JoinRefusal {
    ghost from_gives = { λ _ refusal. refusal ≡ no_memory };

    fn from(_error: AllocFailed<T>) -> JoinRefusal {
        JoinRefusal::NoMemory
    }
}
