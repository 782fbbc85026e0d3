//! Why a text is no capture, or no description of one.

ghost use Rattle.std.specs.Prelude.{◌≡◌};
ghost use Rattle.capture_reader.specs.declared.refusal.CaptureRefusal.TheVariants.{NoMemory as no_memory};
ghost use Rattle.capture_reader.specs.declared.refusal.Unread.TheVariants.{NoMemory as no_memory_read};

use ipb_base::NoMemory;
use std::alloc::{AllocError, AllocFailed};
use std::error::Error;
use std::fmt;

/// What is wrong with a line of a capture's text: the first rule, in this order, that it breaks (profile).
#[derive(Clone, Copy, Debug, PartialEq, Eq)]
pub enum CaptureWhy {
    /// Line 1 is not `first F` with an identifier F.
    First,
    /// A later line is not `>` or `<`, a space, and two lower-case hexadecimal digits for each byte or `-` for none;
    /// or no line feed ends it.
    Form,
    /// It has more than `MAX_DATAGRAM` bytes.
    Long,
}

impl fmt::Display for CaptureWhy {
    fn fmt<W: fmt::Write>(&self, f: &mut fmt::Formatter<W>) -> fmt::Result {
        f.write_str(match self {
            CaptureWhy::First => "the first line is not that of an identifier",
            CaptureWhy::Form => "the line is not that of a datagram",
            CaptureWhy::Long => "the datagram is too long",
        })
    }
}

impl Error for CaptureWhy {}

/// Why a text is no capture.
#[derive(Clone, Copy, Debug, PartialEq, Eq)]
pub enum CaptureRefusal {
    /// The first faulty line, counted from 1.
    At { line: u64, why: CaptureWhy },
    /// Memory ran out while the text was read.
    NoMemory,
}

impl fmt::Display for CaptureRefusal {
    fn fmt<W: fmt::Write>(&self, f: &mut fmt::Formatter<W>) -> fmt::Result {
        match self {
            CaptureRefusal::At { line, why } => write!(f, "line {line}: {why}"),
            CaptureRefusal::NoMemory => write!(f, "out of memory"),
        }
    }
}

impl Error for CaptureRefusal {}

impl From<NoMemory> for CaptureRefusal {
    ghost from_gives = { λ _ refusal. refusal ≡ no_memory };

    fn from(_error: NoMemory) -> CaptureRefusal {
        CaptureRefusal::NoMemory
    }
}

impl From<AllocError> for CaptureRefusal {
    ghost from_gives = { λ _ refusal. refusal ≡ no_memory };

    fn from(_error: AllocError) -> CaptureRefusal {
        CaptureRefusal::NoMemory
    }
}

impl<T: Drop> From<AllocFailed<T>> for CaptureRefusal {
    ghost from_gives = { λ _ refusal. refusal ≡ no_memory };

    fn from(_error: AllocFailed<T>) -> CaptureRefusal {
        CaptureRefusal::NoMemory
    }
}

/// Why a text is not read as a description.
#[derive(Clone, Copy, Debug, PartialEq, Eq)]
pub enum UndescribeRefusal {
    /// No capture has this description.
    NotDescription,
    /// Memory ran out while the text was read.
    NoMemory,
}

impl fmt::Display for UndescribeRefusal {
    fn fmt<W: fmt::Write>(&self, f: &mut fmt::Formatter<W>) -> fmt::Result {
        f.write_str(match self {
            UndescribeRefusal::NotDescription => "the text is no description of a capture",
            UndescribeRefusal::NoMemory => "out of memory",
        })
    }
}

impl Error for UndescribeRefusal {}

/// Why nothing was read at the front of a text.
#[derive(Clone, Copy, PartialEq, Eq)]
pub(crate) enum Unread {
    /// Something else stands there.
    Other,
    /// Memory ran out while the text was read.
    NoMemory,
}

impl From<NoMemory> for Unread {
    ghost from_gives = { λ _ unread. unread ≡ no_memory_read };

    fn from(_error: NoMemory) -> Unread {
        Unread::NoMemory
    }
}

impl From<AllocError> for Unread {
    ghost from_gives = { λ _ unread. unread ≡ no_memory_read };

    fn from(_error: AllocError) -> Unread {
        Unread::NoMemory
    }
}

impl<T: Drop> From<AllocFailed<T>> for Unread {
    ghost from_gives = { λ _ unread. unread ≡ no_memory_read };

    fn from(_error: AllocFailed<T>) -> Unread {
        Unread::NoMemory
    }
}
