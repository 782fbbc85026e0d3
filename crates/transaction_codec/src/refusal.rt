ghost use Rattle.std.specs.Prelude.{◌≡◌};
ghost use Rattle.transaction_codec.specs.declared.refusal.BadWords.TheVariants.{NoMemory as no_memory};

use ipb_base::NoMemory;
use std::alloc::{AllocError, AllocFailed};
use std::error::Error;
use std::fmt;

/// What is wrong at a header: the first rule, in this order, that is broken.
#[derive(Clone, Copy, Debug, PartialEq, Eq)]
pub enum Why {
    /// The version is not 2.
    Version,
    /// The type is above 5; or a reply has code 1 and a type other than 0.
    Kind,
    /// The info code is not 15 in a request; not one of 0, 1, 4, 5, 6, 7 in a reply.
    Code,
    /// The words field is wrong: in the request of an RMW it must be 1, and in its reply 1 beside code 0 and 0 beside
    /// every other; in any reply it must be 0 beside code 1.
    Count,
    /// The words end before the transaction does.
    Short,
}

impl fmt::Display for Why {
    fn fmt<W: fmt::Write>(&self, f: &mut fmt::Formatter<W>) -> fmt::Result {
        f.write_str(match self {
            Why::Version => "the version is not 2",
            Why::Kind => "the type is not one that may stand there",
            Why::Code => "the info code is not one that may stand there",
            Why::Count => "the number of words does not go with the type and the info code",
            Why::Short => "the words end before the transaction does",
        })
    }
}

impl Error for Why {}

/// Why words are not a list of requests, or of replies.
#[derive(Clone, Copy, Debug, PartialEq, Eq)]
pub enum BadWords {
    /// The first faulty header, by its place in words from 0.
    At { place: u64, why: Why },
    /// Memory ran out for what was read.
    NoMemory,
}

impl fmt::Display for BadWords {
    fn fmt<W: fmt::Write>(&self, f: &mut fmt::Formatter<W>) -> fmt::Result {
        match self {
            BadWords::At { place, why } => write!(f, "word {place}: {why}"),
            BadWords::NoMemory => write!(f, "out of memory"),
        }
    }
}

impl Error for BadWords {}

impl From<NoMemory> for BadWords {
    ghost from_gives = { λ _ bad. bad ≡ no_memory };

    fn from(_error: NoMemory) -> BadWords {
        BadWords::NoMemory
    }
}

impl From<AllocError> for BadWords {
    ghost from_gives = { λ _ bad. bad ≡ no_memory };

    fn from(_error: AllocError) -> BadWords {
        BadWords::NoMemory
    }
}

impl<T: Drop> From<AllocFailed<T>> for BadWords {
    ghost from_gives = { λ _ bad. bad ≡ no_memory };

    fn from(_error: AllocFailed<T>) -> BadWords {
        BadWords::NoMemory
    }
}
