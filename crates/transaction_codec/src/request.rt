ghost use Rattle.std.specs.Prelude.{◌≡◌};
ghost use Rattle.transaction_codec.specs.First.{op_of};

use crate::op_ref::OpRef;
use ipb_base::Words;

/// What a request asks. Addresses and terms are 32-bit; a count or a word list is at most 255 words in a header.
#[derive(Drop, PartialEq, Eq)]
pub enum Op {
    /// Reads `count` words at `base`, `base + 1`, ..
    Read {
        base: u32,
        count: u32,
    },
    /// Reads `count` words, all at `base`.
    ReadPort {
        base: u32,
        count: u32,
    },
    /// Writes the words at `base`, `base + 1`, ..
    Write {
        base: u32,
        words: Words,
    },
    /// Writes the words, all at `base`.
    WritePort {
        base: u32,
        words: Words,
    },
    /// Reads the word X at `base` and writes (X AND `and_term`) OR `or_term`.
    RmwBits {
        base: u32,
        and_term: u32,
        or_term: u32,
    },
    /// Reads the word X at `base` and writes X + `addend` modulo 2^32.
    RmwSum {
        base: u32,
        addend: u32,
    },
}

impl Op {
    /// The operation by reference: its words stay where they stand.
    pub fn as_op_ref(&self) -> OpRef<'_>
        ensures { op_of result ≡ self.now }
    {
        match self {
            Op::Read { base, count } => OpRef::Read {
                base: *base,
                count: *count,
            },
            Op::ReadPort { base, count } => OpRef::ReadPort {
                base: *base,
                count: *count,
            },
            Op::Write { base, words } => OpRef::Write {
                base: *base,
                words: words.as_slice(),
            },
            Op::WritePort { base, words } => OpRef::WritePort {
                base: *base,
                words: words.as_slice(),
            },
            Op::RmwBits {
                base,
                and_term,
                or_term,
            } => OpRef::RmwBits {
                base: *base,
                and_term: *and_term,
                or_term: *or_term,
            },
            Op::RmwSum { base, addend } => OpRef::RmwSum {
                base: *base,
                addend: *addend,
            },
        }
    }
}

/// A request with its transaction identifier, at most 4095 in a header.
#[derive(Drop, PartialEq, Eq)]
pub struct Request {
    pub tid: u16,
    pub op: Op,
}
