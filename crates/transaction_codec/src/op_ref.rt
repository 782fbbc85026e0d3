//! Operations whose words stand elsewhere, as in the body that was read. They take no memory.

ghost use Rattle.std.specs.Prelude.{◌≡◌, ◌<◌, ◌≤◌, ◌^◌, IfOk, length};
ghost use Rattle.transaction_codec.specs.Request as of_request;
ghost use Rattle.transaction_codec.specs.Answer as of_answer;
ghost use Rattle.transaction_codec.specs.First.{op_of};

use crate::request::Op;
use crate::transaction_type::{READ, READ_PORT, RMW_BITS, RMW_SUM, WRITE, WRITE_PORT};
use ipb_base::{NoMemory, Words};
use std::alloc::Global;

/// What a request asks, with its words where they stand in the body.
#[derive(Clone, Copy)]
pub enum OpRef<'a> {
    /// Reads `count` words at `base`, `base + 1`, ..
    Read {
        base: u32,
        count: u32,
    },
    /// Reads `count` words, all at `base`.
    ReadPort {
        base: u32,
        count: u32,
    },
    /// Writes the words at `base`, `base + 1`, ..
    Write {
        base: u32,
        words: &'a [u32],
    },
    /// Writes the words, all at `base`.
    WritePort {
        base: u32,
        words: &'a [u32],
    },
    /// Reads the word X at `base` and writes (X AND `and_term`) OR `or_term`.
    RmwBits {
        base: u32,
        and_term: u32,
        or_term: u32,
    },
    /// Reads the word X at `base` and writes X + `addend` modulo 2^32.
    RmwSum {
        base: u32,
        addend: u32,
    },
}

impl OpRef<'_> {
    /// A copy of the operation, with its words in memory of its own. An error means that memory ran out.
    pub fn to_op(&self, alloc: Global) -> Result<Op, NoMemory>
        ensures { IfOk result (λ op. op ≡ op_of self.now) }
    {
        Ok(match *self {
            OpRef::Read { base, count } => Op::Read { base, count },
            OpRef::ReadPort { base, count } => Op::ReadPort { base, count },
            OpRef::Write { base, words } => Op::Write {
                base,
                words: Words::from_vec(words.to_vec(alloc)?),
            },
            OpRef::WritePort { base, words } => Op::WritePort {
                base,
                words: Words::from_vec(words.to_vec(alloc)?),
            },
            OpRef::RmwBits {
                base,
                and_term,
                or_term,
            } => Op::RmwBits {
                base,
                and_term,
                or_term,
            },
            OpRef::RmwSum { base, addend } => Op::RmwSum { base, addend },
        })
    }

    /// The type of the operation, of `transaction_type` (IPbus 2.0, transaction header).
    pub fn kind(&self) -> u8
        ensures value { result ≡ of_request.op_kind (op_of self.now) }
        ensures known { result ≤ RMW_SUM }
    {
        match *self {
            OpRef::Read { .. } => READ,
            OpRef::ReadPort { .. } => READ_PORT,
            OpRef::Write { .. } => WRITE,
            OpRef::WritePort { .. } => WRITE_PORT,
            OpRef::RmwBits { .. } => RMW_BITS,
            OpRef::RmwSum { .. } => RMW_SUM,
        }
    }

    /// How many words it reads or writes. An RMW has one.
    pub fn count(&self) -> usize
        ensures { result ≡ of_request.op_count (op_of self.now) }
    {
        match *self {
            OpRef::Read { count, .. } | OpRef::ReadPort { count, .. } => count as usize,
            OpRef::Write { words, .. } | OpRef::WritePort { words, .. } => words.len(),
            OpRef::RmwBits { .. } | OpRef::RmwSum { .. } => 1,
        }
    }

    /// How many words stand after the header of its request: the address, and the words or terms of a write or an RMW.
    pub fn words_after_header(&self) -> usize
        requires { of_request.op_count (op_of self.now) < 2 ^ 8 }
        ensures { result ≡ length (of_request.op_words (op_of self.now)) }
    {
        match *self {
            OpRef::Read { .. } | OpRef::ReadPort { .. } => 1,
            OpRef::Write { words, .. } | OpRef::WritePort { words, .. } => 1 + words.len(),
            OpRef::RmwBits { .. } => 3,
            OpRef::RmwSum { .. } => 2,
        }
    }

    /// How many words a reply carries that did all of it: those read, none for a write, the word before an RMW.
    pub fn values_done(&self) -> u32
        ensures { result ≡ of_answer.values_done (op_of self.now) }
    {
        match *self {
            OpRef::Read { count, .. } | OpRef::ReadPort { count, .. } => count,
            OpRef::Write { .. } | OpRef::WritePort { .. } => 0,
            OpRef::RmwBits { .. } | OpRef::RmwSum { .. } => 1,
        }
    }
}
