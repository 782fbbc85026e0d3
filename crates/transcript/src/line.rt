//! The lines of a transcript.

ghost use Rattle.std.specs.Prelude.{◌≡◌};

use ipb_base::{Text, Words};
use script_steps::Verb;
use std::marker::Model;

/// What a late answer tells of an operation whose piece was timed out: what its line would show, were this piece all of
/// it and had the reply come in time (profile).
#[derive(Drop)]
pub enum LateAnswer {
    /// The words that a read gave, or the field of its word under the register's mask.
    Value(Words),
    /// A write was done.
    Done,
    /// A read-modify-write was done, and this was the word before.
    Was(u32),
    /// The transaction answered this info code after so many words (IPbus 2.0, transactions).
    Error { code: u8, after: u8 },
    /// An earlier transaction of the same body failed, so it was not executed.
    Skipped,
    /// The reply is none to the body.
    Garbled,
}

/// What an operation came to (profile).
#[derive(Drop)]
pub enum OpResult {
    /// A read gave these words, or the field of its word under the register's mask.
    Value(Words),
    /// A write was done.
    Done,
    /// A read-modify-write was done, and this was the word before.
    Was(u32),
    /// A transaction answered this info code after so many words (IPbus 2.0, transactions).
    Error { code: u8, after: u8 },
    /// An earlier transaction of the same body failed, so it was not executed.
    Skipped,
    /// The hub gave up after so many rounds: whether it was executed is not known.
    TimedOut { rounds: u8 },
    /// The hub gave up after so many rounds, and then the reply came: this is the answer to the first piece that was
    /// not done, alone.
    Late { rounds: u8, answer: LateAnswer },
    /// It was never sent.
    Unsent,
    /// The link failed before the reply came.
    LinkLost,
    /// The reply is none to the body.
    Garbled,
    /// The rule of this number of an access policy denies it, so nothing of it was sent; 0 where no rule decides.
    Denied { rule: u32 },
}

/// The places of an operation's pieces in the order of its board, each with the number of the transaction in its body,
/// from 1. Contracts see the list of these pairs.
#[derive(Drop)]
pub struct LinePlaces {
    items: Vec<(u64, u16)>,
}

impl Model for LinePlaces {
    ghost use Rattle.std.specs.Prelude.{List, ℕ};

    ghost Value = { List (ℕ × ℕ) };

    ghost view = { λ places. places.items.items };
}

impl LinePlaces {
    /// The places of a vector, in its order. It takes no memory.
    pub fn from_vec(items: Vec<(u64, u16)>) -> LinePlaces
        ensures { result ≡ items.items }
    {
        LinePlaces { items }
    }

    /// The vector of these places. It takes no memory.
    pub fn into_vec(self) -> Vec<(u64, u16)>
        ensures { result.items ≡ self }
    {
        let LinePlaces { items } = self;
        items
    }

    /// The places, in order.
    pub fn as_slice(&self) -> &[(u64, u16)]
        ensures { result.now ≡ self.now }
    {
        self.items.as_slice()
    }
}

/// The line of an operation (profile).
#[derive(Drop)]
pub struct OpLine {
    /// Its number among the operations of its client, from 1.
    pub number: u32,
    pub verb: Verb,
    /// The name of the board, as the document has it.
    pub board: Text,
    /// The name of the register, as the script has it.
    pub name: Text,
    pub result: OpResult,
    /// The places of its pieces that have one, in order.
    pub places: LinePlaces,
}

/// The line of a board (profile).
#[derive(Drop)]
pub enum BoardLine {
    /// A live board: how many bodies were sent first, and how many of them were replied to, timed out, or were lost
    /// with the link.
    Live {
        name: Text,
        sent: u64,
        replied: u64,
        timed_out: u64,
        lost: u64,
    },
    /// The board did not answer the greeting.
    Silent {
        name: Text,
    },
    /// The link failed in the greeting.
    Down {
        name: Text,
    },
}
