//! What a text shows of a session.

ghost use Rattle.std.specs.Prelude.{◌≡◌};

use ipb_base::NoMemory;
use std::alloc::{AllocError, AllocFailed};
use std::marker::Model;
use transcript::{BoardLine, LinePlaces, OpResult};

/// What the line of an operation shows: what it came to, and its places. Contracts see the pair.
#[derive(Drop)]
pub struct ShownOp {
    pub result: OpResult,
    pub places: LinePlaces,
}

impl Model for ShownOp {
    ghost use Rattle.transcript.specs.Lines.{Showing};

    ghost Value = { Showing };

    ghost view = { λ shown. (shown.result, shown.places) };
}

/// What the lines of a client show, in their order. Contracts see that list.
#[derive(Drop)]
pub struct ShownOps {
    items: Vec<ShownOp>,
}

impl Model for ShownOps {
    ghost use Rattle.std.specs.Prelude.{List};
    ghost use Rattle.transcript.specs.Lines.{Showing};

    ghost Value = { List Showing };

    ghost view = { λ shown. shown.items.items };
}

impl ShownOps {
    /// What is in a vector, in its order. It takes no memory.
    pub fn from_vec(items: Vec<ShownOp>) -> ShownOps
        ensures { result ≡ items.items }
    {
        ShownOps { items }
    }

    /// What the lines show, in order.
    pub fn as_slice(&self) -> &[ShownOp]
        ensures { result.now ≡ self.now }
    {
        self.items.as_slice()
    }
}

/// What the lines of each client show, client 1 first. Contracts see that list.
#[derive(Drop)]
pub struct ShownClients {
    items: Vec<ShownOps>,
}

impl Model for ShownClients {
    ghost use Rattle.std.specs.Prelude.{List};
    ghost use Rattle.transcript.specs.Lines.{Showing};

    ghost Value = { List (List Showing) };

    ghost view = { λ shown. shown.items.items };
}

impl ShownClients {
    /// The clients of a vector, in its order. It takes no memory.
    pub fn from_vec(items: Vec<ShownOps>) -> ShownClients
        ensures { result ≡ items.items }
    {
        ShownClients { items }
    }

    /// The clients, in order.
    pub fn as_slice(&self) -> &[ShownOps]
        ensures { result.now ≡ self.now }
    {
        self.items.as_slice()
    }
}

/// The lines of boards, in board order. Contracts see that list.
#[derive(Drop)]
pub struct BoardLines {
    items: Vec<BoardLine>,
}

impl Model for BoardLines {
    ghost use Rattle.std.specs.Prelude.{List};
    ghost use Rattle.transcript.specs.declared.line.BoardLine.{BoardLine};

    ghost Value = { List BoardLine };

    ghost view = { λ lines. lines.items.items };
}

impl BoardLines {
    /// The lines of a vector, in its order. It takes no memory.
    pub fn from_vec(items: Vec<BoardLine>) -> BoardLines
        ensures { result ≡ items.items }
    {
        BoardLines { items }
    }

    /// The lines, in order.
    pub fn as_slice(&self) -> &[BoardLine]
        ensures { result.now ≡ self.now }
    {
        self.items.as_slice()
    }
}

/// What a text shows of a session.
#[derive(Drop)]
pub struct Shown {
    /// What each operation of each client shows, denied or not.
    pub clients: ShownClients,
    /// The lines of the boards.
    pub boards: BoardLines,
}

/// Why a text shows nothing of a session.
#[derive(Clone, Copy, PartialEq, Eq)]
pub enum Unshown {
    /// This line, from 1, is the first that may not stand there, is missing, or is left over.
    At { line: u32 },
    /// There was not enough memory.
    NoMemory,
}

impl From<NoMemory> for Unshown {
    ghost use Rattle.transcript_reader.specs.declared.shown.Unshown.TheVariants.{NoMemory as no_memory};

    ghost from_gives = { λ _ unshown. unshown ≡ no_memory };

    fn from(_error: NoMemory) -> Unshown {
        Unshown::NoMemory
    }
}

impl From<AllocError> for Unshown {
    ghost use Rattle.transcript_reader.specs.declared.shown.Unshown.TheVariants.{NoMemory as no_memory};

    ghost from_gives = { λ _ unshown. unshown ≡ no_memory };

    fn from(_error: AllocError) -> Unshown {
        Unshown::NoMemory
    }
}

impl<T: Drop> From<AllocFailed<T>> for Unshown {
    ghost use Rattle.transcript_reader.specs.declared.shown.Unshown.TheVariants.{NoMemory as no_memory};

    ghost from_gives = { λ _ unshown. unshown ≡ no_memory };

    fn from(_error: AllocFailed<T>) -> Unshown {
        Unshown::NoMemory
    }
}
