ghost use Rattle.std.specs.Prelude.{◌≡◌};

use std::alloc::{AllocError, AllocFailed};
use std::error::Error;
use std::fmt;
use std::marker::Model;

/// Where a node stands in a table: the positions from 0 that lead to it from the top. Contracts see it as that list.
/// The path of the table itself is empty.
#[derive(Debug, Drop)]
pub struct Path {
    positions: Vec<u64>,
}

impl Model for Path {
    ghost use Rattle.std.specs.Prelude.{List, ℕ};

    ghost Value = { List ℕ };

    ghost view = { λ path. path.positions.items };
}

impl Path {
    /// The path with these positions. It takes no memory.
    pub fn from_vec(positions: Vec<u64>) -> Path
        ensures { result ≡ positions.items }
    {
        Path { positions }
    }

    /// The positions of this path, the outermost first.
    pub fn as_slice(&self) -> &[u64]
        ensures { result.now ≡ self.now }
    {
        self.positions.as_slice()
    }

    /// The positions of this path. It takes no memory.
    pub fn into_vec(self) -> Vec<u64>
        ensures { result.items ≡ self }
    {
        let Path { positions } = self;
        positions
    }
}

/// The rule of the format that a node breaks (profile). Where a node breaks several, the first of this list is told.
#[derive(Clone, Copy, Debug, PartialEq, Eq)]
pub enum TableWhy {
    /// The table is no array, the node is no TOML table, a key has a value of another kind than it should, or `module`
    /// stands beside `nodes`.
    Shape,
    /// A key that no node of the table's format has. `count` and `stride` are keys of format 2.
    UnknownKey,
    /// There is no `id`.
    MissingId,
    /// An id that is not 1 to `MAX_ID_BYTES` letters, digits, `_` or `-`.
    BadId,
    /// The value of `address`, `mask`, `size`, `count` or `stride` is out of form, or takes more than 32 bits.
    BadNumber,
    /// A mask of 0.
    BadMask,
    /// The permission is none of `r`, `w` and `rw`.
    BadPermission,
    /// An unknown mode, or a block or port whose mask leaves out a bit.
    BadMode,
    /// A size of 0 or past `MAX_WORDS`, or one other than 1 on a single or hierarchical node.
    BadSize,
    /// A count of 0 or past `MAX_INDEXES`, a stride of 0, or a stride without a count.
    BadCount,
}

/// Why a table was not read.
#[derive(Debug, Drop)]
pub enum TableRefusal {
    /// The first faulty node, each node before its children, and the first rule that it breaks.
    At { path: Path, why: TableWhy },
    /// There was not enough memory.
    NoMemory,
}

impl From<AllocError> for TableRefusal {
    ghost use Rattle.address_table.specs.declared.refusal.TableRefusal.TheVariants.{NoMemory};

    ghost from_gives = { λ _ e. e ≡ NoMemory };

    fn from(_error: AllocError) -> TableRefusal {
        TableRefusal::NoMemory
    }
}

impl<T: Drop> From<AllocFailed<T>> for TableRefusal {
    ghost use Rattle.address_table.specs.declared.refusal.TableRefusal.TheVariants.{NoMemory};

    ghost from_gives = { λ _ e. e ≡ NoMemory };

    fn from(_error: AllocFailed<T>) -> TableRefusal {
        TableRefusal::NoMemory
    }
}

impl From<crate::NoMemory> for TableRefusal {
    ghost use Rattle.address_table.specs.declared.refusal.TableRefusal.TheVariants.{NoMemory};

    ghost from_gives = { λ _ e. e ≡ NoMemory };

    fn from(_error: crate::NoMemory) -> TableRefusal {
        TableRefusal::NoMemory
    }
}

impl fmt::Display for TableWhy {
    fn fmt<W: fmt::Write>(&self, f: &mut fmt::Formatter<W>) -> fmt::Result {
        f.write_str(match self {
            TableWhy::Shape => "a value of another kind",
            TableWhy::UnknownKey => "a key that no node of this format has",
            TableWhy::MissingId => "no id",
            TableWhy::BadId => "an id out of form",
            TableWhy::BadNumber => "no number of 32 bits",
            TableWhy::BadMask => "a mask of 0",
            TableWhy::BadPermission => "an unknown permission",
            TableWhy::BadMode => "an unknown mode, or a mask that it does not take",
            TableWhy::BadSize => "a size that the mode does not take",
            TableWhy::BadCount => "a count or a stride out of range, or a stride alone",
        })
    }
}

impl Error for TableWhy {}

impl fmt::Display for TableRefusal {
    fn fmt<W: fmt::Write>(&self, f: &mut fmt::Formatter<W>) -> fmt::Result {
        match self {
            TableRefusal::At { path, why } => write!(f, "node {:?}: {}", path.as_slice(), why),
            TableRefusal::NoMemory => write!(f, "out of memory"),
        }
    }
}

impl Error for TableRefusal {}
