ghost use Rattle.std.specs.Prelude.{◌≡◌};

use address_table::{NoMemory, Text};
use std::error::Error;
use std::fmt;

/// The rule that tables break when they are compiled (profile), in the order in which the rules are judged.
#[derive(Clone, Copy, Debug, PartialEq, Eq)]
pub enum CompileWhy {
    /// A node has a module that is no table, or the root is no table.
    UnknownModule,
    /// A table leads to itself through modules.
    ModuleCycle,
    /// The name after the first `MAX_NODES` names of the walk from the root.
    TooMany,
    /// A name of `MAX_IDS` ids and one more.
    TooDeep,
    /// An earlier sibling has the node's id, indexes left aside; told at the first index.
    Duplicate,
    /// The address, or the last address of a block, is past 0xffffffff.
    AddressPastEnd,
}

/// Why tables were not compiled.
#[derive(Debug, Drop)]
pub enum CompileRefusal {
    /// The first rule that is broken. For the rules of modules this is told of the first such table in byte order, with
    /// an empty path; for the others `table` is the root and `path` the first faulty name, with its indexes.
    At {
        table: Text,
        path: Text,
        why: CompileWhy,
    },
    /// There was not enough memory.
    NoMemory,
}

impl From<NoMemory> for CompileRefusal {
    ghost use Rattle.node_tree.specs.declared.refusal.CompileRefusal.TheVariants.{NoMemory};

    ghost from_gives = { λ _ e. e ≡ NoMemory };

    fn from(_error: NoMemory) -> CompileRefusal {
        CompileRefusal::NoMemory
    }
}

impl fmt::Display for CompileWhy {
    fn fmt<W: fmt::Write>(&self, f: &mut fmt::Formatter<W>) -> fmt::Result {
        f.write_str(match self {
            CompileWhy::UnknownModule => "an unknown table",
            CompileWhy::ModuleCycle => "a table that leads to itself",
            CompileWhy::TooMany => "too many names",
            CompileWhy::TooDeep => "a name of too many ids",
            CompileWhy::Duplicate => "an id that an earlier sibling has",
            CompileWhy::AddressPastEnd => "an address past 0xffffffff",
        })
    }
}

impl Error for CompileWhy {}

impl fmt::Display for CompileRefusal {
    fn fmt<W: fmt::Write>(&self, f: &mut fmt::Formatter<W>) -> fmt::Result {
        match self {
            CompileRefusal::At { table, path, why } => {
                write!(f, "table {} {}: {}", table.as_str(), path.as_str(), why)
            }
            CompileRefusal::NoMemory => write!(f, "out of memory"),
        }
    }
}

impl Error for CompileRefusal {}
