//! Register tables as a document writes them: an array of nodes, each a TOML table. `read_table` turns a parsed value
//! into a `Table`, or names the first faulty node and the rule that it breaks.
#![tactic(auto)]

mod copies;
mod keys;
mod kinds;
pub mod laws;
mod limits;
mod nodes;
mod numbers;
mod read;
mod refusal;

pub use ipb_base::{NoMemory, Text, number_in_text};
pub use keys::is_id;
pub use kinds::{Mode, Permission};
pub use limits::{MAX_ID_BYTES, MAX_INDEXES, MAX_WORDS};
pub use nodes::{Node, Table};
pub use numbers::number;
pub use read::read_table;
pub use refusal::{Path, TableRefusal, TableWhy};
