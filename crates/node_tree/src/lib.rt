//! Names of registers. Tables of nodes are compiled into an index from dotted names to registers.
#![tactic(auto)]

mod check_modules;
mod compiling;
mod cycles;
mod index;
pub mod laws;
mod limits;
mod name_map;
pub mod overlap_laws;
mod overlapping;
mod refusal;
mod register;
mod tables;
mod walking;

pub use address_table::NoMemory;
pub use compiling::compile;
pub use index::Index;
pub use limits::{MAX_IDS, MAX_NODES};
pub use overlapping::overlap;
pub use refusal::{CompileRefusal, CompileWhy};
pub use register::Register;
pub use tables::Tables;
