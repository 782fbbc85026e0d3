//! What every crate of the hub speaks of: want of memory, 32-bit words, kept texts and the version of the protocol.
//!
//! The definitions that several crates cite, of words, of lists, of counted faults and of shared numbers, are in
//! `specs/`. Types over a vector or a string, here and above, are seen by contracts as a list, and are made and given
//! back without taking memory.
#![tactic(auto)]

mod digits;
pub mod laws;
mod no_memory;
mod text;
mod version;
mod words;

pub use digits::number_in_text;
pub use no_memory::NoMemory;
pub use text::Text;
pub use version::VERSION;
pub use words::Words;
