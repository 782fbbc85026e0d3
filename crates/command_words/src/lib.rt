//! The words of the command line, read by `clap`: the commands of the program, and its usage line.
#![tactic(auto)]

mod command;
pub mod laws;
mod line;

pub use command::{Command, MAX_CONNECTIONS, MAX_OPERATIONS, MAX_PORT, USAGE_LINE, command_of};
pub use ipb_base::{NoMemory, Text};
