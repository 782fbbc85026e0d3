//! A board's configuration as text: which of its registers are kept, the lines of scripts that read and write them, and
//! the text of the values that were read.
//!
//! `save_lines` and `apply_lines` make a client's script of a session's boards, `state_text` makes a text of what its
//! reads showed, and `read_state` reads the values of such a text. The definitions that contracts cite are in `specs/`.
#![tactic(auto)]

mod checking;
pub mod examples;
mod kept;
pub mod laws;
mod limits;
mod lines;
mod overlapping;
mod reading;
mod refusal;
mod state;
mod text;

pub use ipb_base::{NoMemory, Text};
pub use limits::MAX_KEPT;
pub use lines::{apply_lines, save_lines};
pub use reading::{missing_state, read_state};
pub use refusal::{StoreRefusal, StoreWhy};
pub use state::{State, StateEntry};
pub use text::state_text;
