//! Session documents: TOML read into a session of tables, boards and scripts, or the first fault of the document.
#![tactic(auto)]

mod aside;
mod boards;
mod call;
mod command;
mod compile;
mod document;
mod fields;
mod keys;
pub mod laws;
mod line;
mod named;
mod refusal;
mod script_refusal;
mod scripts;
mod session;
mod steps;
mod tables;
mod tally;
mod texts;
mod using;
mod walk;

pub use aside::take_key;
pub use board_specs::{BoardSpec, Fates, LinkSpec, Ranges};
pub use compile::compile_scripts;
pub use document::{parse_document, read_session, read_session_table};
pub use ipb_base::{NoMemory, Text};
pub use refusal::{DocWhy, MAX_BOARDS, MAX_CLIENTS, SessionRefusal};
pub use script_refusal::{MAX_LINES, ScriptRefusal, ScriptWhy};
pub use script_steps::{MAX_BLOCK_WORDS, MAX_OPERATIONS, RegOp, Step, Steps, Verb};
pub use session::{Boards, Script, Scripts, Session};
pub use steps::PathStep;
pub use texts::decimal_between;
pub use world_model::Settings;
