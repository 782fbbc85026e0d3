//! What the program says on standard error at its end: what to look for where words are no command or an input is
//! refused, what a policy denied, what of a configuration was read and is not as it was given, what was done where the text could not be written, and a page of help. No contract speaks of these texts.
#![tactic(auto)]

mod audits;
mod captures;
mod closing;
mod config_text;
mod configurations;
mod denials;
mod document_lines;
mod document_ways;
mod given_values;
mod help;
mod keys;
mod node_faults;
mod parsing;
mod provenance;
mod refusals;
mod script_lines;
mod script_words;
mod seams;
mod sentences;
mod shape_faults;
mod shown_values;
mod state_faults;
mod state_overlaps;
mod statuses;
mod summaries;
mod unmatched_rules;
mod unread;
mod usage;

pub use closing::{Ending, asks_version, closing_notes, most_given, most_written};
pub use command_words::{Command, command_of};
pub use ipb_base::NoMemory;
pub use provenance::{MAX_PROVENANCE, Provenance, provenance_notes};
pub use statuses::MEMORY_NOTE;
