//! The command `audit`: the length of a session document, that document and a transcript in, the verdict on the
//! transcript out; or the first rule that the input breaks, as a line that tells it.
//!
//! `audit_terms` of `specs/Terms` says what it owes to its input.
#![tactic(auto)]

mod answers;
mod boards;
pub mod examples;
pub mod laws;
mod lines;
mod parts;
mod reading;
mod refusal;

pub use answers::{audit_answer, refused_input};
pub use command_terms::Answer;
pub use ipb_base::NoMemory;
pub use lines::verdict_line;
pub use reading::{Audited, read_for_audit};
pub use refusal::{AuditRefusal, AuditUnread, MAX_AUDIT, MAX_LENGTH_DIGITS};
pub use run_audit::{AuditWhy, Verdict};
