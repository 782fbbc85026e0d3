//! What is said of a transcript that does not fit its session: what the first line at fault shows, and what the rule that it
//! breaks wants there.
#![tactic(auto)]

mod belonging;
mod board_order;
mod differences;
mod judged;
mod line_forms;
mod piece_answers;
mod piece_counts;
mod replayed_line;
mod shown_lines;
mod verdicts;

pub use ipb_base::NoMemory;
pub use judged::Judged;
pub use run_audit::AuditWhy;
pub use verdicts::say_verdict;
