//! The session that `load COUNT` generates, its run over the link of a rack, and the summary of the run.
//!
//! Four clients add 1 to one register of one board, COUNT times together, over a link that loses, repeats, delays and
//! reorders datagrams. The definitions that contracts cite are in `specs/`.
#![tactic(auto)]

pub mod answer;
pub mod examples;
pub mod laws;
mod run;
mod run_laws;
mod session;
mod summary;

pub use answer::answer_load;
pub use client_threads::Gate;
pub use ipb_base::NoMemory;
pub use run::{Load, run_load};
pub use session::{GeneratedSession, MAX_COUNT, generated};
pub use session_run::RunFault;
pub use summary::{Summary, all_done, summary_of, summary_of_runs, summary_text};
