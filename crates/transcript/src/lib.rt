//! The lines that a run prints, as a function of the scripts' steps and of what became of each body, and their text.
//!
//! `client_lines` and `board_lines` make the lines of a run from the steps, the bodies that these became
//! (`script_plans`) and their outcomes, and `transcript_text` prints them; `print_runs` prints them one after the other
//! and keeps none. The definitions that contracts cite are in `specs/`: the results and places of operations, the
//! lines, and their bytes.
#![tactic(auto)]

mod boards;
mod body_end;
mod counting;
pub mod examples;
pub mod laws;
mod line;
mod lines;
mod listing;
pub mod place_laws;
mod printing;
mod results;
mod showing;
mod status;
mod text;

pub use boards::board_lines;
pub use body_end::{BodyEnd, Told, answers_in, told_by};
pub use ipb_base::{NoMemory, Text, Words};
pub use lane_record::{Outcome, Outcomes};
pub use line::{BoardLine, LateAnswer, LinePlaces, OpLine, OpResult};
pub use lines::{client_lines, lines_of_clients};
pub use listing::Listing;
pub use printing::{PrintedRuns, print_runs};
pub use status::all_good;
pub use text::{line_text, push_boards, push_result, push_word, transcript_text, verb_text};
