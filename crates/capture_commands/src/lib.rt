//! The commands `describe` and `undescribe`: the text of a capture in, its description out, and the other way round; or
//! the first rule that the input breaks, as a line that tells it.
//!
//! `describe_terms` and `undescribe_terms` of `specs/Terms` say what they owe to their input.
#![tactic(auto)]

mod answers;
pub mod examples;
pub mod laws;
mod lines;
mod reading;
mod refusal;

pub use answers::{describe_answer, refused_text, undescribe_answer};
pub use capture_reader::{Capture, CaptureWhy};
pub use command_terms::Answer;
pub use ipb_base::NoMemory;
pub use reading::{read_for_describe, read_for_undescribe};
pub use refusal::{MAX_CAPTURE, TextRefusal, Unread};
