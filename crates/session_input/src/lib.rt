//! What the bytes of a session document are to a command: a session whose scripts can run, or the registers of one of
//! its tables, or the first rule that they break, as a line that tells it.
#![tactic(auto)]

pub mod below;
mod checking;
pub mod laws;
mod lines;
mod names;
mod reading;
mod recording;
mod refusal;

pub use checking::{check_buses, indexes_of};
pub use ipb_base::{NoMemory, Text};
pub use reading::{
    Runnable, Stated, compiled, parse_input, read_document, read_for_check, read_for_run,
    read_for_serve, under_policy,
};
pub use recording::read_for_record;
pub use refusal::{MAX_DOCUMENT, Refusal, Unread};
