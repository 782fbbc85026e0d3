//! What the bytes of a document are to the commands on the configuration of boards: the steps that `save` or `apply`
//! runs, or the first rule that they break, as a line that tells it.
#![tactic(auto)]

pub mod laws;
mod lines;
mod planning;
mod reading;
mod refusal;

pub use ipb_base::{NoMemory, Text};
pub use reading::{read_for_apply, read_for_save};
pub use refusal::{ConfigRefusal, ConfigUnread};
pub use session_input::Runnable;
