//! A connection of a client, served under one seat of a hub: its request frames are answered one by one, as they
//! came, and the answers to frames that came together are written together.
#![tactic(auto)]

mod answering;
mod asking;
mod boards;
mod codes;
pub mod examples;
mod got;
pub mod laws;
mod progress;
mod served;
mod session;

pub use codes::{
    BAD_PACKET, BODY_TOO_LONG, LINK_LOST, NO_BOARD, OVERFULL, REPLIED, REPLY_TOO_LONG, TIMED_OUT,
    UNSENT,
};
pub use got::{BodyRefusal, Got};
pub use hub_lane::BoardState;
pub use served::{Served, SessionEnd};
pub use session::serve_one;
