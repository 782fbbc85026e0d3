//! The boards of a document over the links of a rack. They are greeted in order, and from then on each stands in its
//! place (`Standing`): live, silent or down. The lanes of the live ones go to a hub together, and come back together.
//!
//! What a lane keeps at the exit of every call is all that the history of its board rests on (`sound_lanes`). The
//! definitions that contracts cite are in `specs/`.
#![tactic(auto)]

mod closing;
mod greeting;
pub mod sound_lanes;
mod standing;

pub use closing::close_lane;
pub use greeting::{greet_boards, is_out_of_memory, keep_all};
pub use standing::{Standing, is_at_hub, put_back, standing_of, states_of, take_lanes};
