//! What a session says of a board: its name, its table, and the link to it. All of it is data.
#![tactic(auto)]

mod ranges;
mod spec;

pub use board_bus::{Range, RangeKind};
pub use ipb_base::Text;
pub use packet_ids::Id;
pub use ranges::Ranges;
pub use spec::{BoardSpec, Fates, LinkSpec};
