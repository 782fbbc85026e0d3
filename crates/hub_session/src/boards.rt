//! What every connection of a hub is served at.

use hub_lane::BoardState;
use hub_multiplexer::{Hub, Link};
use std::marker::Send;

/// A hub, and how the board at each position of its session stands.
#[derive(Drop)]
pub(crate) struct Boards<'h, L: Link + Send> {
    pub(crate) hub: &'h Hub<L>,
    pub(crate) map: &'h [BoardState],
}
