//! What the clients of a run share.

use hub_multiplexer::{Hub, Link};
use std::alloc::Global;

/// What the clients of a run share: the runtime by which a thread waits, where their memory comes from, the hub, and
/// what is called at their turns.
#[derive(Drop)]
pub(crate) struct Context<'a, R, L: Link, G> {
    pub(crate) rt: &'a R,
    pub(crate) alloc: Global,
    pub(crate) hub: &'a Hub<L>,
    pub(crate) gate: &'a G,
}
