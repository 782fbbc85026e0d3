//! What is called at the turns of a client's run.

use lane_record::Outcome;
use std::marker::Sync;

/// Called by a client's thread between its asks and its answers. It can hold a client, and sees nothing of a lane.
/// Profile.
pub trait Gate: Sync {
    /// The client is to ask so many bodies in so many dispatches, empty ones left out, for so many operations of its
    /// script. Each client is told once, before the first one asks.
    fn planned(&self, client: u32, dispatches: u64, bodies: u64, operations: u64);

    /// The client has asked each of so many bodies of a dispatch, for so many operations of its script, and taken
    /// nothing of it yet.
    fn between(&self, client: u32, bodies: u64, operations: u32);

    /// The client has taken what became of one of these bodies, on this lane.
    fn took(&self, client: u32, lane: usize, outcome: &Outcome);

    /// The client has taken what became of each of these bodies.
    fn answered(&self, client: u32);
}

/// A gate that is always open: it does nothing at any call.
pub struct NoGate;

impl Gate for NoGate {
    fn planned(&self, _client: u32, _dispatches: u64, _bodies: u64, _operations: u64) {}

    fn between(&self, _client: u32, _bodies: u64, _operations: u32) {}

    fn took(&self, _client: u32, _lane: usize, _outcome: &Outcome) {}

    fn answered(&self, _client: u32) {}
}
