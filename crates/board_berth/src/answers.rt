//! What the calls of a berth answer.

use hub_lane::PlanRefusal;

/// Why a body was not planned (profile).
#[derive(Clone, Copy, PartialEq, Eq)]
pub enum BerthRefusal {
    /// The board did not answer the present greeting.
    Silent,
    /// The link failed at the present greeting.
    Down,
    /// The berth wants another greeting, and some body is still to be asked or taken.
    Later,
    /// The lane of the present greeting refuses it.
    ByLane(PlanRefusal),
}

/// What a new greeting came to.
#[derive(Clone, Copy, PartialEq, Eq)]
pub enum Begun {
    /// The board told its status.
    Answered,
    /// It told no status in any round.
    Silent,
    /// The link failed before the board told its status.
    Down,
}

/// Why no new greeting stands.
#[derive(Clone, Copy, PartialEq, Eq)]
pub enum NotBegun {
    /// Some body of the present greeting is still to be asked or taken.
    Busy,
    /// The record has as many entries as a berth begins a greeting with.
    Full,
    /// The link has no other link to the board.
    NoLink,
    /// Memory ran out before the board told its status, or for its lane. Status requests may have been sent.
    NoMemory,
}
