//! What the hub came to for a request.

use lane_record::Outcome;

/// Why a body may not be planned: the first rule of planning, in this order, that it breaks.
#[derive(Clone, Copy)]
pub enum BodyRefusal {
    /// Planning was closed before: the lane takes no more bodies.
    Sealed,
    /// The body with its header is longer than a packet of the board.
    TooLong,
    /// Its longest reply with its header is longer than a packet of the board.
    ReplyTooLong,
    /// The lane has as many bodies, or as many words of bodies and replies, as it may have.
    Overfull,
}

/// What the hub came to for a request frame.
#[derive(Drop)]
pub enum Got {
    /// The hub was not asked: the frame has no control packet, there is no such board, or it has no lane.
    NotAsked,
    /// The body may not be planned.
    Refused(BodyRefusal),
    /// What became of the body.
    Came(Outcome),
}
