//! What the calls of a lane answer.

ghost use Rattle.std.specs.Prelude.{◌≡◌};
ghost use Rattle.hub_lane.specs.declared.answers.PlanRefusal.TheVariants.{NoMemory as no_memory};

use ipb_base::NoMemory;
use lane_record::Outcome;

/// Why a body was not planned (profile): the first rule, in this order, that it breaks.
#[derive(Clone, Copy, PartialEq, Eq)]
pub enum PlanRefusal {
    /// Planning was closed before: the lane takes no more bodies.
    Sealed,
    /// The body with its header is longer than a packet of the board.
    TooLong,
    /// Its longest reply with its header is longer than a packet of the board.
    ReplyTooLong,
    /// The lane has as many bodies, or as many words of bodies and replies, as it may have.
    Overfull,
    /// Memory ran out, and the lane is as it was.
    NoMemory,
}

impl From<NoMemory> for PlanRefusal {
    ghost from_gives = { λ _ refusal. refusal ≡ no_memory };

    fn from(_error: NoMemory) -> PlanRefusal {
        PlanRefusal::NoMemory
    }
}

/// Whether a body was offered to the engine.
#[derive(Clone, Copy, PartialEq, Eq)]
pub enum Asked {
    /// The client's body of this number was.
    Asked(u64),
    /// All planned bodies of the client were asked before.
    Nothing,
}

/// What a pump came to.
#[derive(Clone, Copy, PartialEq, Eq)]
pub enum Pumped {
    /// The reply of an open place came, and settled it.
    Reply { place: u64 },
    /// A status reply came that a round of the recovery waited for.
    Status,
    /// A datagram came that is neither of these.
    Stray,
    /// No datagram came in the time that the link waits.
    Quiet,
    /// Nobody waits for a body, and nothing was received.
    Idle,
    /// The link failed, now or before.
    LinkDown,
}

/// What a client took.
#[derive(Drop)]
pub enum Taken {
    /// What became of the body.
    Ready(Outcome),
    /// Nothing became of it yet.
    NotYet,
}

/// How a board stands to a session.
#[derive(Clone, Copy, PartialEq, Eq)]
pub enum BoardState {
    /// It answered the greeting; its lane has this number.
    Lane(u32),
    /// It did not answer.
    Silent,
    /// Its link failed at the greeting.
    Down,
}
