ghost use Rattle.std.specs.Prelude.{◌≡◌};
ghost use Rattle.world_model.specs.declared.moves.WorldEnd.TheVariants.{NoMemory as no_memory};

use ipb_base::{NoMemory, Words};

/// A move of the world of one hub, one board and the air between them.
#[derive(Drop)]
pub enum WorldMove {
    /// A body is offered to the hub.
    Offer { tag: u64, body: Words },
    /// A receive of the hub is quiet. Only where a body has no fate yet.
    Quiet,
    /// The hub hears the datagram at this place in the air, from 0.
    HubHears(usize),
    /// The board hears the datagram at this place in the air, from 0.
    BoardHears(usize),
}

/// Why a list of moves has no end: the first move, from 0, that is not allowed, or want of memory.
#[derive(Clone, Copy, PartialEq, Eq)]
pub enum WorldEnd {
    /// The move names a datagram that this side cannot hear, or a silence that nobody notices.
    NotThere { at: usize },
    /// It was sent too many first sends ago to be heard.
    TooOld { at: usize },
    /// Memory ran out while the moves were copied.
    NoMemory,
}

impl From<NoMemory> for WorldEnd {
    ghost from_gives = { λ _ end. end ≡ no_memory };

    fn from(_error: NoMemory) -> WorldEnd {
        WorldEnd::NoMemory
    }
}
