use crate::Bytes;

/// Where a datagram goes.
#[derive(Clone, Copy, PartialEq, Eq)]
pub enum Direction {
    /// From the hub to the board.
    ToBoard,
    /// From the board to the hub.
    ToHub,
}

/// A datagram that was sent. It stays in the air for good: to lose it is not to hear it.
#[derive(Drop)]
pub struct Datagram {
    /// Who hears the datagram, hub or board.
    pub direction: Direction,
    /// What it carries: one packet, where the sender keeps to the protocol.
    pub bytes: Bytes,
    /// How many first sends to the board there were when it was sent, itself counted.
    pub birth: u64,
}
