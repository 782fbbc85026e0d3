use ipb_base::Words;
use packet_codec::Order;

/// What a board did with a datagram.
#[derive(Clone, Copy, PartialEq, Eq)]
pub enum Heard {
    /// A control packet was executed and answered.
    Replied,
    /// A status request was answered (IPbus 2.0, status packet).
    StatusSent,
    /// A stored reply was sent again (IPbus 2.0, re-send request packet).
    Resent,
    /// Nothing was executed and nothing was answered.
    Dropped(DropCause),
}

/// Why a board dropped a datagram: the first of these rules that applies.
#[derive(Clone, Copy, PartialEq, Eq)]
pub enum DropCause {
    /// The bytes are no packet, or a status or re-send packet of another length or form (profile).
    NotPacket,
    /// The control packet, or the longest reply to it, is longer than the board's MTU allows (profile).
    TooLong,
    /// The identifier is not 0 and not the one that the board expects next (IPbus 2.0, reliability mechanism).
    OtherId,
    /// The reply that is asked for is not among the last ones, as many as the board has buffers (IPbus 2.0, re-send
    /// request packet).
    NotHeld,
}

/// A control packet that a board executed.
#[derive(Drop)]
pub struct LogEntry {
    /// Whether the packet had the expected identifier, and not 0.
    pub numbered: bool,
    /// The byte order of the packet, in which it was answered.
    pub order: Order,
    /// The words after its header.
    pub body: Words,
}
