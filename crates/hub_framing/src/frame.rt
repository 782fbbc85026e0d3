use std::marker::Model;

/// The least number in the length field of a request frame: four bytes for the board and four of a packet (profile).
pub const MIN_FRAME_LENGTH: u32 = 8;

/// The greatest number in the length field of a request frame: four bytes for the board and the longest packet
/// (profile).
pub const MAX_FRAME_LENGTH: u32 = 8976;

/// The most bytes of a packet in a frame: those of the 2243 words that a packet has at most (profile).
pub const MAX_PACKET_BYTES: usize = 8972;

/// A request frame: a client asks for the reply of a board to a packet. Contracts see both fields, the packet as the
/// list of its bytes.
#[derive(Drop)]
pub struct Frame {
    /// The position of the board in the session, from 0.
    pub board: u32,
    /// The bytes of the packet, 4 to 8972 of them.
    pub packet: Vec<u8>,
}

impl Model for Frame {
    ghost use Rattle.hub_framing.specs.Frames.{RequestFrame};

    ghost Value = { RequestFrame };

    ghost view = { λ f. record { board = f.board; packet = f.packet.items } };
}
