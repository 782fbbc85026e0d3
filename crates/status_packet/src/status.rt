//! The status of a board, and why bytes tell none.

ghost use Rattle.std.specs.Prelude.{◌≡◌};
ghost use Rattle.status_packet.specs.Range.{IsMtu, IsBufferCount};
ghost use Rattle.status_packet.specs.StatusBytes.{status_header};

use packet_codec::{PacketKind, header_word};
use packet_ids::Id;
use std::error::Error;
use std::fmt;

/// The least MTU of a board, in bytes (profile).
pub const MIN_MTU: u32 = 92;

/// The greatest MTU of a board, in bytes (profile).
pub const MAX_MTU: u32 = 9000;

/// The most response buffers of a board (profile).
pub const MAX_BUFFERS: u32 = 64;

/// The length of a status request and of a status reply: 16 words (IPbus 2.0, status packet).
pub const STATUS_BYTES: usize = 64;

/// The length of a re-send request: one word (IPbus 2.0, re-send request packet).
pub const RESEND_BYTES: usize = 4;

/// What a board tells of itself in a status reply (IPbus 2.0, status packet).
#[derive(Clone, Copy, PartialEq, Eq)]
pub struct Status {
    /// The greatest IP packet that the board takes and sends, in bytes, the 28 bytes of the IP and UDP headers
    /// included: 92 to 9000 (profile). So a packet has at most (mtu - 28) / 4 words.
    pub mtu: u32,
    /// How many replies the board keeps to send them again: 1 to 64 (profile).
    pub buffers: u32,
    /// The identifier of the next control packet that the board executes.
    pub next: Id,
    pub ghost mtu_in_range: { IsMtu mtu },
    pub ghost buffers_in_range: { IsBufferCount buffers },
}

/// Why bytes are no status reply (profile): the first rule, in this order, that they break.
#[derive(Clone, Copy, Debug, PartialEq, Eq)]
pub enum BadStatus {
    /// There are not `STATUS_BYTES` bytes.
    Length,
    /// The first word is not the header of a status packet.
    Header,
    /// The MTU or the number of buffers is out of its range, or the fourth word is not the header of a control packet
    /// with an identifier from 1.
    Range,
}

impl fmt::Display for BadStatus {
    fn fmt<W: fmt::Write>(&self, f: &mut fmt::Formatter<W>) -> fmt::Result {
        f.write_str(match self {
            BadStatus::Length => "a status reply has 64 bytes",
            BadStatus::Header => "the first word is not the header of a status packet",
            BadStatus::Range => "the MTU, the buffers or the next header is out of its range",
        })
    }
}

impl Error for BadStatus {}

/// The header of every status packet: identifier 0 and the status type.
pub(crate) fn status_header() -> u32
    ensures { result ≡ status_header }
{
    header_word(0, PacketKind::Status)
}
