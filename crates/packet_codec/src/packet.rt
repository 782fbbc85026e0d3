//! What a packet is, and why bytes are none.

ghost use Rattle.std.specs.Prelude.{◌≡◌};
ghost use Rattle.packet_codec.specs.declared.packet.BadPacket.TheVariants.{NoMemory as no_memory};

use ipb_base::{NoMemory, Words};
use std::error::Error;
use std::fmt;

/// The most words of a packet, its header included (profile: what an MTU of 9000 bytes leaves behind the headers of
/// IP and UDP).
pub const MAX_PACKET_WORDS: usize = 2243;

/// The most words of a packet's body (profile).
pub const MAX_BODY_WORDS: usize = MAX_PACKET_WORDS - 1;

/// The order of the bytes of each word of a packet (IPbus 2.0, packet header: the byte-order qualifier).
#[derive(Clone, Copy, PartialEq, Eq)]
pub enum Order {
    /// The most significant byte first, as a hub writes.
    Big,
    /// The least significant byte first.
    Little,
}

impl Order {
    ghost use Rattle.packet_codec.specs.Packet.{word_in_order};
    ghost use Rattle.packet_codec.specs.Reading.{word_from};

    /// The word that four bytes are.
    pub(crate) fn word(self, bytes: [u8; 4]) -> u32
        ensures { result ≡ word_from self bytes }
    {
        match self {
            Order::Big => u32::from_be_bytes(bytes),
            Order::Little => u32::from_le_bytes(bytes),
        }
    }

    /// The four bytes of a word.
    pub(crate) fn bytes(self, word: u32) -> [u8; 4]
        ensures { result ≡ word_in_order self word }
    {
        match self {
            Order::Big => word.to_be_bytes(),
            Order::Little => word.to_le_bytes(),
        }
    }
}

/// The type of a packet (IPbus 2.0, packet header, bits 3 to 0).
#[derive(Clone, Copy, PartialEq, Eq)]
pub enum PacketKind {
    /// Transactions, or the replies to them.
    Control = 0,
    /// A request for the status of a board, or the answer to one.
    Status = 1,
    /// A request to send a reply again.
    Resend = 2,
}

impl PacketKind {
    ghost use Rattle.packet_codec.specs.Header.{kind_code};
    ghost use Rattle.packet_codec.specs.Reading.{known_kind};

    /// The type field of this type (IPbus 2.0, packet header, bits 3 to 0).
    pub fn code(self) -> u8
        ensures { result ≡ kind_code self }
    {
        self as u8
    }

    /// The type with this type field, where it is known.
    pub(crate) fn from_code(code: u8) -> Option<PacketKind>
        ensures { result ≡ known_kind code }
    {
        if code == PacketKind::Control.code() {
            Some(PacketKind::Control)
        } else if code == PacketKind::Status.code() {
            Some(PacketKind::Status)
        } else if code == PacketKind::Resend.code() {
            Some(PacketKind::Resend)
        } else {
            None
        }
    }
}

/// What stands before the body of a packet: what its first word tells (IPbus 2.0, packet header).
#[derive(Clone, Copy, PartialEq, Eq)]
pub struct Head {
    /// The byte order of every word. Only control packets may be little-endian (profile).
    pub order: Order,
    /// The packet identifier, 0 to 0xffff.
    pub id: u16,
    /// The type: what the words after the header are.
    pub kind: PacketKind,
}

/// A packet: its header and the words after it (IPbus 2.0, packet header).
#[derive(Drop, PartialEq, Eq)]
pub struct Packet {
    /// The byte order of every word. Only control packets may be little-endian (profile).
    pub order: Order,
    /// The packet identifier, 0 to 0xffff.
    pub id: u16,
    /// The type: what the words after the header are.
    pub kind: PacketKind,
    /// The words after the header, at most `MAX_BODY_WORDS`.
    pub body: Words,
}

impl Packet {
    ghost use Rattle.packet_codec.specs.Packet.{head_of};

    /// What stands before the body.
    pub fn head(&self) -> Head
        ensures { result ≡ head_of self.now }
    {
        Head {
            order: self.order,
            id: self.id,
            kind: self.kind,
        }
    }
}

/// Why no packet was read (profile): the first of these rules, in this order, that the bytes break, or want of memory.
#[derive(Clone, Copy, Debug, PartialEq, Eq)]
pub enum BadPacket {
    /// There are no bytes.
    Empty,
    /// The length is no multiple of 4 bytes.
    Ragged,
    /// There are more than `MAX_PACKET_WORDS` words.
    Long,
    /// The first word is neither a big-endian packet header, of whatever type, nor the little-endian header of a
    /// control packet.
    Header,
    /// The first word is a big-endian packet header, and its type is none that is known.
    Kind,
    /// The bytes break no rule, but memory for the body ran out.
    NoMemory,
}

impl fmt::Display for BadPacket {
    fn fmt<W: fmt::Write>(&self, f: &mut fmt::Formatter<W>) -> fmt::Result {
        f.write_str(match self {
            BadPacket::Empty => "there are no bytes",
            BadPacket::Ragged => "the length is no multiple of 4 bytes",
            BadPacket::Long => "there are more words than a packet has",
            BadPacket::Header => "the first word is no packet header",
            BadPacket::Kind => "the type of the packet is unknown",
            BadPacket::NoMemory => "out of memory",
        })
    }
}

impl Error for BadPacket {}

impl From<NoMemory> for BadPacket {
    ghost from_gives = { λ _ e. e ≡ no_memory };

    fn from(_error: NoMemory) -> BadPacket {
        BadPacket::NoMemory
    }
}
