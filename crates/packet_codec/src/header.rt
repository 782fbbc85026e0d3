//! The packet header: version, packet identifier, byte-order qualifier and type in one word.

ghost use Rattle.std.specs.Prelude.{◌≡◌, ℕ, ◌^◌, ◌<◌, IfSome, Some};
ghost use Rattle.packet_codec.specs.Header.{packet_header, kind_code};
ghost use Rattle.packet_codec.specs.Reading.{header_of};

use crate::packet::PacketKind;
use ipb_base::VERSION;

/// The byte-order qualifier, in bits 7 to 4 of a header (IPbus 2.0, packet header).
pub(crate) const BYTE_ORDER_QUALIFIER: u32 = 0xf;

/// The two fields of a packet header that differ from packet to packet (IPbus 2.0, packet header).
#[derive(Clone, Copy, PartialEq, Eq)]
pub struct Header {
    /// The packet identifier, 0 to 0xffff.
    pub id: u16,
    /// The type field, 0 to 15. Types above 2 are unknown.
    pub kind: u8,
}

/// The header of a packet (IPbus 2.0, packet header).
pub fn header_word(id: u16, kind: PacketKind) -> u32
    ensures { result ≡ packet_header id (kind_code kind) }
{
    VERSION << 28 | u32::from(id) << 8 | BYTE_ORDER_QUALIFIER << 4 | u32::from(kind.code())
}

/// The fields of a word that is a packet header of some type, known or not (IPbus 2.0, packet header).
pub fn read_header(word: u32) -> Option<Header>
    ensures range { IfSome result (λ header. header.kind < 2 ^ 4) }
    ensures found { IfSome result (λ header. word ≡ packet_header header.id header.kind) }
    ensures only { (id kind : ℕ) → id < 2 ^ 16 → kind < 2 ^ 4 → word ≡ packet_header id kind
        → result ≡ Some (record { id = id; kind = kind }) }
{
    fields_of(word)
}

/// The fields of a word that is a packet header, by its bits.
pub(crate) fn fields_of(word: u32) -> Option<Header>
    ensures { result ≡ header_of word }
{
    // Eight bits: the version, and four bits that are zero.
    let version = word >> 24;
    let qualifier = word >> 4 & 0xf;
    if version != VERSION << 4 || qualifier != BYTE_ORDER_QUALIFIER {
        return None;
    }
    Some(Header {
        id: (word >> 8 & 0xffff) as u16,
        kind: (word & 0xf) as u8,
    })
}
