//! Laws of the definitions. These functions do nothing when they run: their clauses are what is proved.

ghost use Rattle.std.specs.Prelude.{◌≡◌, ℕ, ◌+◌, ◌/◌, ◌%◌, ◌<◌, ◌^◌, List, [], ◌∷◌, length, slice_index, Some};
ghost use Rattle.std.specs.Prelude.{Ok, Err};
ghost use Rattle.ipb_base.specs.Numbers.{greatest_payload};
ghost use Rattle.ipb_base.specs.Word.{AreWords, big_endian};
ghost use Rattle.packet_codec.specs.Packet.{AreBytes, IsPacket, in_order, packet_bytes};
ghost use Rattle.packet_codec.specs.Faults.{HasAllowedHeader, HasUnknownKind};
ghost use Rattle.packet_codec.specs.Header.{packet_header};
ghost use Rattle.packet_codec.specs.Reading.{header_of, packet_of, words_of, head_read};
ghost use Rattle.packet_codec.specs.declared.header.Header.{Header};
ghost use Rattle.packet_codec.specs.declared.packet.Packet.{Packet};
ghost use Rattle.packet_codec.specs.declared.packet.Order.{Order};
ghost use Rattle.packet_codec.specs.declared.packet.Order.TheVariants.{Big, Little};
ghost use Rattle.packet_codec.specs.declared.packet.PacketKind.TheVariants.{Control};
ghost use Rattle.packet_codec.specs.declared.packet.BadPacket.TheVariants.{Ragged};

use crate::header::BYTE_ORDER_QUALIFIER;
use crate::packet::{MAX_BODY_WORDS, MAX_PACKET_WORDS};

/// The most words of a packet and of its body, and the byte-order qualifier.
pub fn the_numbers_of_a_packet()
    ensures words { MAX_PACKET_WORDS ≡ greatest_payload }
    ensures body { MAX_BODY_WORDS + 1 ≡ MAX_PACKET_WORDS }
    ensures qualifier { BYTE_ORDER_QUALIFIER ≡ 0xf }
{}

/// A control packet with identifier 1 that reads the word at address 4, in both byte orders.
pub fn a_control_packet_in_both_orders()
    ensures big { packet_bytes (record { order = Big; id = 1; kind = Control; body = 0x2000010f ∷ 4 ∷ [] })
        ≡ 0x20 ∷ 0 ∷ 1 ∷ 0xf0 ∷ 0x20 ∷ 0 ∷ 1 ∷ 0x0f ∷ 0 ∷ 0 ∷ 0 ∷ 4 ∷ [] }
    ensures little { packet_bytes (record { order = Little; id = 1; kind = Control; body = 0x2000010f ∷ 4 ∷ [] })
        ≡ 0xf0 ∷ 1 ∷ 0 ∷ 0x20 ∷ 0x0f ∷ 1 ∷ 0 ∷ 0x20 ∷ 4 ∷ 0 ∷ 0 ∷ 0 ∷ [] }
{}

/// The head of that packet is read before its body, in both byte orders; and where half a word stands after it, the
/// bytes spell no packet, and have no head.
#[tactic(auto, unfolding(crate::specs::Reading::packet_of, crate::specs::Reading::start_of))]
pub fn a_head_before_a_body()
    ensures big { head_read (packet_of (0x20 ∷ 0 ∷ 1 ∷ 0xf0 ∷ 0x20 ∷ 0 ∷ 1 ∷ 0x0f ∷ 0 ∷ 0 ∷ 0 ∷ 4 ∷ []))
        ≡ Ok (record { order = Big; id = 1; kind = Control }) }
    ensures little { head_read (packet_of (0xf0 ∷ 1 ∷ 0 ∷ 0x20 ∷ 0x0f ∷ 1 ∷ 0 ∷ 0x20 ∷ 4 ∷ 0 ∷ 0 ∷ 0 ∷ []))
        ≡ Ok (record { order = Little; id = 1; kind = Control }) }
    ensures ragged { head_read (packet_of (0x20 ∷ 0 ∷ 1 ∷ 0xf0 ∷ 0x20 ∷ 0 ∷ [])) ≡ Err Ragged }
{}

/// The big-endian order is that of `big_endian`.
pub fn big_endian_words()
    ensures { (words : List ℕ) → in_order Big words ≡ big_endian words }
{}

/// The first byte of a packet tells its order.
pub fn the_first_byte_tells_the_order()
    ensures big { (packet : Packet) → IsPacket packet → packet.order ≡ Big
        → slice_index (packet_bytes packet) 0 ≡ 0x20 }
    ensures little { (packet : Packet) → IsPacket packet → packet.order ≡ Little
        → slice_index (packet_bytes packet) 0 ≡ 0xf0 }
{}

/// Bytes that begin with no allowed header, or with one of an unknown type.
pub fn headers_that_are_refused()
    ensures unknown { HasUnknownKind (0x20 ∷ 0 ∷ 1 ∷ 0xf3 ∷ []) }
    ensures little_endian_status { ¬ HasAllowedHeader (0xf1 ∷ 1 ∷ 0 ∷ 0x20 ∷ []) }
{}

/// No two packets have one spelling.
pub fn a_spelling_is_of_one_packet()
    ensures { (one other : Packet) → IsPacket one → IsPacket other
        → packet_bytes one ≡ packet_bytes other → one ≡ other }
{}

/// Reading by the words of a packet is the grammar of packets, both ways: what is spelled is read, and what is read is
/// spelled so. So are the fields of a header.
pub fn reading_is_the_grammar()
    ensures again { (packet : Packet) → IsPacket packet → packet_of (packet_bytes packet) ≡ Ok packet }
    ensures found { (bytes : List ℕ) (packet : Packet) → AreBytes bytes → packet_of bytes ≡ Ok packet
        → IsPacket packet × (bytes ≡ packet_bytes packet) }
    ensures header { (id kind : ℕ) → id < 2 ^ 16 → kind < 2 ^ 4
        → header_of (packet_header id kind) ≡ Some (record { id = id; kind = kind }) }
    ensures header_found { (word : ℕ) (header : Header) → header_of word ≡ Some header
        → word ≡ packet_header header.id header.kind }
{}

/// Bytes that are whole words are the bytes of the words that they are read as, in either order.
pub fn whole_words_are_written_back()
    ensures bytes { (order : Order) (bytes : List ℕ) → AreBytes bytes → length bytes % 4 ≡ 0
        → in_order order (words_of order bytes) ≡ bytes }
    ensures words { (order : Order) (bytes : List ℕ) → AreBytes bytes → AreWords (words_of order bytes) }
    ensures count { (order : Order) (bytes : List ℕ) → length (words_of order bytes) ≡ length bytes / 4 }
{}
