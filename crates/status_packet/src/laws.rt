//! Laws of the definitions. These functions do nothing when they run: their clauses are what is proved.

ghost use Rattle.std.specs.Prelude.{◌≡◌, ℕ, List, [], ◌∷◌, replicate};
ghost use Rattle.ipb_base.specs.Word.{big_endian};
ghost use Rattle.packet_codec.specs.Packet.{packet_bytes, IsPacket};
ghost use Rattle.packet_ids.specs.Identifier.{IsIdentifier};
ghost use Rattle.ipb_base.specs.Numbers.{least_mtu, greatest_mtu};
ghost use Rattle.status_packet.specs.Range.{IsMtu, IsBufferCount, most_buffers};
ghost use Rattle.status_packet.specs.Packets.{status_request, status_reply, resend_request};
ghost use Rattle.status_packet.specs.StatusBytes.{IsStatusRequest, IsStatusReply, IsOutOfRange};

use crate::status::{MAX_BUFFERS, MAX_MTU, MIN_MTU, RESEND_BYTES, STATUS_BYTES};

/// The ranges of what a board tells of itself, and the lengths of the packets (IPbus 2.0, status packet and re-send
/// request packet).
pub fn the_numbers_of_a_status()
    ensures least_mtu { MIN_MTU ≡ least_mtu }
    ensures greatest_mtu { MAX_MTU ≡ greatest_mtu }
    ensures most_buffers { MAX_BUFFERS ≡ most_buffers }
    ensures status_bytes { STATUS_BYTES ≡ 64 }
    ensures resend_bytes { RESEND_BYTES ≡ 4 }
{}

/// The words of each packet.
pub fn the_words_of_each_packet()
    ensures request { packet_bytes status_request ≡ big_endian (0x200000f1 ∷ replicate 15 0) }
    ensures reply { packet_bytes (status_reply 1500 4 1)
        ≡ big_endian (0x200000f1 ∷ 0x5dc ∷ 4 ∷ 0x200001f0 ∷ replicate 12 0) }
    ensures resend { packet_bytes (resend_request 0x1234) ≡ 0x20 ∷ 0x12 ∷ 0x34 ∷ 0xf2 ∷ [] }
{}

/// A reply of a board with 4 buffers and an MTU of 1500 bytes. With 65 buffers it is out of range.
pub fn a_status_reply_read()
    ensures reply { IsStatusReply (big_endian (0x200000f1 ∷ 0x5dc ∷ 4 ∷ 0x200001f0 ∷ replicate 12 0)) 1500 4 1 }
    ensures cut_short { (mtu buffers next : ℕ) →
        ¬ IsStatusReply (big_endian (0x200000f1 ∷ 0x5dc ∷ 4 ∷ 0x200001f0 ∷ replicate 11 0)) mtu buffers next }
    ensures too_many_buffers { IsOutOfRange (big_endian (0x200000f1 ∷ 0x5dc ∷ 65 ∷ 0x200001f0 ∷ replicate 12 0)) }
{}

/// Each of them is a packet.
pub fn each_is_a_packet()
    ensures request { IsPacket status_request }
    ensures reply { (mtu buffers next : ℕ) → IsMtu mtu → IsBufferCount buffers → IsIdentifier next
        → IsPacket (status_reply mtu buffers next) }
    ensures resend { (id : ℕ) → IsIdentifier id → IsPacket (resend_request id) }
{}

/// A request that is written is a request, and a reply that is written is the reply with its status.
pub fn what_is_written_is_known()
    ensures request { IsStatusRequest (packet_bytes status_request) }
    ensures reply { (mtu buffers next : ℕ)
        → IsStatusReply (packet_bytes (status_reply mtu buffers next)) mtu buffers next }
{}

/// Bytes are the reply with one status.
pub fn a_reply_has_one_status()
    ensures { (bytes : List ℕ) (mtu buffers next mtu' buffers' next' : ℕ)
        → IsMtu mtu → IsBufferCount buffers → IsIdentifier next
        → IsMtu mtu' → IsBufferCount buffers' → IsIdentifier next'
        → IsStatusReply bytes mtu buffers next → IsStatusReply bytes mtu' buffers' next'
        → (mtu ≡ mtu') × (buffers ≡ buffers') × (next ≡ next') }
{}
