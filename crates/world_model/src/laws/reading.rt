//! What both sides read, by the grammar of packets.

ghost use Rattle.std.specs.Prelude.{◌≡◌, ◌↔◌, ℕ, ◌<◌, ◌^◌, List, Some};
ghost use Rattle.packet_codec.specs.Packet.{AreBytes, packet_bytes, IsPacket};
ghost use Rattle.packet_codec.specs.declared.packet.Order.{Order};
ghost use Rattle.packet_ids.specs.Identifier.{IsIdentifier};
ghost use Rattle.status_packet.specs.Packets.{resend_request};
ghost use Rattle.status_packet.specs.Range.{IsMtu, IsBufferCount};
ghost use Rattle.status_packet.specs.StatusBytes.{IsStatusRequest, IsStatusReply};
ghost use Rattle.world_model.specs.Messages.{StatusRequest, ResendRequest, ControlPacket, StatusReply, Reply};
ghost use Rattle.world_model.specs.Messages.{control_packet, to_board, to_hub};

use crate::below::laws_below;

/// A board reads status requests, re-send requests, and control packets in both byte orders, and nothing else.
pub fn what_a_board_reads()
    ensures status { (bytes : List ℕ) → AreBytes bytes → (to_board bytes ≡ Some StatusRequest) ↔ IsStatusRequest bytes }
    ensures resend { (bytes : List ℕ) (id : ℕ) → AreBytes bytes → (to_board bytes ≡ Some (ResendRequest id))
        ↔ ((id < 2 ^ 16) × (bytes ≡ packet_bytes (resend_request id))) }
    ensures control { (bytes : List ℕ) (order : Order) (id : ℕ) (body : List ℕ) → AreBytes bytes
        → (to_board bytes ≡ Some (ControlPacket order id body))
        ↔ (IsPacket (control_packet order id body) × (bytes ≡ packet_bytes (control_packet order id body))) }
{
    laws_below();
}

/// A hub reads status replies, and control packets in both byte orders, and nothing else.
pub fn what_a_hub_reads()
    ensures status { (bytes : List ℕ) (mtu buffers next : ℕ) → AreBytes bytes
        → (to_hub bytes ≡ Some (StatusReply mtu buffers next))
        ↔ (IsMtu mtu × IsBufferCount buffers × IsIdentifier next × IsStatusReply bytes mtu buffers next) }
    ensures reply { (bytes : List ℕ) (id : ℕ) (words : List ℕ) → AreBytes bytes → (to_hub bytes ≡ Some (Reply id words))
        ↔ ((order : Order) × IsPacket (control_packet order id words)
        × (bytes ≡ packet_bytes (control_packet order id words))) }
{
    laws_below();
}
