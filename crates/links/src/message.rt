//! What a hub reads in a datagram.

ghost use Rattle.std.specs.Prelude.{IfOk};
ghost use Rattle.links.specs.Messages.{IsRead, IsReplyIn};

use ipb_base::{NoMemory, Words};
use packet_codec::{BadPacket, Packet, PacketKind, read_packet};
use packet_ids::Id;
use status_packet::{Status, read_status_reply};
use std::alloc::Global;
use world_model::laws::reading::what_a_hub_reads;

/// What a datagram says to a hub.
#[derive(Drop)]
pub enum Message {
    /// The reply to the control packet with this identifier (IPbus 2.0, reliability mechanism).
    Reply { id: Id, words: Words },
    /// The status of a board (IPbus 2.0, status packet).
    Status(Status),
    /// Nothing that a hub takes: no packet, a request, or the reply to a packet with identifier 0, which a hub never
    /// sends.
    Other,
}

/// Reads a datagram as a hub: control packets in both byte orders, and status replies. `NoMemory` where memory for the
/// words ran out.
pub fn read_for_hub(alloc: Global, bytes: &[u8]) -> Result<Message, NoMemory>
    ensures { IfOk result (IsRead bytes.now) }
{
    what_a_hub_reads();
    if let Ok(status) = read_status_reply(bytes) {
        let _next = status.next.get();
        return Ok(Message::Status(status));
    }
    match read_packet(alloc, bytes) {
        Ok(packet) => Ok(reply_in(packet)),
        Err(fault) => {
            if fault == BadPacket::NoMemory {
                return Err(NoMemory);
            }
            Ok(Message::Other)
        }
    }
}

/// The reply that a packet is, where it is one.
fn reply_in(packet: Packet) -> Message
    ensures { IsReplyIn packet result }
{
    if packet.kind != PacketKind::Control {
        return Message::Other;
    }
    match Id::new(packet.id) {
        Some(id) => Message::Reply {
            id,
            words: packet.body,
        },
        None => Message::Other,
    }
}
