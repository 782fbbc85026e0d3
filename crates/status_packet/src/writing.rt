//! Writing status requests, status replies and re-send requests.

ghost use Rattle.std.specs.Prelude.{◌≡◌, ◌+◌, ◌*◌, ◌≤◌, ◌++◌, take, drop};
ghost use Rattle.ipb_base.specs.Word.{word_bytes};
ghost use Rattle.packet_codec.specs.Packet.{packet_bytes};
ghost use Rattle.status_packet.specs.Packets.{status_request, status_reply, resend_request};

use crate::status::{RESEND_BYTES, STATUS_BYTES, Status, status_header};
use packet_codec::{PacketKind, header_word};
use packet_ids::Id;

/// A request for the status of a board: the header of a status packet and 15 zero words (IPbus 2.0, status packet).
pub fn write_status_request() -> [u8; STATUS_BYTES]
    ensures { result ≡ packet_bytes status_request }
{
    let mut bytes = [0; STATUS_BYTES];
    put_word(&mut bytes, 0, status_header());
    bytes
}

/// The reply that tells a status: the header of a status packet, the MTU, the number of buffers, the header of the
/// next expected control packet (IPbus 2.0, status packet), and twelve zero words (profile).
pub fn write_status_reply(status: &Status) -> [u8; STATUS_BYTES]
    ensures { result ≡ packet_bytes (status_reply status.now.mtu status.now.buffers status.now.next) }
{
    let next = header_word(status.next.get(), PacketKind::Control);
    let mut bytes = [0; STATUS_BYTES];
    put_word(&mut bytes, 0, status_header());
    put_word(&mut bytes, 1, status.mtu);
    put_word(&mut bytes, 2, status.buffers);
    put_word(&mut bytes, 3, next);
    bytes
}

/// A request to send the reply to a control packet again: one word (IPbus 2.0, re-send request packet).
pub fn write_resend(id: Id) -> [u8; RESEND_BYTES]
    ensures { result ≡ packet_bytes (resend_request id) }
{
    header_word(id.get(), PacketKind::Resend).to_be_bytes()
}

/// Writes one of the 16 words of a status packet. Places count from 0.
fn put_word(bytes: &mut [u8; STATUS_BYTES], place: usize, word: u32)
    requires { 4 * place + 4 ≤ STATUS_BYTES }
    ensures { bytes.new ≡ take (4 * place) bytes.old ++ (word_bytes word ++ drop (4 * place + 4) bytes.old) }
{
    let at = 4 * place;
    bytes[at..at + 4].copy_from_slice(&word.to_be_bytes());
}
