//! Reading status requests, status replies and re-send requests.

ghost use Rattle.std.specs.Prelude.{◌≡◌, ◌≢◌, ◌↔◌, ℕ, ◌+◌, ◌*◌, ◌<◌, ◌≤◌, ◌^◌, length, Some, Err, IsTrue, IfSome};
ghost use Rattle.std.specs.Prelude.{IfNone, IfOk, IsOkAnd};
ghost use Rattle.packet_ids.specs.Identifier.{IsIdentifier};
ghost use Rattle.packet_codec.specs.Header.{kind_code, packet_header};
ghost use Rattle.packet_codec.specs.Packet.{packet_bytes};
ghost use Rattle.status_packet.specs.Range.{IsMtu, IsBufferCount};
ghost use Rattle.status_packet.specs.Packets.{resend_request};
ghost use Rattle.status_packet.specs.StatusBytes.{IsStatusRequest, IsStatusReply, IsNextHeader, IsNoStatus};
ghost use Rattle.status_packet.specs.StatusBytes.{IsOutOfRange};
ghost use Rattle.status_packet.specs.Reading.{word_at};

use crate::status::{
    BadStatus, MAX_BUFFERS, MAX_MTU, MIN_MTU, RESEND_BYTES, STATUS_BYTES, Status, status_header,
};
use packet_codec::{PacketKind, read_header};
use packet_ids::Id;

/// Whether the bytes are a request for the status of a board: 64 bytes that begin with the header of a status packet
/// (IPbus 2.0, status packet). The words after it are not looked at (profile).
#[tactic(auto, using(crate::proofs::StatusLemmas::request, crate::proofs::StatusLemmas::request_word))]
pub fn is_status_request(bytes: &[u8]) -> bool
    ensures request { IsTrue result ↔ IsStatusRequest bytes.now }
{
    bytes.len() == STATUS_BYTES && word_at(bytes, 0) == status_header()
}

/// The identifier that a re-send request names, where the bytes are one (IPbus 2.0, re-send request packet). It may be
/// 0, which no stored reply has.
pub fn read_resend(bytes: &[u8]) -> Option<u16>
    ensures found { IfSome result (λ id. bytes.now ≡ packet_bytes (resend_request id)) }
    ensures only { (id : ℕ) → id < 2 ^ 16 → bytes.now ≡ packet_bytes (resend_request id) → result ≡ Some id }
{
    if bytes.len() != RESEND_BYTES {
        return None;
    }
    let header = read_header(word_at(bytes, 0))?;
    if header.kind != PacketKind::Resend.code() {
        return None;
    }
    Some(header.id)
}

/// Reads a status reply (IPbus 2.0, status packet). The last twelve words are not looked at (profile).
pub fn read_status_reply(bytes: &[u8]) -> Result<Status, BadStatus>
    // What is read is what the bytes tell.
    ensures found { IfOk result (λ status. IsStatusReply bytes.now status.mtu status.buffers status.next) }
    // What the bytes tell is read.
    ensures only { (mtu buffers next : ℕ) → IsMtu mtu → IsBufferCount buffers → IsIdentifier next
        → IsStatusReply bytes.now mtu buffers next
        → IsOkAnd result (λ status. (status.mtu ≡ mtu) × (status.buffers ≡ buffers) × (status.next ≡ next)) }
    // Each refusal comes exactly by its rule, where those before it are kept.
    ensures length { (result ≡ Err BadStatus.Length) ↔ (length bytes.now ≢ STATUS_BYTES) }
    ensures header { (result ≡ Err BadStatus.Header)
        ↔ ((length bytes.now ≡ STATUS_BYTES) × ¬ IsStatusRequest bytes.now) }
    ensures range { (result ≡ Err BadStatus.Range) ↔ IsOutOfRange bytes.now }
{
    if bytes.len() != STATUS_BYTES {
        return Err(BadStatus::Length);
    }
    if !is_status_request(bytes) {
        return Err(BadStatus::Header);
    }
    status_of(word_at(bytes, 1), word_at(bytes, 2), word_at(bytes, 3)).ok_or(BadStatus::Range)
}

/// The status that three words tell, where each is in its range.
fn status_of(mtu: u32, buffers: u32, next: u32) -> Option<Status>
    ensures mtu { IfSome result (λ status. IsMtu mtu × (status.mtu ≡ mtu)) }
    ensures buffers { IfSome result (λ status. IsBufferCount buffers × (status.buffers ≡ buffers)) }
    ensures next { IfSome result (λ status. IsIdentifier status.next
        × (next ≡ packet_header status.next (kind_code PacketKind.Control))) }
    ensures none { IfNone result (IsNoStatus mtu buffers next) }
{
    let next = next_id(next)?;
    if (MIN_MTU..=MAX_MTU).contains(&mtu) && (1..=MAX_BUFFERS).contains(&buffers) {
        Some(Status { mtu, buffers, next })
    } else {
        None
    }
}

/// The identifier in the header of a control packet, where it is one of those that a board expects.
fn next_id(word: u32) -> Option<Id>
    ensures found { IfSome result (λ id. word ≡ packet_header id (kind_code PacketKind.Control)) }
    ensures none { IfNone result (¬ IsNextHeader word) }
{
    let header = read_header(word)?;
    if header.kind != PacketKind::Control.code() {
        return None;
    }
    Id::new(header.id)
}

/// A big-endian word, counted from 0.
fn word_at(bytes: &[u8], place: usize) -> u32
    requires { 4 * place + 4 ≤ length bytes.now }
    ensures { result ≡ word_at bytes.now place }
{
    let at = 4 * place;
    u32::from_be_bytes([bytes[at], bytes[at + 1], bytes[at + 2], bytes[at + 3]])
}
