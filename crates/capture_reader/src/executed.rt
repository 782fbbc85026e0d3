//! What a capture proves that the board has executed.

ghost use Rattle.std.specs.Prelude.{◌≡◌, ◌<◌, ◌≤◌, ◌^◌, ◌+◌, max};
ghost use Rattle.packet_codec.specs.Reading.{packet_of, head_read};
ghost use Rattle.capture_reader.specs.Proved as spec;
ghost use Rattle.capture_reader.specs.Proved.{IsProved, ProvesByReply, ProvesByStatus, Proves};
ghost use Rattle.capture_reader.specs.Describing.{IsLastPlace, IsGreatest};

use crate::capture::{Capture, Caught};
use packet_codec::{Order, PacketKind, read_head};
use packet_ids::{IDENTIFIERS, Id, id_at};
use status_packet::read_status_reply;

/// Whether the bytes are a big-endian control packet with this identifier.
fn is_big_control(id: Id, bytes: &[u8]) -> bool
    ensures { result ≡ spec.is_big_control id (head_read (packet_of bytes.now)) }
{
    match read_head(bytes) {
        Ok(head) => {
            head.order == Order::Big && head.kind == PacketKind::Control && head.id == id.get()
        }
        Err(_) => false,
    }
}

/// How many packets were sent for the first time, after one datagram more.
fn sent_after(first: Id, sent: u64, item: &Caught) -> u64
    requires { sent < 2 ^ 63 }
    ensures { result ≡ spec.sent_after first sent item.now }
{
    if item.sent && is_big_control(id_at(first, sent + 1), item.bytes.as_slice()) {
        sent + 1
    } else {
        sent
    }
}

/// The greatest place from 1 to the last that has an identifier, or 0.
fn last_place(first: Id, last: u64, id: Id) -> u64
    requires { last ≤ 2 ^ 63 }
    ensures { IsLastPlace first last id result }
{
    if last == 0 {
        return 0;
    }
    let at = u64::from(id_at(first, last).get());
    let back = (at + IDENTIFIERS - u64::from(id.get())) % IDENTIFIERS;
    if back < last { last - back } else { 0 }
}

/// The greatest place of which a reply tells, or 0.
fn shown_by_reply(first: Id, sent: u64, bytes: &[u8]) -> u64
    requires { sent < 2 ^ 63 }
    ensures { IsGreatest (ProvesByReply first sent bytes.now) result }
{
    let Ok(head) = read_head(bytes) else {
        return 0;
    };
    if head.kind != PacketKind::Control {
        return 0;
    }
    match Id::new(head.id) {
        Some(id) => last_place(first, sent, id),
        None => 0,
    }
}

/// The greatest place behind which a status reply expects the next packet, or 0.
fn shown_by_status(first: Id, sent: u64, bytes: &[u8]) -> u64
    requires { sent < 2 ^ 63 }
    ensures { IsGreatest (ProvesByStatus first sent bytes.now) result }
{
    let Ok(status) = read_status_reply(bytes) else {
        return 0;
    };
    // Its range is known once it is asked for.
    let _next = status.next.get();
    last_place(first, sent + 1, status.next).saturating_sub(1)
}

/// The greatest place that a datagram shows to be executed, or 0.
fn shown_by(first: Id, sent: u64, item: &Caught) -> u64
    requires { sent < 2 ^ 63 }
    ensures { IsGreatest (Proves first sent item.now) result }
{
    if item.sent {
        return 0;
    }
    let bytes = item.bytes.as_slice();
    shown_by_reply(first, sent, bytes).max(shown_by_status(first, sent, bytes))
}

/// The greatest place of the order of packets that the capture proves the board to have executed, or 0 (profile).
///
/// The packets that the hub sent for the first time have the places 1, 2, 3, and so on: a sent big-endian control packet
/// is one where it has the identifier of the next place. A received control packet proves the greatest place so far
/// that has its identifier; a received status reply proves the place before the greatest one, the next included, that
/// has the identifier it expects.
pub fn proved(capture: &Capture) -> u64
    ensures { IsProved capture.now result }
{
    let mut sent = 0;
    let mut place = 0;
    for item in capture.items.as_slice() {
        place = shown_by(capture.first, sent, item).max(place);
        sent = sent_after(capture.first, sent, item);
    }
    place
}
