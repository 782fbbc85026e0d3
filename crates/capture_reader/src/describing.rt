//! Describing a capture.

ghost use Rattle.std.specs.Prelude.{◌≡◌, ◌<◌, ◌^◌, ◌++◌, List, true, false, IfOk, OnOk, codes};
ghost use Rattle.std.specs.Bool.{Decides};
ghost use Rattle.transaction_codec.specs.declared.request.Request.{Request};
ghost use Rattle.transaction_codec.specs.declared.reply.Reply.{Reply};
ghost use Rattle.transaction_codec.specs.Request.{AreRequests, requests_words};
ghost use Rattle.transaction_codec.specs.Reply.{AreReplies, replies_words};
ghost use Rattle.capture_reader.specs.CaptureText.{AreItems, first_text};
ghost use Rattle.capture_reader.specs.Rows.{raw_text, row_text, StatusRequest, Resend, Requests, Replies};
ghost use Rattle.capture_reader.specs.Rows.{Status as StatusRow};
ghost use Rattle.capture_reader.specs.Description.{IsDescription, proved_text};
ghost use Rattle.capture_reader.specs.Describing.{Adds, Appends, AppendsAll, IsOfPacket};

use crate::capture::{Capture, Caught};
use crate::executed::proved;
use crate::hex::push_bytes;
use crate::packets::with_body;
use crate::room::text_about;
use crate::texts::{push_control, push_number, push_replies, push_requests};
use crate::writing::{direction_text, first_line};
use ipb_base::NoMemory;
use packet_codec::{Order, Packet, PacketKind, read_head};
use status_packet::laws::{each_is_a_packet, what_is_written_is_known};
use status_packet::{
    Status, read_resend, read_status_reply, write_status_reply, write_status_request,
};
use std::alloc::Global;

/// Whether bytes are the same.
pub(crate) fn same_bytes(left: &[u8], right: &[u8]) -> bool
    ensures { Decides result (left.now ≡ right.now) }
{
    left == right
}

/// Appends the bytes of a datagram that no row is of.
fn push_raw(out: &mut Vec<u8>, item: &Caught) -> Result<(), NoMemory>
    ensures { OnOk result (out.new.items ≡ out.old.items ++ raw_text item.now) }
{
    out.extend_from_slice(direction_text(item.sent))?;
    out.extend_from_slice(b"raw ")?;
    push_bytes(out, item.bytes.as_slice())?;
    Ok(out.push(b'\n')?)
}

/// Appends a sent control packet of the requests that words are. `false` where they are none; something may have been
/// appended then.
fn push_requests_row(
    out: &mut Vec<u8>,
    order: Order,
    id: u16,
    words: &[u32],
) -> Result<bool, NoMemory>
    ensures { let text = λ (requests : List Request). row_text (Requests order id requests) in
        IfOk result (Adds AreRequests requests_words text words.now out.old.items out.new.items) }
{
    out.extend_from_slice(b"> ")?;
    push_control(out, order, id)?;
    push_requests(out, words)
}

/// Appends a received control packet of the replies that words are. `false` where they are none; something may have
/// been appended then.
fn push_replies_row(
    out: &mut Vec<u8>,
    order: Order,
    id: u16,
    words: &[u32],
) -> Result<bool, NoMemory>
    ensures { let text = λ (replies : List Reply). row_text (Replies order id replies) in
        IfOk result (Adds AreReplies replies_words text words.now out.old.items out.new.items) }
{
    out.extend_from_slice(b"< ")?;
    push_control(out, order, id)?;
    push_replies(out, words)
}

/// Appends a request for the status.
fn push_status_request_row(out: &mut Vec<u8>) -> Result<(), NoMemory>
    ensures { OnOk result (out.new.items ≡ out.old.items ++ row_text StatusRequest) }
{
    Ok(out.extend_from_slice(b"> status request\n")?)
}

/// Appends the status of a board.
fn push_status_row(out: &mut Vec<u8>, status: &Status) -> Result<(), NoMemory>
    ensures { OnOk result (out.new.items
        ≡ out.old.items ++ row_text (StatusRow status.now.mtu status.now.buffers status.now.next)) }
{
    out.extend_from_slice(b"< status ")?;
    push_number(out, u64::from(status.mtu))?;
    out.push(b' ')?;
    push_number(out, u64::from(status.buffers))?;
    out.push(b' ')?;
    push_number(out, u64::from(status.next.get()))?;
    Ok(out.push(b'\n')?)
}

/// Appends a request to send a reply again.
fn push_resend_row(out: &mut Vec<u8>, id: u16) -> Result<(), NoMemory>
    ensures fits { id < 2 ^ 16 }
    ensures appended { OnOk result (out.new.items ≡ out.old.items ++ row_text (Resend id)) }
{
    out.extend_from_slice(b"> resend ")?;
    push_number(out, u64::from(id))?;
    Ok(out.push(b'\n')?)
}

/// Appends a sent control packet.
fn push_sent(out: &mut Vec<u8>, item: &Caught, packet: &Packet) -> Result<(), NoMemory>
    requires of { IsOfPacket item.now packet.now }
    requires kind { packet.now.kind ≡ PacketKind.Control }
    requires sent { item.now.sent ≡ true }
    ensures { OnOk result (Appends item.now out.old.items out.new.items) }
{
    let start = out.len();
    if push_requests_row(out, packet.order, packet.id, packet.body.as_slice())? {
        return Ok(());
    }
    out.truncate(start);
    push_raw(out, item)
}

/// Appends a received control packet.
fn push_received(out: &mut Vec<u8>, item: &Caught, packet: &Packet) -> Result<(), NoMemory>
    requires of { IsOfPacket item.now packet.now }
    requires kind { packet.now.kind ≡ PacketKind.Control }
    requires received { item.now.sent ≡ false }
    ensures { OnOk result (Appends item.now out.old.items out.new.items) }
{
    let start = out.len();
    if push_replies_row(out, packet.order, packet.id, packet.body.as_slice())? {
        return Ok(());
    }
    out.truncate(start);
    push_raw(out, item)
}

/// Appends a sent status packet.
fn push_sent_status(out: &mut Vec<u8>, item: &Caught, packet: &Packet) -> Result<(), NoMemory>
    requires of { IsOfPacket item.now packet.now }
    requires kind { packet.now.kind ≡ PacketKind.Status }
    requires sent { item.now.sent ≡ true }
    ensures { OnOk result (Appends item.now out.old.items out.new.items) }
{
    each_is_a_packet();
    if same_bytes(item.bytes.as_slice(), &write_status_request()) {
        push_status_request_row(out)
    } else {
        push_raw(out, item)
    }
}

/// Appends a received status packet.
fn push_received_status(out: &mut Vec<u8>, item: &Caught, packet: &Packet) -> Result<(), NoMemory>
    requires of { IsOfPacket item.now packet.now }
    requires kind { packet.now.kind ≡ PacketKind.Status }
    requires received { item.now.sent ≡ false }
    ensures { OnOk result (Appends item.now out.old.items out.new.items) }
{
    each_is_a_packet();
    what_is_written_is_known();
    let Ok(status) = read_status_reply(item.bytes.as_slice()) else {
        return push_raw(out, item);
    };
    // Its range is known once it is asked for.
    let _next = status.next.get();
    if same_bytes(item.bytes.as_slice(), &write_status_reply(&status)) {
        push_status_row(out, &status)
    } else {
        push_raw(out, item)
    }
}

/// Appends a re-send packet.
fn push_resend(out: &mut Vec<u8>, item: &Caught, packet: &Packet) -> Result<(), NoMemory>
    requires of { IsOfPacket item.now packet.now }
    requires kind { packet.now.kind ≡ PacketKind.Resend }
    ensures { OnOk result (Appends item.now out.old.items out.new.items) }
{
    if !item.sent {
        return push_raw(out, item);
    }
    match read_resend(item.bytes.as_slice()) {
        Some(id) => push_resend_row(out, id),
        None => push_raw(out, item),
    }
}

/// Appends a datagram that is a packet.
fn push_packet(out: &mut Vec<u8>, item: &Caught, packet: &Packet) -> Result<(), NoMemory>
    requires { IsOfPacket item.now packet.now }
    ensures { OnOk result (Appends item.now out.old.items out.new.items) }
{
    match packet.kind {
        PacketKind::Control => {
            if item.sent {
                push_sent(out, item, packet)
            } else {
                push_received(out, item, packet)
            }
        }
        PacketKind::Status => {
            if item.sent {
                push_sent_status(out, item, packet)
            } else {
                push_received_status(out, item, packet)
            }
        }
        PacketKind::Resend => push_resend(out, item, packet),
    }
}

/// Appends the text of a datagram. Its words are read into the room, which is given back.
fn push_datagram(out: &mut Vec<u8>, item: &Caught, room: Vec<u32>) -> Result<Vec<u32>, NoMemory>
    ensures { OnOk result (Appends item.now out.old.items out.new.items) }
{
    let Ok(head) = read_head(item.bytes.as_slice()) else {
        push_raw(out, item)?;
        return Ok(room);
    };
    let packet = with_body(room, head, item.bytes.as_slice())?;
    push_packet(out, item, &packet)?;
    Ok(packet.body.into_vec())
}

/// Appends the texts of datagrams.
fn push_datagrams(alloc: Global, out: &mut Vec<u8>, items: &[Caught]) -> Result<(), NoMemory>
    ensures { OnOk result (AppendsAll items.now out.old.items out.new.items) }
{
    let mut room = Vec::new(alloc);
    for item in items {
        room = push_datagram(out, item, room)?;
    }
    Ok(())
}

/// Appends the last line.
fn push_proved(out: &mut Vec<u8>, place: u64) -> Result<(), NoMemory>
    ensures { OnOk result (out.new.items ≡ out.old.items ++ proved_text place) }
{
    out.extend_from_slice(b"proved ")?;
    push_number(out, place)?;
    Ok(out.push(b'\n')?)
}

/// The description of a capture (profile): `first F`, for each datagram a line that says what it is, of a control packet
/// with a line for each request or reply, and `proved N` with what `proved` answers. A datagram that is exactly none of
/// these packets is described by its bytes. No datagram has more than `MAX_DATAGRAM` bytes.
pub fn describe(alloc: Global, capture: &Capture) -> Result<Vec<u8>, NoMemory>
    requires { AreItems capture.now.items }
    ensures { IfOk result (λ text. IsDescription capture.now text.items) }
{
    let mut out = first_line(alloc, capture.first)?;
    let items = capture.items.as_slice();
    out.reserve(text_about(items)).unwrap_or(());
    push_datagrams(alloc, &mut out, items)?;
    push_proved(&mut out, proved(capture))?;
    Ok(out)
}
