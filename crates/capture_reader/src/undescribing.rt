//! Reading a description.

ghost use Rattle.std.specs.Prelude.{◌≡◌, ◌≤◌, nat_le, length, Err, IfOk, IfSome, MatchResult};
ghost use Rattle.packet_codec.specs.Packet.{AreBytes, packet_bytes, packet_with};
ghost use Rattle.capture_reader.specs.declared.capture.Capture.{Capture as CaptureValue};
ghost use Rattle.capture_reader.specs.CaptureText.{IsItem, AreItems, IsCapture};
ghost use Rattle.capture_reader.specs.Description.{IsDescription};
ghost use Rattle.ipb_base.specs.Fronts.{Finds, all_of};
ghost use Rattle.capture_reader.specs.Fronts.{Gives};
ghost use Rattle.capture_reader.specs.Reading.{bytes_read, item_read};
ghost use Rattle.capture_reader.specs.Parsing as spec;
ghost use Rattle.capture_reader.specs.Parsing.{datagram_at};

use crate::capture::{Bytes, Capture, Caught, Items, MAX_DATAGRAM};
use crate::describing::{describe, same_bytes};
use crate::front::behind;
use crate::hex::{FirstBytes, read_bytes};
use crate::number::read_number;
use crate::parsing::{read_count, read_lines, read_order};
use crate::reading::{FirstItem, read_direction, read_first};
use crate::refusal::{UndescribeRefusal, Unread};
use crate::room::lines_about;
use ipb_base::NoMemory;
use packet_codec::{Head, MAX_BODY_WORDS, Order, PacketKind, append_packet, header_word};
use std::alloc::Global;

/// The words of one packet, and those of one of its lines, in memory that all packets of a text share.
#[derive(Drop)]
struct Room {
    words: Vec<u32>,
    line: Vec<u32>,
}

/// Reads a number of 16 bits.
fn read_id(text: &[u8]) -> Option<(u16, &[u8])>
    ensures { Finds (λ read. (read.0, read.1.now)) result (spec.id_at text.now) }
{
    let (number, rest) = read_number(text)?;
    if number < 1 << 16 {
        Some((number as u16, rest))
    } else {
        None
    }
}

/// The bytes of a packet.
fn bytes_of(alloc: Global, head: Head, body: &[u32]) -> Result<Bytes, NoMemory>
    requires length { length body.now ≤ MAX_BODY_WORDS }
    requires order { head.order ≡ Order.Little → head.kind ≡ PacketKind.Control }
    ensures { IfOk result (λ bytes. bytes ≡ packet_bytes (packet_with head body.now)) }
{
    let mut bytes = Vec::new(alloc);
    append_packet(&mut bytes, head, body)?;
    Ok(Bytes::from_vec(bytes))
}

/// Reads a control packet, behind its direction and its kind.
#[tactic(auto, unfolding(crate::specs::Parsing::control_at))]
fn read_control<'a>(
    alloc: Global,
    room: &mut Room,
    sent: bool,
    text: &'a [u8],
) -> Result<FirstBytes<'a>, Unread>
    ensures { Gives bytes_read result (spec.control_at sent text.now) }
{
    let Some((id, rest)) = read_id(text) else {
        return Err(Unread::Other);
    };
    let Some((order, rest)) = read_order(rest) else {
        return Err(Unread::Other);
    };
    room.words.clear();
    let rest = read_lines(&mut room.line, sent, &mut room.words, rest)?;
    if room.words.len() > MAX_BODY_WORDS {
        return Err(Unread::Other);
    }
    let head = Head {
        order,
        id,
        kind: PacketKind::Control,
    };
    Ok(FirstBytes {
        bytes: bytes_of(alloc, head, room.words.as_slice())?,
        rest,
    })
}

/// Reads a re-send request, behind its direction and its kind.
#[tactic(auto, unfolding(crate::specs::Parsing::resend_at))]
fn read_resend(alloc: Global, text: &[u8]) -> Result<FirstBytes<'_>, Unread>
    ensures { Gives bytes_read result (spec.resend_at text.now) }
{
    let Some((id, rest)) = read_id(text) else {
        return Err(Unread::Other);
    };
    let Some(rest) = behind(b"\n", rest) else {
        return Err(Unread::Other);
    };
    let head = Head {
        order: Order::Big,
        id,
        kind: PacketKind::Resend,
    };
    Ok(FirstBytes {
        bytes: bytes_of(alloc, head, &[])?,
        rest,
    })
}

/// The head of every status packet.
const STATUS: Head = Head {
    order: Order::Big,
    id: 0,
    kind: PacketKind::Status,
};

/// Reads the status of a board, behind its direction and its kind.
#[tactic(auto, unfolding(crate::specs::Parsing::status_at))]
fn read_status(alloc: Global, text: &[u8]) -> Result<FirstBytes<'_>, Unread>
    ensures { Gives bytes_read result (spec.status_at text.now) }
{
    let Some((mtu, rest)) = read_number(text) else {
        return Err(Unread::Other);
    };
    let Some((buffers, rest)) = read_count(rest) else {
        return Err(Unread::Other);
    };
    let Some(rest) = behind(b" ", rest) else {
        return Err(Unread::Other);
    };
    let Some((next, rest)) = read_id(rest) else {
        return Err(Unread::Other);
    };
    let Some(rest) = behind(b"\n", rest) else {
        return Err(Unread::Other);
    };
    let next = header_word(next, PacketKind::Control);
    let body = [mtu, buffers, next, 0, 0, 0, 0, 0, 0, 0, 0, 0, 0, 0, 0];
    Ok(FirstBytes {
        bytes: bytes_of(alloc, STATUS, &body)?,
        rest,
    })
}

/// Reads a request for the status, behind its direction and its kind.
#[tactic(auto, unfolding(crate::specs::Parsing::status_request_at))]
fn read_status_request(alloc: Global, text: &[u8]) -> Result<FirstBytes<'_>, Unread>
    ensures { Gives bytes_read result (spec.status_request_at text.now) }
{
    let Some(rest) = behind(b"request\n", text) else {
        return Err(Unread::Other);
    };
    Ok(FirstBytes {
        bytes: bytes_of(alloc, STATUS, &[0; 15])?,
        rest,
    })
}

/// Reads a status packet, behind its direction and its kind.
fn read_any_status(alloc: Global, text: &[u8]) -> Result<FirstBytes<'_>, Unread>
    ensures { Gives bytes_read result
        (spec.first_of (spec.status_at text.now) (spec.status_request_at text.now)) }
{
    match read_status(alloc, text) {
        Ok(first) => Ok(first),
        Err(Unread::Other) => read_status_request(alloc, text),
        Err(Unread::NoMemory) => Err(Unread::NoMemory),
    }
}

/// Reads what a datagram says, behind its direction.
#[tactic(auto, unfolding(crate::specs::Parsing::said_at))]
fn read_said<'a>(
    alloc: Global,
    room: &mut Room,
    sent: bool,
    text: &'a [u8],
) -> Result<FirstBytes<'a>, Unread>
    ensures { Gives bytes_read result (spec.said_at sent text.now) }
{
    if let Some(rest) = behind(b"control ", text) {
        return read_control(alloc, room, sent, rest);
    }
    if let Some(rest) = behind(b"raw ", text) {
        return read_bytes(alloc, rest);
    }
    if let Some(rest) = behind(b"resend ", text) {
        return read_resend(alloc, rest);
    }
    if let Some(rest) = behind(b"status ", text) {
        return read_any_status(alloc, rest);
    }
    Err(Unread::Other)
}

/// Whether a datagram can have these bytes.
fn is_short(bytes: &[u8]) -> bool
    ensures bytes { AreBytes bytes.now }
    ensures short { result ≡ nat_le (length bytes.now) MAX_DATAGRAM }
{
    bytes.len() <= MAX_DATAGRAM
}

/// Reads the description of one datagram, and what stands behind it.
#[tactic(auto, unfolding(crate::specs::Parsing::datagram_of))]
fn read_datagram<'a>(
    alloc: Global,
    room: &mut Room,
    text: &'a [u8],
) -> Result<FirstItem<'a>, Unread>
    ensures item { IfOk result (λ first. IsItem first.item) }
    ensures read { Gives item_read result (spec.datagram_of text.now) }
{
    let Some((sent, rest)) = read_direction(text) else {
        return Err(Unread::Other);
    };
    let first = read_said(alloc, room, sent, rest)?;
    if !is_short(first.bytes.as_slice()) {
        return Err(Unread::Other);
    }
    Ok(FirstItem {
        item: Caught {
            sent,
            bytes: first.bytes,
        },
        rest: first.rest,
    })
}

/// Reads a datagram; `None` where something else stands there.
fn next_datagram<'a>(
    alloc: Global,
    room: &mut Room,
    text: &'a [u8],
) -> Result<Option<FirstItem<'a>>, NoMemory>
    ensures item { IfOk result (λ found. IfSome found (λ first. IsItem first.item)) }
    ensures read { IfOk result (λ found. Finds item_read found (datagram_at text.now)) }
{
    match read_datagram(alloc, room, text) {
        Ok(first) => {
            if first.rest.len() < text.len() {
                Ok(Some(first))
            } else {
                Ok(None)
            }
        }
        Err(Unread::Other) => Ok(None),
        Err(Unread::NoMemory) => Err(NoMemory),
    }
}

/// Reads the datagrams at the front.
fn read_datagrams(alloc: Global, text: &[u8]) -> Result<Vec<Caught>, NoMemory>
    ensures items { IfOk result (λ items. AreItems items.items) }
    ensures read { IfOk result (λ items. items.items ≡ (all_of datagram_at text.now).0) }
{
    let mut items = Vec::new(alloc);
    items.reserve(lines_about(text)).unwrap_or(());
    let mut room = Room {
        words: Vec::new(alloc),
        line: Vec::new(alloc),
    };
    let mut rest = text;
    'datagrams: while let Some(first) = next_datagram(alloc, &mut room, rest)? {
        items.push(first.item)?;
        rest = first.rest;
    }
    Ok(items)
}

/// The capture that a description can only be of, if it is one.
fn read_leniently(alloc: Global, text: &[u8]) -> Result<Capture, UndescribeRefusal>
    ensures capture { IfOk result (λ capture. IsCapture capture) }
    ensures only { (capture : CaptureValue) → IsCapture capture → IsDescription capture text.now
        → MatchResult result (λ read. read ≡ capture) (λ refusal. refusal ≡ UndescribeRefusal.NoMemory) }
{
    let (first, rest) = match read_first(alloc, text) {
        Ok(read) => read,
        Err(Unread::Other) => return Err(UndescribeRefusal::NotDescription),
        Err(Unread::NoMemory) => return Err(UndescribeRefusal::NoMemory),
    };
    // Its range is known once it is asked for.
    let _first = first.get();
    match read_datagrams(alloc, rest) {
        Ok(items) => Ok(Capture {
            first,
            items: Items::from_vec(items),
        }),
        Err(NoMemory) => Err(UndescribeRefusal::NoMemory),
    }
}

/// The capture with this description (profile), as `describe` writes it. What is read is described again: every text that
/// is not exactly that description is refused.
pub fn undescribe(alloc: Global, text: &[u8]) -> Result<Capture, UndescribeRefusal>
    // What is read has this description.
    ensures found { IfOk result (λ capture. IsCapture capture × IsDescription capture text.now) }
    // What has this description is read, unless memory runs out.
    ensures only { (capture : CaptureValue) → IsCapture capture → IsDescription capture text.now
        → MatchResult result (λ read. read ≡ capture) (λ refusal. refusal ≡ UndescribeRefusal.NoMemory) }
    // A text is refused exactly where no capture has it as its description.
    ensures refused { result ≡ Err UndescribeRefusal.NotDescription
        → (capture : CaptureValue) → IsCapture capture → ¬ IsDescription capture text.now }
{
    let capture = match read_leniently(alloc, text) {
        Ok(capture) => capture,
        Err(refusal) => return Err(refusal),
    };
    let Ok(description) = describe(alloc, &capture) else {
        return Err(UndescribeRefusal::NoMemory);
    };
    if same_bytes(description.as_slice(), text) {
        Ok(capture)
    } else {
        Err(UndescribeRefusal::NotDescription)
    }
}
