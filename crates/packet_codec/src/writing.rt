//! Writing a packet.

ghost use Rattle.std.specs.Prelude.{◌≡◌, ◌≤◌, ◌+◌, ◌*◌, ◌∷◌, ◌++◌, length, IfOk, OnOk, OnErr};
ghost use Rattle.std.specs.Vec.{vec_len, vec_capacity};
ghost use Rattle.packet_codec.specs.Packet.{IsPacket, packet_bytes, packet_with, in_order, word_in_order};

use crate::header::header_word;
use crate::packet::{Head, MAX_BODY_WORDS, Order, Packet, PacketKind};
use ipb_base::NoMemory;
use std::alloc::Global;

/// The bytes of a packet (IPbus 2.0, packet header), each word in the packet's byte order. Only a control packet may be
/// little-endian, and a body has at most `MAX_BODY_WORDS` words (profile). `NoMemory` where memory for the bytes ran
/// out.
pub fn write_packet(alloc: Global, packet: &Packet) -> Result<Vec<u8>, NoMemory>
    requires length { length packet.now.body ≤ MAX_BODY_WORDS }
    requires order { packet.now.order ≡ Order.Little → packet.now.kind ≡ PacketKind.Control }
    ensures spelling { IfOk result (λ bytes. bytes.items ≡ packet_bytes packet.now) }
    // So what is written is read again.
    ensures packet { IsPacket packet.now }
{
    let mut bytes = Vec::new(alloc);
    append_packet(&mut bytes, packet.head(), packet.body.as_slice())?;
    Ok(bytes)
}

/// Appends the bytes of the packet with this head and this body (IPbus 2.0, packet header), as `write_packet` writes
/// them. Room is taken first: where memory for it ran out, nothing changed.
pub fn append_packet(out: &mut Vec<u8>, head: Head, body: &[u32]) -> Result<(), NoMemory>
    requires length { length body.now ≤ MAX_BODY_WORDS }
    requires order { head.order ≡ Order.Little → head.kind ≡ PacketKind.Control }
    ensures spelling { OnOk result (out.new.items ≡ out.old.items ++ packet_bytes (packet_with head body.now)) }
    ensures unchanged { OnErr result (out.new.items ≡ out.old.items) }
    // So what is written is read again.
    ensures packet { IsPacket (packet_with head body.now) }
{
    out.reserve(4 + 4 * body.len())?;
    put_packet(out, head, body);
    Ok(())
}

/// Appends the bytes of the packet with this head and this body (IPbus 2.0, packet header), in room that was taken
/// before: 4 bytes for the header and for each word.
pub fn put_packet(out: &mut Vec<u8>, head: Head, body: &[u32])
    requires room { vec_len out.old + (4 + 4 * length body.now) ≤ vec_capacity out.old }
    ensures { out.new.items ≡ out.old.items ++ packet_bytes (packet_with head body.now) }
{
    put_words(out, head.order, header_word(head.id, head.kind), body);
}

/// Appends the bytes of a header and of the words after it.
fn put_words(out: &mut Vec<u8>, order: Order, header: u32, body: &[u32])
    requires { vec_len out.old + (4 + 4 * length body.now) ≤ vec_capacity out.old }
    ensures { out.new.items ≡ out.old.items ++ in_order order (header ∷ body.now) }
{
    put_word(out, order, header);
    for word in body {
        put_word(out, order, *word);
    }
}

/// Appends the four bytes of a word.
fn put_word(out: &mut Vec<u8>, order: Order, word: u32)
    requires { vec_len out.old + 4 ≤ vec_capacity out.old }
    ensures items { out.new.items ≡ out.old.items ++ word_in_order order word }
    ensures len { vec_len out.new ≡ vec_len out.old + 4 }
    ensures capacity { vec_capacity out.old ≤ vec_capacity out.new }
{
    out.extend_from_slice(&order.bytes(word)).unwrap();
}
