//! Reading a packet.

ghost use Rattle.std.specs.Prelude.{◌≡◌, ◌≢◌, ◌↔◌, ◌%◌, [], length, Ok, Err, IfOk, MatchResult};
ghost use Rattle.packet_codec.specs.Packet.{IsPacket, packet_bytes};
ghost use Rattle.packet_codec.specs.Faults.{HasPacketLength, IsTooLong, HasAllowedHeader, HasUnknownKind, IsSpelling};
ghost use Rattle.packet_codec.specs.Reading.{length_rule, start_of, words_of, packet_of, head_read, Gives};
ghost use Rattle.packet_codec.specs.declared.packet.Packet.{Packet as PacketValue};

use crate::header::fields_of;
use crate::packet::{BadPacket, Head, MAX_PACKET_WORDS, Order, Packet, PacketKind};
use ipb_base::{NoMemory, Words};
use std::alloc::Global;

/// Reads a packet (IPbus 2.0, packet header). Control packets are read in both byte orders, and the others only
/// big-endian (profile). The rules are tried in the order of `BadPacket`, and the first that is broken is answered.
pub fn read_packet(alloc: Global, bytes: &[u8]) -> Result<Packet, BadPacket>
    // What is read is spelled so.
    ensures found { IfOk result (λ packet. IsPacket packet × (bytes.now ≡ packet_bytes packet)) }
    // What is spelled so is read, unless memory runs out.
    ensures only { (packet : PacketValue) → IsPacket packet → bytes.now ≡ packet_bytes packet
        → MatchResult result (λ read. read ≡ packet) (λ error. error ≡ BadPacket.NoMemory) }
    // Each refusal comes exactly by its rule, where those before it are kept.
    ensures empty { (result ≡ Err BadPacket.Empty) ↔ (bytes.now ≡ []) }
    ensures ragged { (result ≡ Err BadPacket.Ragged) ↔ (length bytes.now % 4 ≢ 0) }
    ensures long { (result ≡ Err BadPacket.Long) ↔ IsTooLong bytes.now }
    ensures header { (result ≡ Err BadPacket.Header)
        ↔ (HasPacketLength bytes.now × ¬ HasAllowedHeader bytes.now) }
    ensures kind { (result ≡ Err BadPacket.Kind) ↔ (HasPacketLength bytes.now × HasUnknownKind bytes.now) }
    ensures no_memory { result ≡ Err BadPacket.NoMemory → IsSpelling bytes.now }
{
    read_by_offsets(alloc, bytes)
}

/// Reads what stands before the body of a packet, without memory: all rules are tried that `read_packet` tries, and the
/// body is left unread (IPbus 2.0, packet header). The answer is the head of the packet that the bytes spell, or the
/// first rule that they break.
#[tactic(auto, unfolding(crate::specs::Reading::packet_of))]
pub fn read_head(bytes: &[u8]) -> Result<Head, BadPacket>
    ensures head { result ≡ head_read (packet_of bytes.now) }
    ensures memory { result ≢ Err BadPacket.NoMemory }
{
    check_length(bytes.len())?;
    let (first, _) = bytes.split_first_chunk::<4>().unwrap();
    read_start(*first)
}

/// Reads by offsets: the head tells the order in which the words after it are read.
fn read_by_offsets(alloc: Global, bytes: &[u8]) -> Result<Packet, BadPacket>
    ensures { Gives result (packet_of bytes.now) }
{
    let head = read_head(bytes)?;
    let (_, rest) = bytes.split_at(4);
    Ok(Packet {
        order: head.order,
        id: head.id,
        kind: head.kind,
        body: read_words(alloc, head.order, rest)?,
    })
}

/// The rules on the number of bytes.
fn check_length(length: usize) -> Result<(), BadPacket>
    ensures { result ≡ length_rule length }
{
    if length == 0 {
        Err(BadPacket::Empty)
    } else if length % 4 != 0 {
        Err(BadPacket::Ragged)
    } else if length > 4 * MAX_PACKET_WORDS {
        Err(BadPacket::Long)
    } else {
        Ok(())
    }
}

/// The rules on the first word.
#[tactic(auto, unfolding(crate::specs::Reading::start_of))]
fn read_start(first: [u8; 4]) -> Result<Head, BadPacket>
    ensures { result ≡ start_of first }
{
    if let Some(header) = fields_of(Order::Big.word(first)) {
        return match PacketKind::from_code(header.kind) {
            Some(kind) => Ok(Head {
                order: Order::Big,
                id: header.id,
                kind,
            }),
            None => Err(BadPacket::Kind),
        };
    }
    match fields_of(Order::Little.word(first)) {
        Some(header) if header.kind == PacketKind::Control.code() => Ok(Head {
            order: Order::Little,
            id: header.id,
            kind: PacketKind::Control,
        }),
        _ => Err(BadPacket::Header),
    }
}

/// The words of bytes that are whole words.
fn read_words(alloc: Global, order: Order, bytes: &[u8]) -> Result<Words, NoMemory>
    ensures { IfOk result (λ words. words ≡ words_of order bytes.now) }
{
    let (words, _) = bytes.as_chunks::<4>();
    let words = words.iter().map(|word| order.word(*word)).collect(alloc)?;
    Ok(Words::from_vec(words))
}
