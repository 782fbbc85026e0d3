//! Packets read into memory that all datagrams of a capture share.

ghost use Rattle.std.specs.Prelude.{◌≡◌, ◌+◌, ◌≤◌, ◌++◌, Ok, IfOk, OnOk, length, map};
ghost use Rattle.std.specs.Vec.{vec_len, vec_capacity};
ghost use Rattle.packet_codec.specs.Packet.{IsPacket, packet_bytes};
ghost use Rattle.packet_codec.specs.Reading.{word_from, words_of, packet_of, head_read};

use ipb_base::{NoMemory, Words};
use packet_codec::{Head, Order, Packet};

/// The word that four bytes are.
fn word_from(order: Order, bytes: [u8; 4]) -> u32
    ensures { result ≡ word_from order bytes }
{
    match order {
        Order::Big => u32::from_be_bytes(bytes),
        Order::Little => u32::from_le_bytes(bytes),
    }
}

/// Appends the words of chunks of four bytes, in room that was taken before.
fn put_words(words: &mut Vec<u32>, order: Order, chunks: &[[u8; 4]])
    requires { vec_len words.old + length chunks.now ≤ vec_capacity words.old }
    ensures { words.new.items ≡ words.old.items ++ map (word_from order) chunks.now }
{
    for chunk in chunks {
        words.push_reserved(word_from(order, *chunk));
    }
}

/// Makes of `words` the words that bytes are, four bytes each.
fn read_words(words: &mut Vec<u32>, order: Order, bytes: &[u8]) -> Result<(), NoMemory>
    ensures { OnOk result (words.new.items ≡ words_of order bytes.now) }
{
    let (chunks, _) = bytes.as_chunks::<4>();
    words.clear();
    words.reserve(chunks.len())?;
    put_words(words, order, chunks);
    Ok(())
}

/// The packet that bytes with this head are. Its body is read into the room, which is taken for it.
pub(crate) fn with_body(room: Vec<u32>, head: Head, bytes: &[u8]) -> Result<Packet, NoMemory>
    requires { head_read (packet_of bytes.now) ≡ Ok head }
    ensures { IfOk result (λ packet. IsPacket packet × (bytes.now ≡ packet_bytes packet)) }
{
    let (_, rest) = bytes.split_at(4);
    let mut words = room;
    read_words(&mut words, head.order, rest)?;
    Ok(Packet {
        order: head.order,
        id: head.id,
        kind: head.kind,
        body: Words::from_vec(words),
    })
}
