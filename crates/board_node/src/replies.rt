//! The replies that a board holds: finding one, keeping one, and the length of one.

ghost use Rattle.std.specs.Prelude.{◌≡◌, ◌≤◌, ◌+◌, ◌*◌, IfSome};
ghost use Rattle.std.specs.List.{AllByRecursion};
ghost use Rattle.world_model.specs.Board.{with_id};
ghost use Rattle.board_node.specs.View.{lent_packet, keeping, IsShort};

use circular_buffer::HeapCircularBuffer;
use packet_codec::Packet;
use std::alloc::Global;

/// The first of these replies that has an identifier.
pub(crate) fn find_reply(replies: &[Packet], id: u16) -> Option<&Packet>
    requires short { AllByRecursion IsShort replies.now }
    ensures found { lent_packet result ≡ with_id id replies.now }
    ensures short { IfSome result (λ reply. IsShort reply.now) }
{
    for reply in replies {
        if reply.id == id {
            return Some(reply);
        }
    }
    None
}

/// The first reply of a ring that has an identifier.
pub(crate) fn find_held(held: &HeapCircularBuffer<Packet>, id: u16) -> Option<&Packet>
    requires short { AllByRecursion IsShort held.now.items }
    ensures found { lent_packet result ≡ with_id id held.now.items }
    ensures short { IfSome result (λ reply. IsShort reply.now) }
{
    let (older, newer) = held.as_slices();
    match find_reply(older, id) {
        Some(reply) => Some(reply),
        None => find_reply(newer, id),
    }
}

/// Keeps the reply to a numbered packet, in place of the oldest one where the ring is full. Answers the reply that is
/// held no longer, or was not kept.
pub(crate) fn keep_reply(
    held: &mut HeapCircularBuffer<Packet>,
    numbered: bool,
    reply: Packet,
) -> Option<Packet>
    ensures { held.new ≡ keeping held.old numbered reply }
{
    if numbered {
        held.push_back(reply)
    } else {
        Some(reply)
    }
}

/// The words of a reply that is held no longer, and none where there is no such reply.
pub(crate) fn words_of(alloc: Global, gone: Option<Packet>) -> Vec<u32> {
    match gone {
        Some(reply) => reply.body.into_vec(),
        None => Vec::new(alloc),
    }
}

/// The bytes of a packet with this many words after its header.
pub(crate) fn packet_length(words: usize) -> usize
    requires { words ≤ 65536 }
    ensures { result ≡ 4 + 4 * words }
{
    4 + 4 * words
}
