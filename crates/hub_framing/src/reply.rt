//! Writing reply frames.

ghost use Rattle.std.specs.Prelude.{◌≡◌, ◌≤◌, ◌++◌, IfOk, OnErr, OnOk, length};
ghost use Rattle.hub_framing.specs.Frames.{most_packet_bytes, reply_bytes, reply_head};

use crate::NoMemory;
use std::alloc::Global;

/// The bytes of a reply frame (profile): the length of what follows, the board as the request named it, the code that
/// says what became of the request, two zero bytes, and the packet, of at most 8972 bytes.
pub fn write_frame(alloc: Global, board: u32, code: u16, packet: &[u8]) -> Result<Vec<u8>, NoMemory>
    requires { length packet.now ≤ most_packet_bytes }
    ensures { IfOk result (λ bytes. bytes.items
        ≡ reply_bytes (record { board = board; code = code; packet = packet.now })) }
{
    let mut bytes = Vec::with_capacity(alloc, packet.len() + 12)?;
    append_reply_head(&mut bytes, board, code, packet.len())?;
    bytes.extend_from_slice(packet)?;
    Ok(bytes)
}

/// Appends what stands before the packet in a reply frame (profile), where the packet has `packet_len` bytes, at most
/// 8972. The bytes of the packet are to be appended behind it. After `NoMemory` nothing changed.
pub fn append_reply_head(
    out: &mut Vec<u8>,
    board: u32,
    code: u16,
    packet_len: usize,
) -> Result<(), NoMemory>
    requires { packet_len ≤ most_packet_bytes }
    ensures appended { OnOk result (out.new.items ≡ out.old.items ++ reply_head board code packet_len) }
    ensures refused { OnErr result (out.new.items ≡ out.old.items) }
{
    let follows = packet_len as u32 + 8;
    out.reserve(12)?;
    out.extend_from_slice(&follows.to_be_bytes()).unwrap();
    out.extend_from_slice(&board.to_be_bytes()).unwrap();
    out.extend_from_slice(&code.to_be_bytes()).unwrap();
    out.extend_from_slice(&[0, 0]).unwrap();
    Ok(())
}
