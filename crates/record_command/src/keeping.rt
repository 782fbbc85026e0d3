//! Datagrams put aside.

ghost use Rattle.std.specs.Prelude.{◌≡◌, ◌≤◌, ◌<◌, ◌+◌, ◌++◌, [], length, Ok, IfOk, OnOk};
ghost use Rattle.std.specs.Vec.{vec_capacity, vec_len};
ghost use Rattle.packet_codec.specs.Packet.{AreBytes};
ghost use Rattle.record_command.specs.Passing.{received_item, sent_item};
ghost use Rattle.record_command.specs.Traffic.{caught_after};

use capture_reader::{Bytes, Caught};
use ipb_base::NoMemory;
use links::{LinkFault, MAX_DATAGRAM, Received};
use std::alloc::Global;
use std::mem;

/// Takes the room to keep one more datagram that is received, whatever its length.
pub(crate) fn take_room(spare: &mut Vec<u8>, caught: &mut Vec<Caught>) -> Result<(), NoMemory>
    ensures spare { spare.new.items ≡ spare.old.items }
    ensures caught { caught.new.items ≡ caught.old.items }
    ensures long { OnOk result (vec_len spare.old + MAX_DATAGRAM ≤ vec_capacity spare.new) }
    ensures room { OnOk result (vec_len caught.old < vec_capacity caught.new) }
{
    spare.reserve(MAX_DATAGRAM)?;
    caught.reserve(1)?;
    Ok(())
}

/// A datagram that is about to be sent, and the room to keep it.
pub(crate) fn sent(
    alloc: Global,
    caught: &mut Vec<Caught>,
    bytes: &[u8],
) -> Result<Caught, NoMemory>
    ensures item { IfOk result (λ item. item ≡ sent_item bytes.now) }
    ensures same { caught.new.items ≡ caught.old.items }
    ensures room { OnOk result (vec_len caught.old < vec_capacity caught.new) }
{
    caught.reserve(1)?;
    copied(alloc, true, bytes)
}

/// Keeps what a receive came to, which left these bytes, in room that was taken before.
pub(crate) fn keep(
    alloc: Global,
    spare: &mut Vec<u8>,
    caught: &mut Vec<Caught>,
    came: &Result<Received, LinkFault>,
    bytes: &[u8],
)
    requires empty { spare.old.items ≡ [] }
    requires long { length bytes.now ≤ vec_capacity spare.old }
    requires room { vec_len caught.old < vec_capacity caught.old }
    ensures caught { caught.new.items ≡ caught.old.items ++ caught_after came.now bytes.now }
    ensures bytes { came.now ≡ Ok Received.Got → AreBytes bytes.now }
    ensures empty { spare.new.items ≡ [] }
{
    if let Ok(Received::Got) = came {
        caught.push_reserved(received(alloc, spare, bytes));
    }
}

/// A datagram, in memory of its own.
fn copied(alloc: Global, sent: bool, bytes: &[u8]) -> Result<Caught, NoMemory>
    ensures { IfOk result (λ item. item ≡ record { sent = sent; bytes = bytes.now }) }
{
    let mut copy = Vec::with_capacity(alloc, bytes.len())?;
    copy.extend_from_slice(bytes)?;
    Ok(Caught {
        sent,
        bytes: Bytes::from_vec(copy),
    })
}

/// A datagram that was received. Where there is no memory for a copy of its length it gets the spare room, which is
/// empty and large enough.
fn received(alloc: Global, spare: &mut Vec<u8>, bytes: &[u8]) -> Caught
    requires empty { spare.old.items ≡ [] }
    requires room { length bytes.now ≤ vec_capacity spare.old }
    ensures item { result ≡ received_item bytes.now }
    ensures bytes { AreBytes bytes.now }
    ensures empty { spare.new.items ≡ [] }
{
    match copied(alloc, false, bytes) {
        Ok(item) => item,
        Err(NoMemory) => {
            let mut copy = mem::replace(spare, Vec::new(alloc));
            copy.extend_from_slice(bytes).unwrap();
            Caught {
                sent: false,
                bytes: Bytes::from_vec(copy),
            }
        }
    }
}
