//! The datagram of a send.

ghost use Rattle.std.specs.Prelude.{◌≡◌, ◌≤◌, ◌++◌, length, IfOk, OnOk, OnErr};
ghost use Rattle.links.specs.declared.link.TheConstants.{MAX_DATAGRAM};
ghost use Rattle.world_model.specs.Sends.{bytes_to_send};
ghost use Rattle.links.specs.Messages.{IsWritable};

use ipb_base::NoMemory;
use packet_codec::{Head, Order, PacketKind, append_packet};
use reliable_engine::{Engine, Sending};
use status_packet::{write_resend, write_status_request};
use std::alloc::Global;

/// The bytes of a send that the hub wants, big-endian (profile). `NoMemory` where memory for them ran out.
pub fn write_sending(alloc: Global, hub: &Engine, send: Sending) -> Result<Vec<u8>, NoMemory>
    requires { IsWritable hub.now send }
    ensures bytes { IfOk result (λ bytes. bytes.items ≡ bytes_to_send hub.now send) }
    // So a link takes it.
    ensures short { IfOk result (λ bytes. length bytes.items ≤ MAX_DATAGRAM) }
{
    let mut bytes = Vec::new(alloc);
    append_sending(&mut bytes, hub, send)?;
    Ok(bytes)
}

/// Appends the bytes of a send that the hub wants, big-endian (profile). Where memory for them ran out nothing
/// changed.
pub fn append_sending(out: &mut Vec<u8>, hub: &Engine, send: Sending) -> Result<(), NoMemory>
    requires { IsWritable hub.now send }
    ensures bytes { OnOk result (out.new.items ≡ out.old.items ++ bytes_to_send hub.now send) }
    ensures unchanged { OnErr result (out.new.items ≡ out.old.items) }
    // So a link takes it.
    ensures short { length (bytes_to_send hub.now send) ≤ MAX_DATAGRAM }
{
    match send {
        Sending::Status => Ok(out.extend_from_slice(&write_status_request())?),
        Sending::Resend { id } => Ok(out.extend_from_slice(&write_resend(id))?),
        Sending::Control { place, id } => {
            let head = Head {
                order: Order::Big,
                id: id.get(),
                kind: PacketKind::Control,
            };
            append_packet(out, head, hub.body_at(place))
        }
    }
}
