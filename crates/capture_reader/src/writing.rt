//! Writing the text of a capture.

ghost use Rattle.std.specs.Prelude.{◌≡◌, ◌++◌, IfOk, OnOk};
ghost use Rattle.packet_ids.specs.Identifier.{IsIdentifier};
ghost use Rattle.capture_reader.specs.CaptureText as spec;
ghost use Rattle.capture_reader.specs.CaptureText.{AreItems, IsCapture};

use crate::capture::{Capture, Caught};
use crate::hex::push_bytes;
use crate::room::text_about;
use ipb_base::NoMemory;
use packet_ids::Id;
use std::alloc::Global;

/// The text of a capture (profile): `first F`, and then for each datagram a line of `>` where it was sent or `<` where
/// it was received, a space, and two lower-case hexadecimal digits for each byte or `-` for none. A line feed ends each
/// line. No datagram has more than `MAX_DATAGRAM` bytes.
pub fn write_capture(alloc: Global, capture: &Capture) -> Result<Vec<u8>, NoMemory>
    requires { AreItems capture.now.items }
    ensures spelling { IfOk result (λ text. text.items ≡ spec.capture_text capture.now) }
    // So what is written is read again.
    ensures capture { IfOk result (λ _. IsCapture capture.now) }
{
    let mut out = first_line(alloc, capture.first)?;
    let items = capture.items.as_slice();
    out.reserve(text_about(items)).unwrap_or(());
    push_items(&mut out, items)?;
    Ok(out)
}

/// The line of the first identifier.
pub(crate) fn first_line(alloc: Global, first: Id) -> Result<Vec<u8>, NoMemory>
    ensures spelling { IfOk result (λ text. text.items ≡ spec.first_text first) }
    ensures identifier { IfOk result (λ _. IsIdentifier first) }
{
    let first = first.get();
    let text = format!(in alloc; "first {first}\n")?;
    Ok(text.into_bytes())
}

/// Appends the lines of datagrams.
fn push_items(out: &mut Vec<u8>, items: &[Caught]) -> Result<(), NoMemory>
    ensures { OnOk result (out.new.items ≡ out.old.items ++ spec.items_text items.now) }
{
    for item in items {
        push_item(out, item)?;
    }
    Ok(())
}

/// Appends the line of a datagram.
fn push_item(out: &mut Vec<u8>, item: &Caught) -> Result<(), NoMemory>
    ensures { OnOk result (out.new.items ≡ out.old.items ++ spec.item_text item.now) }
{
    out.extend_from_slice(direction_text(item.sent))?;
    push_bytes(out, item.bytes.as_slice())?;
    Ok(out.push(b'\n')?)
}

/// What stands before the bytes of a datagram.
pub(crate) fn direction_text(sent: bool) -> &'static [u8]
    ensures { result.now ≡ spec.direction_text sent }
{
    if sent { b"> " } else { b"< " }
}
