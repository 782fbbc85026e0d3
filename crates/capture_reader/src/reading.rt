//! Reading the text of a capture.

ghost use Rattle.std.specs.Prelude.{◌≡◌, ◌≢◌, ◌++◌, ℕ, [], IfOk, IfErr, MatchResult};
ghost use Rattle.capture_reader.specs.declared.capture.Capture.{Capture as CaptureValue};
ghost use Rattle.capture_reader.specs.declared.refusal.CaptureWhy.{CaptureWhy as Rule};
ghost use Rattle.capture_reader.specs.CaptureText.{item_text, items_text, capture_text, IsItem, AreItems, IsCapture};
ghost use Rattle.capture_reader.specs.Faults.{IsCaptureFault, IsFirstFault, IsRefusedBy};
ghost use Rattle.ipb_base.specs.Fronts.{Finds};
ghost use Rattle.capture_reader.specs.Fronts.{Gives};
ghost use Rattle.capture_reader.specs.Reading.{direction_at, item_at, item_read, IsItemFault, IsItemsFault};
ghost use Rattle.capture_reader.specs.Reading.{id_of, first_in, first_at};

use crate::capture::{Capture, Caught, Items, MAX_DATAGRAM};
use crate::front::behind;
use crate::hex::read_bytes;
use crate::number::read_number;
use crate::refusal::{CaptureRefusal, CaptureWhy, Unread};
use crate::room::lines_about;
use crate::writing::first_line;
use packet_ids::Id;
use std::alloc::Global;

/// The datagram of a line, and the text behind the line.
#[derive(Drop)]
pub(crate) struct FirstItem<'a> {
    pub(crate) item: Caught,
    pub(crate) rest: &'a [u8],
}

/// Whether a datagram was sent, by what stands before its bytes.
#[tactic(auto, unfolding(crate::specs::Reading::direction_at))]
pub(crate) fn read_direction(text: &[u8]) -> Option<(bool, &[u8])>
    ensures { Finds (λ read. (read.0, read.1.now)) result (direction_at text.now) }
{
    if let Some(rest) = behind(b"> ", text) {
        return Some((true, rest));
    }
    match behind(b"< ", text) {
        Some(rest) => Some((false, rest)),
        None => None,
    }
}

/// Reads the line of a datagram of any length.
#[tactic(auto, unfolding(crate::specs::Reading::item_at))]
fn read_item_line(alloc: Global, text: &[u8]) -> Result<FirstItem<'_>, Unread>
    ensures { Gives item_read result (item_at text.now) }
{
    let Some((sent, rest)) = read_direction(text) else {
        return Err(Unread::Other);
    };
    let first = read_bytes(alloc, rest)?;
    Ok(FirstItem {
        item: Caught {
            sent,
            bytes: first.bytes,
        },
        rest: first.rest,
    })
}

/// Reads the line of a datagram, which has this number.
fn read_item(alloc: Global, line: u64, text: &[u8]) -> Result<FirstItem<'_>, CaptureRefusal>
    requires some { text.now ≢ [] }
    ensures found { IfOk result (λ first.
        IsItem first.item × (text.now ≡ item_text first.item ++ first.rest.now)) }
    ensures refused { IfErr result (IsItemFault line text.now) }
{
    let first = match read_item_line(alloc, text) {
        Ok(first) => first,
        Err(Unread::Other) => {
            return Err(CaptureRefusal::At {
                line,
                why: CaptureWhy::Form,
            });
        }
        Err(Unread::NoMemory) => return Err(CaptureRefusal::NoMemory),
    };
    if first.item.bytes.as_slice().len() > MAX_DATAGRAM {
        return Err(CaptureRefusal::At {
            line,
            why: CaptureWhy::Long,
        });
    }
    Ok(first)
}

/// Reads the lines of datagrams, from line 2 on.
fn read_items(alloc: Global, text: &[u8]) -> Result<Vec<Caught>, CaptureRefusal>
    ensures found { IfOk result (λ items. AreItems items.items × (text.now ≡ items_text items.items)) }
    ensures refused { IfErr result (IsItemsFault text.now) }
{
    let mut items = Vec::new(alloc);
    items.reserve(lines_about(text)).unwrap_or(());
    let mut rest = text;
    while !rest.is_empty() {
        let first = read_item(alloc, items.len() as u64 + 2, rest)?;
        items.push(first.item)?;
        rest = first.rest;
    }
    Ok(items)
}

/// The identifier with a number.
fn id_of(number: u32) -> Option<Id>
    ensures { result ≡ id_of number }
{
    Id::new(u16::try_from(number).ok()?)
}

/// The identifier that the first line tells, however it writes it.
#[tactic(auto, unfolding(crate::specs::Reading::first_in))]
fn first_in(text: &[u8]) -> Option<Id>
    ensures { result ≡ first_in text.now }
{
    let rest = behind(b"first ", text)?;
    let (number, _) = read_number(rest)?;
    id_of(number)
}

/// Reads the line of the first identifier.
#[tactic(auto, unfolding(crate::specs::Reading::first_at))]
pub(crate) fn read_first(alloc: Global, text: &[u8]) -> Result<(Id, &[u8]), Unread>
    ensures { Gives (λ read. (read.0, read.1.now)) result (first_at text.now) }
{
    let Some(first) = first_in(text) else {
        return Err(Unread::Other);
    };
    let line = first_line(alloc, first)?;
    match behind(line.as_slice(), text) {
        Some(rest) => Ok((first, rest)),
        None => Err(Unread::Other),
    }
}

/// Reads the text of a capture (profile), as `write_capture` writes it. A refusal names the first faulty line and the
/// first rule that it breaks.
pub fn read_capture(alloc: Global, text: &[u8]) -> Result<Capture, CaptureRefusal>
    // What is read is spelled so.
    ensures found { IfOk result (λ capture. IsCapture capture × (text.now ≡ capture_text capture)) }
    // What is spelled so is read, unless memory runs out.
    ensures only { (capture : CaptureValue) → IsCapture capture → text.now ≡ capture_text capture
        → MatchResult result (λ read. read ≡ capture) (λ refusal. refusal ≡ CaptureRefusal.NoMemory) }
    ensures refused { IfErr result (IsCaptureFault text.now) }
    // So a text with a fault is refused, by its first one.
    ensures faulty { (line : ℕ) (why : Rule) → IsFirstFault text.now line why
        → IsRefusedBy result (CaptureRefusal.At line why) }
{
    let (first, rest) = match read_first(alloc, text) {
        Ok(read) => read,
        Err(Unread::Other) => {
            return Err(CaptureRefusal::At {
                line: 1,
                why: CaptureWhy::First,
            });
        }
        Err(Unread::NoMemory) => return Err(CaptureRefusal::NoMemory),
    };
    match read_items(alloc, rest) {
        Ok(items) => Ok(Capture {
            first,
            items: Items::from_vec(items),
        }),
        Err(refusal) => Err(refusal),
    }
}
