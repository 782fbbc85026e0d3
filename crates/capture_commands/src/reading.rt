//! A text read for a command on captures.

ghost use Rattle.std.specs.Prelude.{IfOk, IfErr};
ghost use Rattle.capture_commands.specs.Texts as spec;

use crate::refusal::{MAX_CAPTURE, TextRefusal, Unread};
use capture_reader::{Capture, CaptureRefusal, UndescribeRefusal, read_capture, undescribe};
use std::alloc::Global;

/// Reads the text of a capture (profile), or tells the first rule that it breaks.
pub fn read_for_describe(alloc: Global, bytes: &[u8]) -> Result<Capture, Unread>
    ensures read { IfOk result (spec.IsTextOf bytes.now) }
    ensures refused { IfErr result (spec.Tells (spec.DeservesAsCapture bytes.now)) }
{
    if bytes.len() > MAX_CAPTURE {
        return Err(Unread::Refused(TextRefusal::LongCapture));
    }
    match read_capture(alloc, bytes) {
        Ok(capture) => Ok(capture),
        Err(CaptureRefusal::At { line, why }) => {
            Err(Unread::Refused(TextRefusal::Capture { line, why }))
        }
        Err(CaptureRefusal::NoMemory) => Err(Unread::NoMemory),
    }
}

/// Reads the description of a capture (profile), or tells the first rule that it breaks.
pub fn read_for_undescribe(alloc: Global, bytes: &[u8]) -> Result<Capture, Unread>
    ensures read { IfOk result (spec.IsDescriptionOf bytes.now) }
    ensures refused { IfErr result (spec.Tells (spec.DeservesAsDescription bytes.now)) }
{
    if bytes.len() > MAX_CAPTURE {
        return Err(Unread::Refused(TextRefusal::LongDescription));
    }
    match undescribe(alloc, bytes) {
        Ok(capture) => Ok(capture),
        Err(UndescribeRefusal::NotDescription) => Err(Unread::Refused(TextRefusal::NotDescription)),
        Err(UndescribeRefusal::NoMemory) => Err(Unread::NoMemory),
    }
}
