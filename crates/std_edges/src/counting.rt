//! Reads and writes whose errors are counted.

ghost use Rattle.std.specs.Prelude.{◌≡◌, ◌<◌, ◌≤◌, IfOk, length, IsErr};
ghost use Rattle.std.specs.Io.KnownBytes.{ReadConsumes, WriteAppends};
ghost use Rattle.ipb_outside.specs.Faults.{RisesExactlyIf};
ghost use Rattle.ipb_base.specs.Faults.{one_more};

use ipb_outside::Failed;
use std::io::{Read, Write};

// One more of what is counted in 64 bits.
pub(crate) fn incremented(count: u64) -> u64
    ensures more { result ≡ one_more count }
    ensures later { count ≤ result }
{
    count.saturating_add(1)
}

// One read of a reader, into the same buffer. An error of the reader, of any kind, is `Failed` and is counted.
pub(crate) fn read_counted<R: Read>(
    reader: &mut R,
    buf: &mut [u8],
    faults: &mut u64,
) -> Result<usize, Failed>
    ensures within { IfOk result (λ count. count ≤ length buf.new) }
    ensures faults { RisesExactlyIf (IsErr result) faults.old faults.new }
    ensures handed_on { ReadConsumes (R.remaining reader.old) (R.remaining reader.new) result buf.new }
{
    match reader.read(buf) {
        Ok(count) => Ok(count),
        Err(_) => {
            *faults = incremented(*faults);
            Err(Failed)
        }
    }
}

// One write of a writer, of the same bytes. An error of the writer, of any kind, and a write that took nothing of bytes
// that are there are `Failed` and are counted.
pub(crate) fn write_counted<W: Write>(
    writer: &mut W,
    bytes: &[u8],
    faults: &mut u64,
) -> Result<usize, Failed>
    ensures within { IfOk result (λ count. count ≤ length bytes.now) }
    ensures goes_on { IfOk result (λ count. 0 < length bytes.now → 0 < count) }
    ensures faults { RisesExactlyIf (IsErr result) faults.old faults.new }
    ensures handed_on { WriteAppends (W.contents writer.old) (W.contents writer.new) result bytes.now }
{
    match writer.write(bytes) {
        Ok(count) if count > 0 || bytes.is_empty() => Ok(count),
        _ => {
            *faults = incremented(*faults);
            Err(Failed)
        }
    }
}
