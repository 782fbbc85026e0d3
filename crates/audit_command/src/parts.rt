//! An input cut into its parts: a line that tells a length, a document of so many bytes, and a transcript.

ghost use Rattle.std.specs.Prelude.{◌≡◌, ℕ, ◌≤◌, ◌<◌, ◌==◌, List, length, get_or, IfOk, IfErr, IfSome, IsNone, OnOk};
ghost use Rattle.std.specs.List.{position_from};
ghost use Rattle.ipb_base.specs.Digits.{digits_number};
ghost use Rattle.audit_command.specs.Input as spec;
ghost use Rattle.audit_command.specs.Numbers.{audit_bytes, length_digits};

use crate::refusal::{AuditRefusal, MAX_AUDIT, MAX_LENGTH_DIGITS};
use ipb_base::number_in_text;
use session_input::{MAX_DOCUMENT, Refusal};

/// The session document of an input, and the transcript behind it.
#[derive(Clone, Copy)]
pub(crate) struct Parts<'a> {
    pub(crate) document: &'a [u8],
    pub(crate) transcript: &'a [u8],
}

/// The parts of an input, which is not too long; or else why it has none.
pub(crate) fn parts_of(bytes: &[u8]) -> Result<Parts<'_>, AuditRefusal>
    ensures parts { IfOk result (λ parts. spec.HasParts bytes.now parts.document.now parts.transcript.now) }
    ensures fits { OnOk result (¬ spec.IsTooLong bytes.now) }
    ensures refused { IfErr result (spec.Deserves bytes.now) }
{
    if bytes.len() > MAX_AUDIT {
        return Err(AuditRefusal::OfSession(Refusal::TooLong));
    }
    let Some((number, rest)) = length_of(bytes) else {
        return Err(AuditRefusal::NoLength);
    };
    if number > MAX_DOCUMENT {
        return Err(AuditRefusal::OfSession(Refusal::TooLong));
    }
    if number > rest.len() {
        return Err(AuditRefusal::NoLength);
    }
    let (document, transcript) = rest.split_at(number);
    Ok(Parts {
        document,
        transcript,
    })
}

/// The number that the first line tells, and the bytes behind that line.
fn length_of(bytes: &[u8]) -> Option<(usize, &[u8])>
    ensures some { IfSome result (λ found. spec.HasLength bytes.now found.0 found.1.now) }
    ensures none { IsNone result → (number : ℕ) (rest : List ℕ) → ¬ spec.HasLength bytes.now number rest }
{
    let end = line_end(bytes)?;
    let number = length_in(&bytes[..end])?;
    Some((number, &bytes[end + 1..]))
}

/// How many bytes stand before the first line feed.
fn line_end(bytes: &[u8]) -> Option<usize>
    ensures value { result ≡ position_from (λ byte. byte == 10) 0 bytes.now }
    ensures bound { IfSome result (λ end. end < length bytes.now) }
    ensures feed { IfSome result (λ end. get_or bytes.now end 0 ≡ 10) }
{
    bytes.iter().position(|byte| *byte == b'\n')
}

/// The number that the digits of a line write.
#[tactic(auto, using(crate::proofs::Digits::hexadecimal, crate::proofs::Digits::long, crate::proofs::Digits::short))]
fn length_in(line: &[u8]) -> Option<usize>
    ensures { result ≡ digits_number 10 length_digits line.now }
{
    // a text of a document may have hexadecimal digits, a length may not
    if line.len() > MAX_LENGTH_DIGITS || line.starts_with(b"0x".as_slice()) {
        return None;
    }
    let number = number_in_text(line)?;
    Some(number as usize)
}
