//! Bytes as pairs of hexadecimal digits.

ghost use Rattle.std.specs.Prelude.{◌≡◌, ◌<◌, ◌≤◌, ◌+◌, ◌*◌, ◌++◌, OnOk, IfOk, length, codes};
ghost use Rattle.std.specs.Vec.{vec_len, vec_capacity};
ghost use Rattle.capture_reader.specs.CaptureText as spec;
ghost use Rattle.capture_reader.specs.Rows.{word_text};
ghost use Rattle.ipb_base.specs.Fronts.{Finds, all_of};
ghost use Rattle.capture_reader.specs.Fronts.{Gives};
ghost use Rattle.capture_reader.specs.Reading.{digit_of, pair, pair_at, bytes_at, bytes_read};

use crate::capture::Bytes;
use crate::front::behind;
use crate::refusal::Unread;
use ipb_base::NoMemory;
use memchr::memchr;
use std::alloc::Global;

/// The digits of the numbers below 16.
const HEX_DIGITS: &[u8; 16] = b"0123456789abcdef";

/// The digit of a number below 16, lower case.
fn hex_digit(n: u8) -> u8
    requires { n < 16 }
    ensures { result ≡ spec.hex_digit n }
{
    HEX_DIGITS[n as usize]
}

/// A space, `0x` and the eight digits of a word.
pub(crate) fn spaced_word(word: u32) -> [u8; 11]
    ensures { result ≡ codes " " ++ word_text word }
{
    let [a, b, c, d] = word.to_be_bytes();
    [
        b' ',
        b'0',
        b'x',
        hex_digit(a / 16),
        hex_digit(a % 16),
        hex_digit(b / 16),
        hex_digit(b % 16),
        hex_digit(c / 16),
        hex_digit(c % 16),
        hex_digit(d / 16),
        hex_digit(d % 16),
    ]
}

/// Appends two digits for each byte. Room is taken first.
fn push_hex(out: &mut Vec<u8>, bytes: &[u8]) -> Result<(), NoMemory>
    ensures { OnOk result (out.new.items ≡ out.old.items ++ spec.hex_text bytes.now) }
{
    out.reserve(2 * bytes.len())?;
    put_hex(out, bytes);
    Ok(())
}

/// Appends two digits for each byte, in room that was taken before.
fn put_hex(out: &mut Vec<u8>, bytes: &[u8])
    requires { vec_len out.old + 2 * length bytes.now ≤ vec_capacity out.old }
    ensures { out.new.items ≡ out.old.items ++ spec.hex_text bytes.now }
{
    for byte in bytes {
        put_byte(out, *byte);
    }
}

/// Appends the two digits of a byte, in room that was taken before.
fn put_byte(out: &mut Vec<u8>, byte: u8)
    requires { vec_len out.old + 2 ≤ vec_capacity out.old }
    ensures items { out.new.items ≡ out.old.items ++ spec.byte_text byte }
    ensures len { vec_len out.new ≡ vec_len out.old + 2 }
    ensures capacity { vec_capacity out.new ≡ vec_capacity out.old }
{
    out.push_reserved(hex_digit(byte / 16));
    out.push_reserved(hex_digit(byte % 16));
}

/// Appends two digits for each byte, or a hyphen where there is none.
pub(crate) fn push_bytes(out: &mut Vec<u8>, bytes: &[u8]) -> Result<(), NoMemory>
    ensures { OnOk result (out.new.items ≡ out.old.items ++ spec.bytes_text bytes.now) }
{
    if bytes.is_empty() {
        return Ok(out.push(b'-')?);
    }
    push_hex(out, bytes)
}

/// The bytes of a line, and the text behind the line.
#[derive(Drop)]
pub(crate) struct FirstBytes<'a> {
    pub(crate) bytes: Bytes,
    pub(crate) rest: &'a [u8],
}

/// For each byte its value as a lower-case digit, and 16 where it is none: digits of random bytes make no branch of a
/// table.
const DIGITS: &[u8; 256] = &[
    16, 16, 16, 16, 16, 16, 16, 16, 16, 16, 16, 16, 16, 16, 16, 16, 16, 16, 16, 16, 16, 16, 16, 16,
    16, 16, 16, 16, 16, 16, 16, 16, 16, 16, 16, 16, 16, 16, 16, 16, 16, 16, 16, 16, 16, 16, 16, 16,
    0, 1, 2, 3, 4, 5, 6, 7, 8, 9, 16, 16, 16, 16, 16, 16, 16, 16, 16, 16, 16, 16, 16, 16, 16, 16,
    16, 16, 16, 16, 16, 16, 16, 16, 16, 16, 16, 16, 16, 16, 16, 16, 16, 16, 16, 16, 16, 16, 16, 10,
    11, 12, 13, 14, 15, 16, 16, 16, 16, 16, 16, 16, 16, 16, 16, 16, 16, 16, 16, 16, 16, 16, 16, 16,
    16, 16, 16, 16, 16, 16, 16, 16, 16, 16, 16, 16, 16, 16, 16, 16, 16, 16, 16, 16, 16, 16, 16, 16,
    16, 16, 16, 16, 16, 16, 16, 16, 16, 16, 16, 16, 16, 16, 16, 16, 16, 16, 16, 16, 16, 16, 16, 16,
    16, 16, 16, 16, 16, 16, 16, 16, 16, 16, 16, 16, 16, 16, 16, 16, 16, 16, 16, 16, 16, 16, 16, 16,
    16, 16, 16, 16, 16, 16, 16, 16, 16, 16, 16, 16, 16, 16, 16, 16, 16, 16, 16, 16, 16, 16, 16, 16,
    16, 16, 16, 16, 16, 16, 16, 16, 16, 16, 16, 16, 16, 16, 16, 16, 16, 16, 16, 16, 16, 16, 16, 16,
    16, 16, 16, 16, 16, 16, 16, 16, 16, 16, 16, 16, 16, 16,
];

/// The value of a lower-case digit; 16 for every other byte.
fn digit_of(byte: u8) -> u8
    ensures { result ≡ digit_of byte }
{
    DIGITS[byte as usize]
}

/// The byte of two digits.
#[tactic(auto, unfolding(crate::specs::Reading::pair, crate::specs::Reading::digit_of))]
fn pair(high: u8, low: u8) -> Option<u8>
    ensures { result ≡ pair high low }
{
    let high = digit_of(high);
    let low = digit_of(low);
    if high < 16 && low < 16 {
        Some(16 * high + low)
    } else {
        None
    }
}

/// The byte whose digits stand at the front.
#[tactic(auto, unfolding(crate::specs::Reading::pair_at))]
pub(crate) fn first_pair(text: &[u8]) -> Option<(u8, &[u8])>
    ensures { Finds (λ read. (read.0, read.1.now)) result (pair_at text.now) }
{
    let [high, low, rest @ ..] = text else {
        return None;
    };
    match pair(*high, *low) {
        Some(byte) => Some((byte, rest)),
        None => None,
    }
}

/// Appends the bytes whose digits stand at the front, and answers the text behind them.
fn read_pairs<'a>(out: &mut Vec<u8>, text: &'a [u8]) -> Result<&'a [u8], NoMemory>
    ensures bytes { OnOk result (out.new.items ≡ out.old.items ++ (all_of pair_at text.now).0) }
    ensures rest { IfOk result (λ rest. rest.now ≡ (all_of pair_at text.now).1) }
{
    let mut rest = text;
    'pairs: while let Some((byte, more)) = first_pair(rest) {
        out.push(byte)?;
        rest = more;
    }
    Ok(rest)
}

/// How many bytes the line at the front has at most: what its digits take room for.
fn room_of(text: &[u8]) -> usize
    ensures { result ≤ length text.now }
{
    memchr(b'\n', text).unwrap_or(0) / 2
}

/// Reads the bytes of a line up to its end.
#[tactic(auto, unfolding(crate::specs::Reading::bytes_at))]
pub(crate) fn read_bytes(alloc: Global, text: &[u8]) -> Result<FirstBytes<'_>, Unread>
    ensures { Gives bytes_read result (bytes_at text.now) }
{
    let mut bytes = Vec::new(alloc);
    if let Some(rest) = behind(b"-\n", text) {
        return Ok(FirstBytes {
            bytes: Bytes::from_vec(bytes),
            rest,
        });
    }
    bytes.reserve_exact(room_of(text))?;
    let rest = read_pairs(&mut bytes, text)?;
    if bytes.is_empty() {
        return Err(Unread::Other);
    }
    match behind(b"\n", rest) {
        Some(rest) => Ok(FirstBytes {
            bytes: Bytes::from_vec(bytes),
            rest,
        }),
        None => Err(Unread::Other),
    }
}
