ghost use Rattle.std.specs.Prelude.{◌≡◌, ◌<◌, ◌^◌, ◌∷◌, []};
ghost use Rattle.transaction_codec.specs.Header as field;
ghost use Rattle.transaction_codec.specs.Header.{header};
ghost use Rattle.transaction_codec.specs.declared.transaction_type.TheConstants.{READ};
ghost use Rattle.transaction_codec.specs.declared.info_code.TheConstants.{BAD_HEADER};
ghost use Rattle.transaction_codec.specs.Reply.{reply_words};
ghost use Rattle.transaction_codec.specs.Answer;

use crate::{info_code, transaction_type};
use ipb_base::VERSION;

/// The most words that the words field of a header can tell.
pub const MAX_COUNT: u8 = 255;

/// The header of a transaction: its identifier (at most 4095), words, type (of `transaction_type`) and info code (of
/// `info_code`). IPbus 2.0, transaction header.
pub fn header(tid: u16, count: u8, kind: u8, code: u8) -> u32
    requires tid_fits { tid < 2 ^ 12 }
    requires kind_fits { kind < 2 ^ 4 }
    requires code_fits { code < 2 ^ 4 }
    ensures { result ≡ header tid count kind code }
{
    let front = (VERSION << 28) | (u32::from(tid) << 16);
    front | (u32::from(count) << 8) | (u32::from(kind) << 4) | u32::from(code)
}

/// The answer to a bad header: the one word that a board puts there, with that header's transaction identifier, no
/// words, type 0 and code 1. Profile.
pub fn bad_header_reply(word: u32) -> u32
    ensures value { result ≡ header (field.tid_of word) 0 READ BAD_HEADER }
    ensures reply { reply_words (Answer.bad_header_reply word) ≡ result ∷ [] }
{
    header(
        tid_of(word),
        0,
        transaction_type::READ,
        info_code::BAD_HEADER,
    )
}

pub(crate) fn version_of(word: u32) -> u32
    ensures { result ≡ field.version_of word }
{
    word >> 28
}

pub(crate) fn tid_of(word: u32) -> u16
    ensures value { result ≡ field.tid_of word }
    ensures fits { result < 2 ^ 12 }
{
    ((word >> 16) & 0xfff) as u16
}

/// The words field of a header.
pub fn count_of(word: u32) -> u8
    ensures { result ≡ field.count_of word }
{
    ((word >> 8) & 0xff) as u8
}

pub(crate) fn kind_of(word: u32) -> u8
    ensures value { result ≡ field.kind_of word }
    ensures fits { result < 2 ^ 4 }
{
    ((word >> 4) & 0xf) as u8
}

/// The info code of a header, at most 15.
pub fn code_of(word: u32) -> u8
    ensures value { result ≡ field.code_of word }
    ensures fits { result < 2 ^ 4 }
{
    (word & 0xf) as u8
}
