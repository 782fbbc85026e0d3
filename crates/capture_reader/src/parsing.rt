//! Reading the lines of requests and replies, more leniently than they are written.

ghost use Rattle.std.specs.Prelude.{◌≡◌, ◌<◌, ◌^◌, ◌++◌, ℕ, List, length, IfOk, OnOk, IfSome, codes};
ghost use Rattle.transaction_codec.specs.Header.{header};
ghost use Rattle.ipb_base.specs.Fronts as front;
ghost use Rattle.ipb_base.specs.Fronts.{Finds, all_of};
ghost use Rattle.capture_reader.specs.Fronts.{Gives};
ghost use Rattle.capture_reader.specs.Parsing as spec;
ghost use Rattle.capture_reader.specs.Parsing.{line_read, line_at, body_of};

use crate::front::behind;
use crate::hex::first_pair;
use crate::number::read_number;
use crate::refusal::Unread;
use ipb_base::NoMemory;
use packet_codec::Order;
use transaction_codec::header;
use transaction_codec::info_code::REQUEST;
use transaction_codec::transaction_type::{READ, READ_PORT, RMW_BITS, RMW_SUM, WRITE, WRITE_PORT};

/// The header of a line, and the text behind the line.
#[derive(Clone, Copy)]
pub(crate) struct FirstLine<'a> {
    pub(crate) header: u32,
    pub(crate) rest: &'a [u8],
}

/// The transaction identifier and the type at the front of a line.
#[derive(Clone, Copy)]
struct Start<'a> {
    tid: u16,
    kind: u8,
    rest: &'a [u8],
}

/// Reads a space and a word.
#[tactic(auto, unfolding(crate::specs::Parsing::word_at))]
fn read_word(text: &[u8]) -> Option<(u32, &[u8])>
    ensures { Finds (λ read. (read.0, read.1.now)) result (spec.word_at text.now) }
{
    let rest = behind(b" 0x", text)?;
    let (a, rest) = first_pair(rest)?;
    let (b, rest) = first_pair(rest)?;
    let (c, rest) = first_pair(rest)?;
    let (d, rest) = first_pair(rest)?;
    Some((u32::from_be_bytes([a, b, c, d]), rest))
}

/// Appends the words at the front, and answers the text behind them.
fn read_words<'a>(out: &mut Vec<u32>, text: &'a [u8]) -> Result<&'a [u8], NoMemory>
    ensures words { OnOk result (out.new.items ≡ out.old.items ++ (all_of spec.word_at text.now).0) }
    ensures rest { IfOk result (λ rest. rest.now ≡ (all_of spec.word_at text.now).1) }
{
    let mut rest = text;
    'words: while let Some((word, more)) = read_word(rest) {
        out.push(word)?;
        rest = more;
    }
    Ok(rest)
}

/// Reads the words at the front, which stand alone in `out` then, and answers the text behind them.
fn read_words_anew<'a>(out: &mut Vec<u32>, text: &'a [u8]) -> Result<&'a [u8], NoMemory>
    ensures words { OnOk result (out.new.items ≡ (all_of spec.word_at text.now).0) }
    ensures rest { IfOk result (λ rest. rest.now ≡ (all_of spec.word_at text.now).1) }
{
    out.clear();
    read_words(out, text)
}

/// Reads a space and a number.
#[tactic(auto, unfolding(crate::specs::Parsing::count_at))]
pub(crate) fn read_count(text: &[u8]) -> Option<(u32, &[u8])>
    ensures { Finds (λ read. (read.0, read.1.now)) result (spec.count_at text.now) }
{
    let rest = behind(b" ", text)?;
    read_number(rest)
}

/// Reads the verb at the front of a line, and what stands behind it.
#[tactic(auto, unfolding(crate::specs::Parsing::verb_at))]
fn read_verb(text: &[u8]) -> Option<(u8, &[u8])>
    ensures known { IfSome result (λ read. read.0 < 2 ^ 4) }
    ensures read { Finds (λ read. (read.0, read.1.now)) result (spec.verb_at text.now) }
{
    if let Some(rest) = behind(b"readport", text) {
        return Some((READ_PORT, rest));
    }
    if let Some(rest) = behind(b"read", text) {
        return Some((READ, rest));
    }
    if let Some(rest) = behind(b"writeport", text) {
        return Some((WRITE_PORT, rest));
    }
    if let Some(rest) = behind(b"write", text) {
        return Some((WRITE, rest));
    }
    if let Some(rest) = behind(b"rmwbits", text) {
        return Some((RMW_BITS, rest));
    }
    let rest = behind(b"rmwsum", text)?;
    Some((RMW_SUM, rest))
}

/// Reads the transaction identifier and the verb that a line begins with.
#[tactic(auto, unfolding(crate::specs::Parsing::start_at))]
fn read_start(text: &[u8]) -> Option<Start<'_>>
    ensures fits { IfSome result (λ start. (start.tid < 2 ^ 12) × (start.kind < 2 ^ 4)) }
    ensures read { Finds (λ start. ((start.tid, start.kind), start.rest.now)) result (spec.start_at text.now) }
{
    let rest = behind(b"  ", text)?;
    let (tid, rest) = read_number(rest)?;
    let rest = behind(b" ", rest)?;
    let (kind, rest) = read_verb(rest)?;
    if tid < 1 << 12 {
        Some(Start {
            tid: tid as u16,
            kind,
            rest,
        })
    } else {
        None
    }
}

/// How many words a request is for, where these words stand in front of the text.
fn read_asked<'a>(kind: u8, words: &[u32], text: &'a [u8]) -> Option<(u64, &'a [u8])>
    ensures { Finds (λ read. (read.0, read.1.now)) result (spec.asked_at kind (words.now, text.now)) }
{
    if kind == READ || kind == READ_PORT {
        let (count, rest) = read_count(text)?;
        return Some((u64::from(count), rest));
    }
    if kind == WRITE || kind == WRITE_PORT {
        return Some((words.len().saturating_sub(1) as u64, text));
    }
    Some((1, text))
}

/// A line behind whose header of these fields words stand.
fn line_with<'a>(
    start: &Start<'_>,
    count: u64,
    code: u32,
    text: &'a [u8],
) -> Result<FirstLine<'a>, Unread>
    requires tid { start.now.tid < 2 ^ 12 }
    requires kind { start.now.kind < 2 ^ 4 }
    ensures { (words : List ℕ) → Gives (line_read words) result
        (spec.line_with start.now.tid count start.now.kind code words (front.behind (codes "\n") text.now)) }
{
    let Some(rest) = behind(b"\n", text) else {
        return Err(Unread::Other);
    };
    if count < 256 && code < 16 {
        Ok(FirstLine {
            header: header(start.tid, count as u8, start.kind, code as u8),
            rest,
        })
    } else {
        Err(Unread::Other)
    }
}

/// Reads the line of a request. The words behind its header stand in `words` then.
#[tactic(auto, unfolding(crate::specs::Parsing::request_line_at))]
fn read_request_line<'a>(words: &mut Vec<u32>, text: &'a [u8]) -> Result<FirstLine<'a>, Unread>
    ensures { Gives (line_read words.new.items) result (spec.request_line_at text.now) }
{
    let Some(start) = read_start(text) else {
        return Err(Unread::Other);
    };
    let rest = read_words_anew(words, start.rest)?;
    let Some((count, rest)) = read_asked(start.kind, words.as_slice(), rest) else {
        return Err(Unread::Other);
    };
    line_with(&start, count, u32::from(REQUEST), rest)
}

/// Reads the line of a reply. The words behind its header stand in `words` then.
#[tactic(auto, unfolding(crate::specs::Parsing::reply_line_at))]
fn read_reply_line<'a>(words: &mut Vec<u32>, text: &'a [u8]) -> Result<FirstLine<'a>, Unread>
    ensures { Gives (line_read words.new.items) result (spec.reply_line_at text.now) }
{
    let Some(start) = read_start(text) else {
        return Err(Unread::Other);
    };
    let Some((code, rest)) = read_count(start.rest) else {
        return Err(Unread::Other);
    };
    let Some((count, rest)) = read_count(rest) else {
        return Err(Unread::Other);
    };
    let rest = read_words_anew(words, rest)?;
    line_with(&start, u64::from(count), code, rest)
}

/// Reads the line of a request, or of a reply. The words behind its header stand in `words` then.
fn read_line<'a>(words: &mut Vec<u32>, sent: bool, text: &'a [u8]) -> Result<FirstLine<'a>, Unread>
    ensures { Gives (line_read words.new.items) result (spec.line_of sent text.now) }
{
    if sent {
        read_request_line(words, text)
    } else {
        read_reply_line(words, text)
    }
}

/// Reads the line of a request, or of a reply; `None` where something else stands there.
fn next_line<'a>(
    words: &mut Vec<u32>,
    sent: bool,
    text: &'a [u8],
) -> Result<Option<FirstLine<'a>>, NoMemory>
    ensures { IfOk result (λ found. Finds (line_read words.new.items) found (line_at sent text.now)) }
{
    match read_line(words, sent, text) {
        Ok(first) => {
            if first.rest.len() < text.len() {
                Ok(Some(first))
            } else {
                Ok(None)
            }
        }
        Err(Unread::Other) => Ok(None),
        Err(Unread::NoMemory) => Err(NoMemory),
    }
}

/// Appends the words of the lines at the front, and answers the text behind them. Each line is read into `line`, in
/// memory that all of them share.
pub(crate) fn read_lines<'a>(
    line: &mut Vec<u32>,
    sent: bool,
    out: &mut Vec<u32>,
    text: &'a [u8],
) -> Result<&'a [u8], NoMemory>
    ensures words { OnOk result (out.new.items ≡ out.old.items ++ body_of (all_of (line_at sent) text.now).0) }
    ensures rest { IfOk result (λ rest. rest.now ≡ (all_of (line_at sent) text.now).1) }
{
    let mut rest = text;
    'lines: while let Some(first) = next_line(line, sent, rest)? {
        out.push(first.header)?;
        out.extend_from_slice(line.as_slice())?;
        rest = first.rest;
    }
    Ok(rest)
}

/// Reads the order of a control packet, up to the end of its line.
#[tactic(auto, unfolding(crate::specs::Parsing::order_at))]
pub(crate) fn read_order(text: &[u8]) -> Option<(Order, &[u8])>
    ensures { Finds (λ read. (read.0, read.1.now)) result (spec.order_at text.now) }
{
    if let Some(rest) = behind(b" big\n", text) {
        return Some((Order::Big, rest));
    }
    let rest = behind(b" little\n", text)?;
    Some((Order::Little, rest))
}
