//! Writing the lines of requests and replies.

ghost use Rattle.std.specs.Prelude.{◌≡◌, ◌++◌, [], ◌∷◌, IfOk, OnOk, codes, decimal};
ghost use Rattle.std.specs.List.{flat_map};
ghost use Rattle.transaction_codec.specs.First.{op_of, request_of, reply_of};
ghost use Rattle.transaction_codec.specs.Request.{op_words, AreRequests, requests_words};
ghost use Rattle.transaction_codec.specs.Reply.{AreReplies, replies_words};
ghost use Rattle.capture_reader.specs.Rows as spec;
ghost use Rattle.capture_reader.specs.Describing.{Adds};

use crate::hex::spaced_word;
use ipb_base::NoMemory;
use itoa::Buffer;
use packet_codec::Order;
use transaction_codec::transaction_type::{READ, READ_PORT, RMW_BITS, WRITE, WRITE_PORT};
use transaction_codec::{FirstReply, FirstRequest, OpRef, first_reply, first_request};

/// Appends a number in decimal digits.
#[tactic(auto, using(std::proofs::lemmas::Fmt::decimal_digit))]
pub(crate) fn push_number(out: &mut Vec<u8>, number: u64) -> Result<(), NoMemory>
    ensures { OnOk result (out.new.items ≡ out.old.items ++ decimal number) }
{
    if number < 10 {
        return Ok(out.push(b'0' + number as u8)?);
    }
    let mut buffer = Buffer::new();
    Ok(out.extend_from_slice(buffer.format(number).as_bytes())?)
}

/// Appends a space and a word.
fn push_word(out: &mut Vec<u8>, word: u32) -> Result<(), NoMemory>
    ensures { OnOk result (out.new.items ≡ out.old.items ++ (codes " " ++ spec.word_text word)) }
{
    Ok(out.extend_from_slice(&spaced_word(word))?)
}

/// Appends a space and a word for each word.
fn push_words(out: &mut Vec<u8>, words: &[u32]) -> Result<(), NoMemory>
    ensures { OnOk result (out.new.items ≡ out.old.items ++ spec.words_text words.now) }
{
    for word in words {
        push_word(out, *word)?;
    }
    Ok(())
}

/// The name of a type of transaction.
fn verb_text(kind: u8) -> &'static [u8]
    ensures { result.now ≡ spec.verb_text kind }
{
    match kind {
        READ => b"read",
        WRITE => b"write",
        READ_PORT => b"readport",
        WRITE_PORT => b"writeport",
        RMW_BITS => b"rmwbits",
        _ => b"rmwsum",
    }
}

/// Appends what a line begins with: the transaction identifier and the verb.
fn push_line_start(out: &mut Vec<u8>, tid: u16, kind: u8) -> Result<(), NoMemory>
    ensures { OnOk result (out.new.items ≡ out.old.items ++ spec.line_start tid kind) }
{
    out.extend_from_slice(b"  ")?;
    push_number(out, u64::from(tid))?;
    out.push(b' ')?;
    Ok(out.extend_from_slice(verb_text(kind))?)
}

/// Appends an address and the words that are written there.
fn push_block(out: &mut Vec<u8>, base: u32, words: &[u32]) -> Result<(), NoMemory>
    ensures { OnOk result (out.new.items ≡ out.old.items ++ spec.words_text (base ∷ words.now)) }
{
    push_word(out, base)?;
    push_words(out, words)
}

/// Appends the address of an operation and the words after it.
fn push_op_words(out: &mut Vec<u8>, op: &OpRef<'_>) -> Result<(), NoMemory>
    ensures { OnOk result (out.new.items ≡ out.old.items ++ spec.words_text (op_words (op_of op.now))) }
{
    match *op {
        OpRef::Read { base, count: _ } | OpRef::ReadPort { base, count: _ } => {
            push_block(out, base, &[])
        }
        OpRef::Write { base, words } | OpRef::WritePort { base, words } => {
            push_block(out, base, words)
        }
        OpRef::RmwBits {
            base,
            and_term,
            or_term,
        } => push_block(out, base, &[and_term, or_term]),
        OpRef::RmwSum { base, addend } => push_block(out, base, &[addend]),
    }
}

/// Appends a space and a number.
fn push_count(out: &mut Vec<u8>, count: u64) -> Result<(), NoMemory>
    ensures { OnOk result (out.new.items ≡ out.old.items ++ (codes " " ++ decimal count)) }
{
    out.push(b' ')?;
    push_number(out, count)
}

/// Appends how many words a read asks for.
fn push_asked(out: &mut Vec<u8>, op: &OpRef<'_>) -> Result<(), NoMemory>
    ensures { OnOk result (out.new.items ≡ out.old.items ++ spec.asked_text (op_of op.now)) }
{
    match *op {
        OpRef::Read { base: _, count } | OpRef::ReadPort { base: _, count } => {
            push_count(out, u64::from(count))
        }
        OpRef::Write { base: _, words: _ } | OpRef::WritePort { base: _, words: _ } => Ok(()),
        OpRef::RmwBits {
            base: _,
            and_term: _,
            or_term: _,
        }
        | OpRef::RmwSum { base: _, addend: _ } => Ok(()),
    }
}

/// Appends the line of a request.
fn push_request(out: &mut Vec<u8>, request: &FirstRequest<'_>) -> Result<(), NoMemory>
    ensures { OnOk result (out.new.items ≡ out.old.items ++ spec.request_text (request_of request.now)) }
{
    push_line_start(out, request.tid, request.op.kind())?;
    push_op_words(out, &request.op)?;
    push_asked(out, &request.op)?;
    Ok(out.push(b'\n')?)
}

/// Appends the lines of the requests that words are, all of them. `false` where they are none; something may have been
/// appended then.
pub(crate) fn push_requests(out: &mut Vec<u8>, words: &[u32]) -> Result<bool, NoMemory>
    ensures { IfOk result (Adds AreRequests requests_words (flat_map spec.request_text) words.now out.old.items out.new.items) }
{
    let mut rest = words;
    while !rest.is_empty() {
        match first_request(rest) {
            Ok(first) => {
                push_request(out, &first)?;
                rest = first.rest;
            }
            Err(_) => return Ok(false),
        }
    }
    Ok(true)
}

/// Appends the line of a reply.
fn push_reply(out: &mut Vec<u8>, reply: &FirstReply<'_>) -> Result<(), NoMemory>
    ensures { OnOk result (out.new.items ≡ out.old.items ++ spec.reply_text (reply_of reply.now)) }
{
    push_line_start(out, reply.tid, reply.kind)?;
    push_count(out, u64::from(reply.code))?;
    push_count(out, u64::from(reply.count))?;
    push_words(out, reply.values)?;
    Ok(out.push(b'\n')?)
}

/// Appends the lines of the replies that words are, all of them. `false` where they are none; something may have been
/// appended then.
pub(crate) fn push_replies(out: &mut Vec<u8>, words: &[u32]) -> Result<bool, NoMemory>
    ensures { IfOk result (Adds AreReplies replies_words (flat_map spec.reply_text) words.now out.old.items out.new.items) }
{
    let mut rest = words;
    while !rest.is_empty() {
        match first_reply(rest) {
            Ok(first) => {
                push_reply(out, &first)?;
                rest = first.rest;
            }
            Err(_) => return Ok(false),
        }
    }
    Ok(true)
}

/// Appends the line of a control packet, behind its direction.
pub(crate) fn push_control(out: &mut Vec<u8>, order: Order, id: u16) -> Result<(), NoMemory>
    ensures { OnOk result (out.new.items ≡ out.old.items ++ spec.control_text order id) }
{
    out.extend_from_slice(b"control ")?;
    push_number(out, u64::from(id))?;
    match order {
        Order::Big => Ok(out.extend_from_slice(b" big\n")?),
        Order::Little => Ok(out.extend_from_slice(b" little\n")?),
    }
}
