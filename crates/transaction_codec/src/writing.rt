ghost use Rattle.std.specs.Prelude.{◌≡◌, ◌<◌, ◌≤◌, ◌+◌, ◌^◌, ◌++◌, ◌∷◌, length, vec_len, vec_capacity};
ghost use Rattle.std.specs.Prelude.{IfOk, OnOk, OnErr};
ghost use Rattle.ipb_base.specs.Word.{AreWords};
ghost use Rattle.transaction_codec.specs.First.{op_of};
ghost use Rattle.transaction_codec.specs.Request.{
  AreRequests,
  FitHeaders,
  IsRequest,
  op_count,
  op_words,
  request_words,
  requests_words,
};
ghost use Rattle.transaction_codec.specs.Reply.{IsReply, AreReplies, reply_words, replies_words};

use crate::header_word::header;
use crate::info_code::REQUEST;
use crate::op_ref::OpRef;
use crate::reply::Reply;
use crate::request::Request;
use ipb_base::NoMemory;
use std::alloc::Global;

/// The words of a list of requests, one after the other (IPbus 2.0, transaction header). Each has an identifier of at
/// most 4095 and at most 255 words.
pub fn write_requests(alloc: Global, list: &[Request]) -> Result<Vec<u32>, NoMemory>
    requires { FitHeaders list.now }
    ensures spelling { IfOk result (λ words. words.items ≡ requests_words list.now) }
    // So what is written is read again.
    ensures requests { IfOk result (λ _. AreRequests list.now) }
{
    let mut out = Vec::new(alloc);
    for request in list {
        put_request(&mut out, request.tid, &request.op.as_op_ref())?;
    }
    Ok(out)
}

/// Appends the words of one request with this transaction identifier. Where memory ran out the words are as before.
pub fn put_request(out: &mut Vec<u32>, tid: u16, op: &OpRef<'_>) -> Result<(), NoMemory>
    requires tid { tid < 2 ^ 12 }
    requires count { op_count (op_of op.now) < 2 ^ 8 }
    ensures appended { OnOk result
        (out.new.items ≡ out.old.items ++ request_words (record { tid = tid; op = op_of op.now })) }
    ensures unchanged { OnErr result (out.new.items ≡ out.old.items) }
    // So what is written is read again.
    ensures request { IfOk result (λ _. IsRequest (record { tid = tid; op = op_of op.now })) }
{
    out.reserve(1 + op.words_after_header())?;
    out.push_reserved(header(tid, op.count() as u8, op.kind(), REQUEST));
    push_words(out, op);
    Ok(())
}

/// Appends the words after the header of a request, for which there is room.
fn push_words(out: &mut Vec<u32>, op: &OpRef<'_>)
    requires { vec_len out.old + length (op_words (op_of op.now)) ≤ vec_capacity out.old }
    ensures appended { out.new.items ≡ out.old.items ++ op_words (op_of op.now) }
    ensures words { AreWords (op_words (op_of op.now)) }
{
    match *op {
        OpRef::Read { base, .. } | OpRef::ReadPort { base, .. } => push_block(out, base, &[]),
        OpRef::Write { base, words } | OpRef::WritePort { base, words } => {
            push_block(out, base, words)
        }
        OpRef::RmwBits {
            base,
            and_term,
            or_term,
        } => push_block(out, base, &[and_term, or_term]),
        OpRef::RmwSum { base, addend } => push_block(out, base, &[addend]),
    }
}

/// Appends an address and the words behind it, for which there is room.
fn push_block(out: &mut Vec<u32>, base: u32, words: &[u32])
    requires { vec_len out.old + length (base ∷ words.now) ≤ vec_capacity out.old }
    ensures appended { out.new.items ≡ out.old.items ++ base ∷ words.now }
    ensures words { AreWords (base ∷ words.now) }
{
    out.push_reserved(base);
    out.extend_from_slice(words).unwrap();
}

/// The words of a list of replies, one after the other (IPbus 2.0, transaction header). Each is one that `read_replies`
/// can give.
pub fn write_replies(alloc: Global, list: &[Reply]) -> Result<Vec<u32>, NoMemory>
    requires { AreReplies list.now }
    ensures spelling { IfOk result (λ words. words.items ≡ replies_words list.now) }
{
    let mut out = Vec::new(alloc);
    for reply in list {
        put_reply(&mut out, reply)?;
    }
    Ok(out)
}

/// Appends the words of one reply. Where memory ran out the words are as before.
fn put_reply(out: &mut Vec<u32>, reply: &Reply) -> Result<(), NoMemory>
    requires { IsReply reply.now }
    ensures appended { OnOk result (out.new.items ≡ out.old.items ++ reply_words reply.now) }
    ensures unchanged { OnErr result (out.new.items ≡ out.old.items) }
{
    let values = reply.values.as_slice();
    out.reserve(1 + values.len())?;
    out.push_reserved(header(reply.tid, reply.count, reply.kind, reply.code));
    out.extend_from_slice(values).unwrap();
    Ok(())
}
