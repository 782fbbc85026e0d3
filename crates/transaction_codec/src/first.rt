ghost use Rattle.std.specs.Prelude.{◌≡◌, ◌≤◌, ◌<◌, ◌++◌, length, IfOk, IfErr};
ghost use Rattle.transaction_codec.specs.Header as of_header;
ghost use Rattle.transaction_codec.specs.Request as of_request;
ghost use Rattle.transaction_codec.specs.Reply as of_reply;
ghost use Rattle.transaction_codec.specs.Request.{BreaksRequest, IsRequest, request_words};
ghost use Rattle.transaction_codec.specs.Reply.{BreaksReply, IsReply, reply_words};
ghost use Rattle.transaction_codec.specs.First.{IsFaultAtFront, ReadsReply, ReadsRequest, op_of, request_of, reply_of};

use crate::header_word::{code_of, count_of, kind_of, tid_of, version_of};
use crate::info_code::{BAD_HEADER, READ_ERROR, REQUEST, SUCCESS, WRITE_TIMEOUT};
use crate::op_ref::OpRef;
use crate::refusal::Why;
use crate::reply::Reply;
use crate::request::Request;
use crate::transaction_type::{READ, READ_PORT, RMW_BITS, RMW_SUM, WRITE, WRITE_PORT};
use ipb_base::{NoMemory, VERSION, Words};
use std::alloc::Global;

/// The request at the front of a body and the words after it.
#[derive(Clone, Copy)]
pub struct FirstRequest<'a> {
    /// The transaction identifier, at most 4095.
    pub tid: u16,
    pub op: OpRef<'a>,
    /// The words after the request.
    pub rest: &'a [u32],
}

/// The reply at the front of a body and the words after it.
#[derive(Clone, Copy)]
pub struct FirstReply<'a> {
    /// The transaction identifier, at most 4095.
    pub tid: u16,
    /// The type, of `transaction_type`.
    pub kind: u8,
    /// The words that were done.
    pub count: u8,
    /// The info code, of `info_code`.
    pub code: u8,
    /// The words that were read.
    pub values: &'a [u32],
    /// The words after the reply.
    pub rest: &'a [u32],
}

impl FirstRequest<'_> {
    /// A copy of the request, with its words in memory of its own. An error means that memory ran out.
    pub fn to_request(&self, alloc: Global) -> Result<Request, NoMemory>
        ensures { IfOk result (λ request. request ≡ request_of self.now) }
    {
        Ok(Request {
            tid: self.tid,
            op: self.op.to_op(alloc)?,
        })
    }
}

impl FirstReply<'_> {
    /// A copy of the reply, with its words in memory of its own. An error means that memory ran out.
    pub fn to_reply(&self, alloc: Global) -> Result<Reply, NoMemory>
        ensures { IfOk result (λ reply. reply ≡ reply_of self.now) }
    {
        Ok(Reply {
            tid: self.tid,
            kind: self.kind,
            count: self.count,
            code: self.code,
            values: Words::from_vec(self.values.to_vec(alloc)?),
        })
    }
}

/// Whether a type writes.
pub(crate) fn is_write(kind: u8) -> bool
    ensures { result ≡ of_header.is_write kind }
{
    kind == WRITE || kind == WRITE_PORT
}

fn is_rmw(kind: u8) -> bool
    ensures { result ≡ of_header.is_rmw kind }
{
    kind == RMW_BITS || kind == RMW_SUM
}

fn words_after(kind: u8, count: u8) -> usize
    ensures { result ≡ of_request.words_after kind count }
{
    match kind {
        WRITE | WRITE_PORT => 1 + count as usize,
        RMW_BITS => 3,
        RMW_SUM => 2,
        _ => 1,
    }
}

/// What a header of this type and words field asks with the words after it.
fn op_at(kind: u8, count: u8, after: &[u32]) -> OpRef<'_>
    requires known { kind ≤ RMW_SUM }
    requires whole { of_request.words_after kind count ≤ length after.now }
    ensures { op_of result ≡ of_request.op_at kind count after.now }
{
    let base = after[0];
    match kind {
        READ => OpRef::Read {
            base,
            count: u32::from(count),
        },
        READ_PORT => OpRef::ReadPort {
            base,
            count: u32::from(count),
        },
        WRITE => OpRef::Write {
            base,
            words: &after[1..1 + count as usize],
        },
        WRITE_PORT => OpRef::WritePort {
            base,
            words: &after[1..1 + count as usize],
        },
        RMW_BITS => OpRef::RmwBits {
            base,
            and_term: after[1],
            or_term: after[2],
        },
        _ => OpRef::RmwSum {
            base,
            addend: after[1],
        },
    }
}

/// The request at the front of the words, or the first rule that is broken there: an empty slice is `Short`. It takes
/// no memory. IPbus 2.0, transaction header.
pub fn first_request(words: &[u32]) -> Result<FirstRequest<'_>, Why>
    ensures exact { ReadsRequest result words.now }
    ensures found { IfOk result (λ first.
        IsRequest (request_of first) × (words.now ≡ request_words (request_of first) ++ first.rest.now)) }
    ensures shorter { IfOk result (λ first. length first.rest.now < length words.now) }
    ensures refused { IfErr result (IsFaultAtFront BreaksRequest words.now) }
{
    request_by_rules(words)
}

/// The rules on a request's header, in their order.
#[tactic(auto, unfolding(crate::specs::Request::request_at))]
fn request_by_rules(words: &[u32]) -> Result<FirstRequest<'_>, Why>
    ensures { ReadsRequest result words.now }
{
    let [word, after @ ..] = words else {
        return Err(Why::Short);
    };
    if version_of(*word) != VERSION {
        return Err(Why::Version);
    }
    let kind = kind_of(*word);
    if kind > RMW_SUM {
        return Err(Why::Kind);
    }
    if code_of(*word) != REQUEST {
        return Err(Why::Code);
    }
    let count = count_of(*word);
    if is_rmw(kind) && count != 1 {
        return Err(Why::Count);
    }
    let len = words_after(kind, count);
    if after.len() < len {
        return Err(Why::Short);
    }
    Ok(FirstRequest {
        tid: tid_of(*word),
        op: op_at(kind, count, after),
        rest: &after[len..],
    })
}

fn is_reply_code(code: u8) -> bool
    ensures { result ≡ of_reply.is_reply_code code }
{
    code == SUCCESS || code == BAD_HEADER || (READ_ERROR <= code && code <= WRITE_TIMEOUT)
}

fn is_wrong_count(kind: u8, code: u8, count: u8) -> bool
    ensures { result ≡ of_reply.is_wrong_count kind code count }
{
    if code == BAD_HEADER && count != 0 {
        return true;
    }
    is_rmw(kind) && count != u8::from(code == SUCCESS)
}

fn values_after(kind: u8, count: u8) -> usize
    ensures { result ≡ of_reply.values_after kind count }
{
    if is_write(kind) { 0 } else { count as usize }
}

/// The reply at the front of the words, or the first rule that is broken there: an empty slice is `Short`. It takes
/// no memory. IPbus 2.0, transaction header.
pub fn first_reply(words: &[u32]) -> Result<FirstReply<'_>, Why>
    ensures exact { ReadsReply result words.now }
    ensures found { IfOk result (λ first.
        IsReply (reply_of first) × (words.now ≡ reply_words (reply_of first) ++ first.rest.now)) }
    ensures shorter { IfOk result (λ first. length first.rest.now < length words.now) }
    ensures refused { IfErr result (IsFaultAtFront BreaksReply words.now) }
{
    reply_by_rules(words)
}

/// The rules on a reply's header, in their order.
#[tactic(auto, unfolding(crate::specs::Reply::reply_at))]
fn reply_by_rules(words: &[u32]) -> Result<FirstReply<'_>, Why>
    ensures { ReadsReply result words.now }
{
    let [header, after @ ..] = words else {
        return Err(Why::Short);
    };
    if version_of(*header) != VERSION {
        return Err(Why::Version);
    }
    let kind = kind_of(*header);
    let code = code_of(*header);
    if kind > RMW_SUM || (code == BAD_HEADER && kind != READ) {
        return Err(Why::Kind);
    }
    if !is_reply_code(code) {
        return Err(Why::Code);
    }
    let count = count_of(*header);
    if is_wrong_count(kind, code, count) {
        return Err(Why::Count);
    }
    let carried = values_after(kind, count);
    if after.len() < carried {
        return Err(Why::Short);
    }
    Ok(FirstReply {
        tid: tid_of(*header),
        kind,
        count,
        code,
        values: &after[..carried],
        rest: &after[carried..],
    })
}
