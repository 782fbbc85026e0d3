ghost use Rattle.std.specs.Prelude.{◌≡◌, ℕ, MatchBool, MatchOption};
ghost use Rattle.transaction_codec.specs.First.{op_of, request_of};
ghost use Rattle.transaction_codec.specs.Request as of_request;
ghost use Rattle.transaction_codec.specs.Request.{IsRequest};
ghost use Rattle.transaction_codec.specs.Reply as of_reply;
ghost use Rattle.reply_join.specs.Progress.{CanFail, IsOutcome, IsHeaderTo};

use transaction_codec::info_code::{READ_ERROR, READ_TIMEOUT, SUCCESS, WRITE_ERROR, WRITE_TIMEOUT};
use transaction_codec::{FirstRequest, OpRef, code_of, count_of, header};

/// What the header of a reply says of its request: the words that were done, and the info code.
#[derive(Clone, Copy)]
pub(crate) struct Outcome {
    pub(crate) count: u8,
    pub(crate) code: u8,
}

/// The values after the header of a reply: a write has none.
pub(crate) fn values_after(op: &OpRef<'_>, count: u8) -> usize
    ensures { result ≡ of_reply.values_after (of_request.op_kind (op_of op.now)) count }
{
    match *op {
        OpRef::Write { .. } | OpRef::WritePort { .. } => 0,
        _ => count as usize,
    }
}

/// Whether an operation can fail with this info code after so many words: before its end, and an RMW before its word.
/// Profile.
fn can_fail(op: &OpRef<'_>, count: u8, code: u8) -> bool
    ensures { MatchBool result (CanFail (op_of op.now) count code) (CanFail (op_of op.now) count code → ⊥) }
{
    let early = (count as usize) < op.count();
    match *op {
        OpRef::Read { .. } | OpRef::ReadPort { .. } => {
            early && (code == READ_ERROR || code == READ_TIMEOUT)
        }
        OpRef::Write { .. } | OpRef::WritePort { .. } => {
            early && (code == WRITE_ERROR || code == WRITE_TIMEOUT)
        }
        OpRef::RmwBits { .. } | OpRef::RmwSum { .. } => {
            count == 0 && READ_ERROR <= code && code <= WRITE_TIMEOUT
        }
    }
}

/// Whether a reply to this operation may have this words field and info code.
fn is_outcome(op: &OpRef<'_>, count: u8, code: u8) -> bool
    ensures { MatchBool result (IsOutcome (op_of op.now) count code) (IsOutcome (op_of op.now) count code → ⊥) }
{
    if code == SUCCESS {
        return count as usize == op.count();
    }
    can_fail(op, count, code)
}

/// What this header says of the request, or None where it is not that of a reply to it.
pub(crate) fn outcome_of(request: &FirstRequest<'_>, word: u32) -> Option<Outcome>
    requires { IsRequest (request_of request.now) }
    ensures { MatchOption result
        ((count code : ℕ) → IsHeaderTo (request_of request.now) word count code → ⊥)
        (λ outcome. IsHeaderTo (request_of request.now) word outcome.count outcome.code) }
{
    let count = count_of(word);
    let code = code_of(word);
    if word != header(request.tid, count, request.op.kind(), code) {
        return None;
    }
    if !is_outcome(&request.op, count, code) {
        return None;
    }
    Some(Outcome { count, code })
}
