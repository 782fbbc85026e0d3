ghost use Rattle.std.specs.Prelude.{◌≡◌, ◌≢◌, ◌⊎◌, ℕ, ◌<◌, ◌≤◌, ◌++◌, List, [], length};
ghost use Rattle.std.specs.Prelude.{Err, IfOk, IfErr, MatchResult};
ghost use Rattle.transaction_codec.specs.First.{request_of, reply_of};
ghost use Rattle.transaction_codec.specs.Request.{IsRequest, SpellsRequests, request_words};
ghost use Rattle.transaction_codec.specs.Reply.{reply_words};
ghost use Rattle.transaction_codec.specs.Answer.{IsReplyTo};
ghost use Rattle.reply_join.specs.declared.answer.Answer.{Answer};
ghost use Rattle.reply_join.specs.Joining.{IsJoined, answers_to};
ghost use Rattle.reply_join.specs.Garbled.{IsGarbledAt};
ghost use Rattle.reply_join.specs.Progress.{AreSkipped, HasNoReply, IsRefusal, IsReplyOf, fault_place};

use crate::answer::{Answer, Answers, answer_of};
use crate::outcome::{outcome_of, values_after};
use crate::refusal::JoinRefusal;
use ipb_base::NoMemory;
use smallvec::SmallVec;
use std::alloc::Global;
use transaction_codec::info_code::SUCCESS;
use transaction_codec::{FirstReply, FirstRequest, first_request};

/// The answers that a reply's words give to a body's requests, one for each in order. A request behind one that failed
/// is `Skipped`. `Garbled` comes exactly where the words are no reply to the body by the rules of IPbus 2.0
/// transactions and the profile; it names the place of the first wrong word, and the number of words where one is
/// missing.
///
/// The body is the words of requests alone, as `read_requests` of `transaction_codec` accepts them.
pub fn join_reply(alloc: Global, body: &[u32], reply: &[u32]) -> Result<Answers, JoinRefusal>
    requires { SpellsRequests body.now }
    ensures joined { IfOk result (IsJoined body.now reply.now) }
    // Only want of memory refuses what is a reply to the body.
    ensures only { (is : IsReplyTo body.now reply.now) → MatchResult result
        (λ answers. answers ≡ answers_to is.requests is.replies)
        (λ refusal. refusal ≡ JoinRefusal.NoMemory) }
    ensures garbled { (place : ℕ) → result ≡ Err (JoinRefusal.Garbled place)
        → IsGarbledAt body.now reply.now place }
    // So a reply that stops being one is refused, at that place.
    ensures refused { (place : ℕ) → IsGarbledAt body.now reply.now place
        → (result ≡ Err (JoinRefusal.Garbled place)) ⊎ (result ≡ Err JoinRefusal.NoMemory) }
{
    join_by_requests(alloc, body, reply)
}

/// Gives each request its answer, one after the other.
fn join_by_requests(alloc: Global, body: &[u32], reply: &[u32]) -> Result<Answers, JoinRefusal>
    requires { SpellsRequests body.now }
    ensures joined { IfOk result (IsJoined body.now reply.now) }
    ensures only { (is : IsReplyTo body.now reply.now) → MatchResult result
        (λ answers. answers ≡ answers_to is.requests is.replies)
        (λ refusal. refusal ≡ JoinRefusal.NoMemory) }
    ensures refused { IfErr result (IsRefusal body.now reply.now) }
{
    let mut answers = SmallVec::new(alloc);
    let mut asked = body;
    let mut rest = reply;
    while !asked.is_empty() {
        let request = next_request(asked);
        match reply_to(&request, rest) {
            Ok(first) => {
                answers.push(answer_of(alloc, &request.op, &first)?)?;
                asked = skip_behind_fault(&first, request.rest, &mut answers)?;
                rest = first.rest;
            }
            Err(why) => return Err(refusal_at(reply, rest, why)),
        }
    }
    // No request is left that this word could answer.
    if !rest.is_empty() {
        return Err(refusal_at(reply, rest, NoReply::Header));
    }
    Ok(Answers { items: answers })
}

/// The first request of a body that has one.
fn next_request(body: &[u32]) -> FirstRequest<'_>
    requires body { SpellsRequests body.now }
    requires some { 0 < length body.now }
    ensures is { IsRequest (request_of result) }
    ensures parts { body.now ≡ request_words (request_of result) ++ result.rest.now }
    ensures rest { SpellsRequests result.rest.now }
    ensures shorter { length result.rest.now < length body.now }
{
    let Ok(first) = first_request(body) else {
        unreachable!()
    };
    first
}

/// Why no reply to a request stands at the front of words.
#[derive(Clone, Copy)]
pub(crate) enum NoReply {
    /// The first word is no header of a reply to it, or no request is left.
    Header,
    /// The words end before the reply does.
    TooShort,
}

/// The reply to the request at the front of the words.
fn reply_to<'a>(request: &FirstRequest<'_>, words: &'a [u32]) -> Result<FirstReply<'a>, NoReply>
    requires { IsRequest (request_of request.now) }
    ensures found { IfOk result (λ first. IsReplyOf (request_of request.now) (reply_of first)
        × (words.now ≡ reply_words (reply_of first) ++ first.rest.now)) }
    ensures none { IfErr result (HasNoReply (request_of request.now) words.now) }
{
    let [word, after @ ..] = words else {
        return Err(NoReply::TooShort);
    };
    let Some(outcome) = outcome_of(request, *word) else {
        return Err(NoReply::Header);
    };
    let carried = values_after(&request.op, outcome.count);
    if after.len() < carried {
        return Err(NoReply::TooShort);
    }
    Ok(FirstReply {
        tid: request.tid,
        kind: request.op.kind(),
        count: outcome.count,
        code: outcome.code,
        values: &after[..carried],
        rest: &after[carried..],
    })
}

/// The requests behind this reply's that have replies too. Where it failed there are none: each of them is skipped.
fn skip_behind_fault<'a>(
    reply: &FirstReply<'_>,
    requests: &'a [u32],
    answers: &mut SmallVec<Answer, 1>,
) -> Result<&'a [u32], NoMemory>
    requires { SpellsRequests requests.now }
    ensures { IfOk result (λ left.
        ((reply.now.code ≡ SUCCESS) × (left.now ≡ requests.now) × (answers.new.items ≡ answers.old.items))
        ⊎ ((reply.now.code ≢ SUCCESS) × (left.now ≡ []) × ((more : List Answer) × AreSkipped requests.now more
        × (answers.new.items ≡ answers.old.items ++ more)))) }
{
    if reply.code == SUCCESS {
        return Ok(requests);
    }
    skip(requests, answers)?;
    Ok(&[])
}

/// Answers each of the requests `Skipped`.
fn skip(requests: &[u32], answers: &mut SmallVec<Answer, 1>) -> Result<(), NoMemory>
    requires { SpellsRequests requests.now }
    ensures { IfOk result (λ _. (more : List Answer) × AreSkipped requests.now more
        × (answers.new.items ≡ answers.old.items ++ more)) }
{
    let mut rest = requests;
    while !rest.is_empty() {
        rest = next_request(rest).rest;
        answers.push(Answer::Skipped)?;
    }
    Ok(())
}

/// The refusal of a reply where no reply stands at the front of what is left of it.
fn refusal_at(reply: &[u32], rest: &[u32], why: NoReply) -> JoinRefusal
    requires { length rest.now ≤ length reply.now }
    ensures { result ≡ JoinRefusal.Garbled (fault_place why (length reply.now) (length rest.now)) }
{
    let place = match why {
        NoReply::Header => reply.len() - rest.len(),
        NoReply::TooShort => reply.len(),
    };
    JoinRefusal::Garbled {
        place: place as u64,
    }
}
