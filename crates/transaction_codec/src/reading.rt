ghost use Rattle.std.specs.Prelude.{◌≡◌, ℕ, ◌≤◌, ◌-◌, length, List, IfOk, IfErr, MatchResult};
ghost use Rattle.transaction_codec.specs.declared.refusal.Why.{Why as Rule};
ghost use Rattle.transaction_codec.specs.declared.request.Request.{Request};
ghost use Rattle.transaction_codec.specs.declared.reply.Reply.{Reply};
ghost use Rattle.transaction_codec.specs.Request.{AreRequests, requests_words};
ghost use Rattle.transaction_codec.specs.Reply.{AreReplies, replies_words};
ghost use Rattle.transaction_codec.specs.Listing.{IsFaultOr, IsRequestFault, IsReplyFault};

use crate::first::{first_reply, first_request};
use crate::refusal::{BadWords, Why};
use crate::reply::Reply;
use crate::request::Request;
use std::alloc::Global;

/// The requests that a body's words are, all of them. No words are no requests. A refusal names the first faulty header
/// and the first rule that it breaks.
pub fn read_requests(alloc: Global, words: &[u32]) -> Result<Vec<Request>, BadWords>
    ensures found { IfOk result (λ list. AreRequests list.items × (words.now ≡ requests_words list.items)) }
    // Only want of memory refuses what is a list.
    ensures only { (list : List Request) → AreRequests list → words.now ≡ requests_words list →
        MatchResult result (λ found. found.items ≡ list) (λ bad. bad ≡ BadWords.NoMemory) }
    ensures refused { IfErr result (IsRequestFault words.now) }
    // So words with a fault are refused, by that fault.
    ensures faulty { (place : ℕ) (why : Rule) → IsRequestFault words.now (BadWords.At place why) →
        IsFaultOr result (BadWords.At place why) }
{
    let mut requests = Vec::new(alloc);
    let mut rest = words;
    while !rest.is_empty() {
        match first_request(rest) {
            Ok(first) => {
                requests.push(first.to_request(alloc)?)?;
                rest = first.rest;
            }
            Err(why) => return Err(fault_at(words, rest, why)),
        }
    }
    Ok(requests)
}

/// The replies that a body's words are, all of them. No words are no replies. A refusal names the first faulty header
/// and the first rule that it breaks.
pub fn read_replies(alloc: Global, words: &[u32]) -> Result<Vec<Reply>, BadWords>
    ensures found { IfOk result (λ list. AreReplies list.items × (words.now ≡ replies_words list.items)) }
    // Only want of memory refuses what is a list.
    ensures only { (list : List Reply) → AreReplies list → words.now ≡ replies_words list →
        MatchResult result (λ found. found.items ≡ list) (λ bad. bad ≡ BadWords.NoMemory) }
    ensures refused { IfErr result (IsReplyFault words.now) }
    // So words with a fault are refused, by that fault.
    ensures faulty { (place : ℕ) (why : Rule) → IsReplyFault words.now (BadWords.At place why) →
        IsFaultOr result (BadWords.At place why) }
{
    let mut replies = Vec::new(alloc);
    let mut rest = words;
    while !rest.is_empty() {
        match first_reply(rest) {
            Ok(first) => {
                replies.push(first.to_reply(alloc)?)?;
                rest = first.rest;
            }
            Err(why) => return Err(fault_at(words, rest, why)),
        }
    }
    Ok(replies)
}

/// The refusal of the header at which the rest of the words begins.
fn fault_at(words: &[u32], rest: &[u32], why: Why) -> BadWords
    requires { length rest.now ≤ length words.now }
    ensures { result ≡ BadWords.At (length words.now - length rest.now) why }
{
    let place = words.len() - rest.len();
    BadWords::At {
        place: place as u64,
        why,
    }
}
