//! Laws of the definitions. These functions do nothing when they run: their clauses are what is proved.

ghost use Rattle.std.specs.Prelude.{◌≡◌, ◌↔◌, List, ℕ, ◌<◌, ◌≤◌, ◌^◌, ◌++◌, ◌∷◌, [], Ok, Err};
ghost use Rattle.ipb_base.specs.Lists.{IsProperPrefix};
ghost use Rattle.ipb_base.specs.Word.{AreWords};
ghost use Rattle.transaction_codec.specs.declared.refusal.Why.{Why};
ghost use Rattle.transaction_codec.specs.declared.request.Request.{Request};
ghost use Rattle.transaction_codec.specs.declared.reply.Reply.{Reply};
ghost use Rattle.transaction_codec.specs.Request.{AreRequests, IsRequest, BreaksRequest, request_at, request_words};
ghost use Rattle.transaction_codec.specs.Request.{requests_words};
ghost use Rattle.transaction_codec.specs.Reply.{AreReplies, IsReply, BreaksReply, reply_at, reply_words, replies_words};
ghost use Rattle.transaction_codec.specs.Listing.{IsFirstRule, IsRequestFault, IsReplyFault};
ghost use Rattle.transaction_codec.specs.Answer.{CanAnswer, IsReplyTo, IsLongestAnswer, reply_room};

use crate::header_word::MAX_COUNT;
use crate::info_code::{
    BAD_HEADER, READ_ERROR, READ_TIMEOUT, REQUEST, SUCCESS, WRITE_ERROR, WRITE_TIMEOUT,
};
use crate::refusal::{BadWords, Why};
use crate::request::Op;
use crate::room::LONGEST_BODY;
use crate::transaction_type::{READ, READ_PORT, RMW_BITS, RMW_SUM, WRITE, WRITE_PORT};

/// The types of a header (IPbus 2.0, transaction header).
pub fn the_types_of_a_header()
    ensures read { READ ≡ 0 }
    ensures write { WRITE ≡ 1 }
    ensures read_port { READ_PORT ≡ 2 }
    ensures write_port { WRITE_PORT ≡ 3 }
    ensures rmw_bits { RMW_BITS ≡ 4 }
    ensures rmw_sum { RMW_SUM ≡ 5 }
{}

/// The info codes of a header (IPbus 2.0, transaction header).
pub fn the_info_codes_of_a_header()
    ensures success { SUCCESS ≡ 0 }
    ensures bad_header { BAD_HEADER ≡ 1 }
    ensures read_error { READ_ERROR ≡ 4 }
    ensures write_error { WRITE_ERROR ≡ 5 }
    ensures read_timeout { READ_TIMEOUT ≡ 6 }
    ensures write_timeout { WRITE_TIMEOUT ≡ 7 }
    ensures request { REQUEST ≡ 0xf }
{}

/// The greatest transaction identifier, of 12 bits, the most words that the words field tells, in 8 bits, and the most
/// words of a body that is measured or executed at once (profile).
pub fn the_numbers_of_a_body()
    ensures identifiers { (tid : ℕ) → (tid < 2 ^ 12) ↔ (tid ≤ 4095) }
    ensures counts { (count : ℕ) → (count < 2 ^ 8) ↔ (count ≤ MAX_COUNT) }
    ensures most_words { MAX_COUNT ≡ 255 }
    ensures longest { LONGEST_BODY ≡ 65536 }
{}

/// Words are the spelling of at most one list of requests, and of at most one list of replies.
pub fn one_list_for_words()
    ensures requests { (left right : List Request) → AreRequests left → AreRequests right →
        requests_words left ≡ requests_words right → left ≡ right }
    ensures replies { (left right : List Reply) → AreReplies left → AreReplies right →
        replies_words left ≡ replies_words right → left ≡ right }
{}

/// No spelling of a request begins that of another, and no spelling of a reply that of another.
pub fn no_spelling_begins_another()
    ensures requests { (left right : Request) → IsRequest left → IsRequest right →
        IsProperPrefix (request_words left) (request_words right) → ⊥ }
    ensures replies { (left right : Reply) → IsReply left → IsReply right →
        IsProperPrefix (reply_words left) (reply_words right) → ⊥ }
{}

/// What is written is read again, whatever follows it.
pub fn written_is_read_again()
    ensures request { (request : Request) (rest : List ℕ) → IsRequest request →
        request_at (request_words request ++ rest) ≡ Ok (request, rest) }
    ensures reply { (reply : Reply) (rest : List ℕ) → IsReply reply →
        reply_at (reply_words reply ++ rest) ≡ Ok (reply, rest) }
{}

/// What is read of 32-bit words is spelled so.
pub fn read_is_spelled_so()
    ensures request { (words rest : List ℕ) (request : Request) → AreWords words →
        request_at words ≡ Ok (request, rest) → IsRequest request × (words ≡ request_words request ++ rest) }
    ensures reply { (words rest : List ℕ) (reply : Reply) → AreWords words → reply_at words ≡ Ok (reply, rest) →
        IsReply reply × (words ≡ reply_words reply ++ rest) }
{}

/// Where nothing is read of a header, it breaks the rule that is named and none before it.
pub fn refused_by_the_first_rule()
    ensures request { (word : ℕ) (after : List ℕ) (why : Why) → request_at (word ∷ after) ≡ Err why →
        IsFirstRule BreaksRequest (word ∷ after) why }
    ensures reply { (word : ℕ) (after : List ℕ) (why : Why) → reply_at (word ∷ after) ≡ Err why →
        IsFirstRule BreaksReply (word ∷ after) why }
{}

/// The header of a request, and of a reply, breaks no rule. So a header is refused exactly where it breaks one.
pub fn spellings_break_no_rule()
    ensures request { (request : Request) (rest after : List ℕ) (word : ℕ) (why : Why) → IsRequest request →
        request_words request ++ rest ≡ word ∷ after → BreaksRequest why word after → ⊥ }
    ensures reply { (reply : Reply) (rest after : List ℕ) (word : ℕ) (why : Why) → IsReply reply →
        reply_words reply ++ rest ≡ word ∷ after → BreaksReply why word after → ⊥ }
{}

/// A reply to a body is what a board can answer to it, and to a body of requests alone a board can answer nothing else.
pub fn replies_are_what_boards_answer()
    ensures replies { (body reply : List ℕ) → IsReplyTo body reply → CanAnswer body reply }
    ensures answers { (requests : List Request) (body answer : List ℕ) → AreRequests requests →
        body ≡ requests_words requests → CanAnswer body answer → IsReplyTo body answer }
{}

/// Each body has one longest answer, and `reply_room` is its length.
pub fn longest_answer_of_a_body()
    ensures there { (body : List ℕ) → AreWords body → IsLongestAnswer body (reply_room body) }
    ensures one { (body : List ℕ) (left right : ℕ) →
        IsLongestAnswer body left → IsLongestAnswer body right → left ≡ right }
{}

/// Words have one first fault: one place and one rule.
pub fn one_first_fault()
    ensures requests { (words : List ℕ) (place other : ℕ) (why rule : Why) →
        IsRequestFault words (BadWords.At place why) → IsRequestFault words (BadWords.At other rule) →
        (place ≡ other) × (why ≡ rule) }
    ensures replies { (words : List ℕ) (place other : ℕ) (why rule : Why) →
        IsReplyFault words (BadWords.At place why) → IsReplyFault words (BadWords.At other rule) →
        (place ≡ other) × (why ≡ rule) }
{}

/// Words of requests and of replies, by hand.
pub fn worked_spellings()
    ensures no_requests { requests_words [] ≡ [] }
    ensures read { requests_words (record { tid = 0; op = Op.Read 4 1 } ∷ []) ≡ 0x2000010f ∷ 4 ∷ [] }
    ensures read_reply { replies_words (record { tid = 0; kind = 0; count = 1; code = 0; values = 0xabcd ∷ [] } ∷ [])
        ≡ 0x20000100 ∷ 0xabcd ∷ [] }
    ensures rmw_bits { requests_words (record { tid = 0; op = Op.RmwBits 8 0x7fffffff 0x80000000 } ∷ [])
        ≡ 0x2000014f ∷ 8 ∷ 0x7fffffff ∷ 0x80000000 ∷ [] }
    ensures write { requests_words (record { tid = 1; op = Op.Write 16 (7 ∷ 9 ∷ []) } ∷ [])
        ≡ 0x2001021f ∷ 16 ∷ 7 ∷ 9 ∷ [] }
    ensures write_of_no_words { requests_words (record { tid = 2; op = Op.WritePort 5 [] } ∷ []) ≡ 0x2002003f ∷ 5 ∷ [] }
{}

/// Words that are no requests, by hand.
pub fn worked_refusals()
    ensures count { IsRequestFault (0x2000024f ∷ 8 ∷ 0 ∷ 0 ∷ []) (BadWords.At 0 Why.Count) }
    ensures version { IsRequestFault (0x3000010f ∷ 0 ∷ []) (BadWords.At 0 Why.Version) }
    ensures short { IsRequestFault (0x2000010f ∷ []) (BadWords.At 0 Why.Short) }
    ensures kind { IsRequestFault (0x2000016f ∷ 0 ∷ []) (BadWords.At 0 Why.Kind) }
    ensures code { IsRequestFault (0x20000100 ∷ 0 ∷ []) (BadWords.At 0 Why.Code) }
    ensures second { IsRequestFault (0x2000010f ∷ 4 ∷ 0x2001041f ∷ 8 ∷ 1 ∷ []) (BadWords.At 2 Why.Short) }
{}

/// Words that are no replies, by hand.
pub fn worked_faults_of_replies()
    ensures code { IsReplyFault (0x20000102 ∷ []) (BadWords.At 0 Why.Code) }
    ensures kind { IsReplyFault (0x20000010 ∷ 0x20000141 ∷ []) (BadWords.At 1 Why.Kind) }
    ensures count { IsReplyFault (0x20000144 ∷ 7 ∷ []) (BadWords.At 0 Why.Count) }
    ensures short { IsReplyFault (0x20000100 ∷ []) (BadWords.At 0 Why.Short) }
{}

/// What a board can answer to a read and a bad header behind it, by hand.
pub fn worked_answer()
    ensures { CanAnswer (0x2000010f ∷ 4 ∷ 0x2001016f ∷ 0 ∷ []) (0x20000100 ∷ 0xabcd ∷ 0x20010001 ∷ []) }
{}

/// The longest answers of bodies, by hand: to a read of three words, an RMW, a write of two words and a bad header.
pub fn worked_room()
    ensures { reply_room
        (0x2000030f ∷ 0 ∷ 0x2001015f ∷ 4 ∷ 1 ∷ 0x2002021f ∷ 8 ∷ 7 ∷ 7 ∷ 0x3000010f ∷ 0x2000030f ∷ 0 ∷ []) ≡ 8 }
{}
