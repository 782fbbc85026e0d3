//! Laws of the definitions. These functions do nothing when they run: their clauses are what is proved.

ghost use Rattle.std.specs.Prelude.{◌≡◌, ◌↔◌, ℕ, List, [], ◌∷◌, length, true, false, Some, None, slice_get};
ghost use Rattle.ipb_base.specs.Word.{AreWords};
ghost use Rattle.transaction_codec.specs.declared.request.Request.{Request};
ghost use Rattle.transaction_codec.specs.declared.reply.Reply.{Reply};
ghost use Rattle.transaction_codec.specs.Header.{is_write};
ghost use Rattle.transaction_codec.specs.Request.{AreRequests, op_kind, requests_words};
ghost use Rattle.transaction_codec.specs.Answer.{IsReplyTo, IsDone, IsFailed};
ghost use Rattle.reply_join.specs.declared.answer.Answer.{Answer as OneAnswer};
ghost use Rattle.reply_join.specs.declared.answer.Answer.TheVariants.{Values, Done, Fault, Skipped};
ghost use Rattle.reply_join.specs.Joining.{IsAnswerTo, IsBehindFault, IsJoined, answer_of, answers_to};
ghost use Rattle.reply_join.specs.ByWords.{answers};
ghost use Rattle.reply_join.specs.Garbled.{IsGarbledAt};

use transaction_codec::laws::{one_list_for_words, read_is_spelled_so, written_is_read_again};

/// The answer to a request that was done is its values or that its writing was done, and the answer to one that failed
/// is the fault.
pub fn each_answer_says_how_its_request_ended()
    ensures write { (request : Request) (reply : Reply) → IsDone request reply →
        is_write (op_kind request.op) ≡ true → answer_of reply ≡ Done }
    ensures values { (request : Request) (reply : Reply) → IsDone request reply →
        is_write (op_kind request.op) ≡ false → answer_of reply ≡ Values reply.values }
    ensures fault { (request : Request) (reply : Reply) → IsFailed request reply →
        answer_of reply ≡ Fault reply.code reply.count }
{}

/// A reply to a body answers each request once.
pub fn each_request_has_one_answer()
    ensures { (body reply : List ℕ) (is : IsReplyTo body reply) →
        length (answers_to is.requests is.replies) ≡ length is.requests }
{}

/// Answer i of a reply is one to request i, whatever requests the body spells: values for a read or an RMW, as many as
/// it asked for, that a write was done, a fault that it can have, or that it was skipped.
pub fn each_answer_is_that_of_its_request()
    ensures { (body reply : List ℕ) (answers : List OneAnswer) (requests : List Request)
        (i : ℕ) (request : Request) (answer : OneAnswer) → IsJoined body reply answers →
        AreRequests requests → body ≡ requests_words requests →
        slice_get requests i ≡ Some request → slice_get answers i ≡ Some answer → IsAnswerTo request answer }
{
    one_list_for_words();
}

/// An answer is `Skipped` exactly where it stands behind a fault.
pub fn skipped_stands_behind_a_fault()
    ensures { (body reply : List ℕ) (answers : List OneAnswer) (i : ℕ) (answer : OneAnswer) →
        IsJoined body reply answers → slice_get answers i ≡ Some answer →
        ((answer ≡ Skipped) ↔ IsBehindFault answers i) }
{}

/// The answers are a function of the body and the reply, which gives none exactly where the words are no reply to the
/// body, so where they are garbled at some place.
pub fn joining_is_a_function()
    ensures joined { (body reply : List ℕ) (list : List OneAnswer) → AreWords body → AreWords reply →
        (IsJoined body reply list ↔ (answers body reply ≡ Some list)) }
    ensures none { (body reply : List ℕ) → AreWords body → AreWords reply →
        ((answers body reply ≡ None) ↔ ¬ IsReplyTo body reply) }
    ensures garbled { (body reply : List ℕ) (place : ℕ) → AreWords body → AreWords reply →
        IsGarbledAt body reply place → answers body reply ≡ None }
{
    written_is_read_again();
    read_is_spelled_so();
}

/// A body and a reply have one list of answers.
pub fn the_answers_are_the_only_ones()
    ensures { (body reply : List ℕ) (one other : List OneAnswer) →
        IsJoined body reply one → IsJoined body reply other → one ≡ other }
{}

/// Words are garbled at one place.
pub fn the_place_is_the_only_one()
    ensures { (body reply : List ℕ) (one other : ℕ) →
        IsGarbledAt body reply one → IsGarbledAt body reply other → one ≡ other }
{}

/// A read of one word at address 4: joined to its reply, with another identifier, and cut short.
pub fn worked_read()
    ensures joined { IsJoined (0x2000010f ∷ 4 ∷ []) (0x20000100 ∷ 0xabcd ∷ []) (Values (0xabcd ∷ []) ∷ []) }
    ensures other_identifier { IsGarbledAt (0x2000010f ∷ 4 ∷ []) (0x20010100 ∷ 0xabcd ∷ []) 0 }
    ensures cut_short { IsGarbledAt (0x2000010f ∷ 4 ∷ []) (0x20000100 ∷ []) 1 }
    ensures too_long { IsGarbledAt (0x2000010f ∷ 4 ∷ []) (0x20000100 ∷ 0xabcd ∷ 0 ∷ []) 2 }
{}

/// A read of ten words that fails after eight, and a read behind it.
pub fn worked_fault()
    ensures { IsJoined (0x20000a0f ∷ 0x1000 ∷ 0x2001010f ∷ 0 ∷ [])
        (0x20000804 ∷ 0 ∷ 0 ∷ 0 ∷ 0 ∷ 0 ∷ 0 ∷ 0 ∷ 0 ∷ []) (Fault 4 8 ∷ Skipped ∷ []) }
{}
