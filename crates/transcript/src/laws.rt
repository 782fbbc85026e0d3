//! Laws of the definitions. These functions do nothing when they run: their clauses are what is proved.

ghost use Rattle.std.specs.Prelude.{◌≡◌, ◌↔◌, ℕ, ◌+◌, ◌<◌, ◌^◌, ◌++◌, true, [], ◌∷◌, List, Option, Some, None, length};
ghost use Rattle.std.specs.Prelude.{count_by, get_or, map, min, slice_get};
ghost use Rattle.std.specs.List.{AllByRecursion, filter_map, list_all, range_with_len};
ghost use Rattle.ipb_base.specs.Word.{AreWords};
ghost use Rattle.script_steps.specs.declared.operation.Step.{Step};
ghost use Rattle.script_steps.specs.Rulings.{asked_operations};
ghost use Rattle.script_steps.specs.declared.operation.Verb.{Verb};
ghost use Rattle.lane_record.specs.declared.outcome.Outcome.{Outcome as OutcomeValue};
ghost use Rattle.lane_record.specs.declared.outcome.Outcome.TheVariants as became;
ghost use Rattle.transcript.specs.declared.line.OpLine.{OpLine as OpLineValue};
ghost use Rattle.transcript.specs.declared.line.LateAnswer.{LateAnswer as LateAnswerValue};
ghost use Rattle.transcript.specs.declared.line.LateAnswer.TheVariants as late_answer;
ghost use Rattle.transcript.specs.declared.line.OpResult.{OpResult as OpResultValue};
ghost use Rattle.transcript.specs.declared.line.OpResult.TheVariants.{Skipped, Error, Late};
ghost use Rattle.script_plans.specs.declared.planned.PieceAt.{PieceAt as PieceValue};
ghost use Rattle.transcript.specs.declared.body_end.BodyEnd.{BodyEnd as BodyEndValue};
ghost use Rattle.script_plans.specs.declared.board_run.BoardRun.{BoardRun as BoardRunValue};
ghost use Rattle.lane_record.specs.Outcomes.{place_of, is_sent, is_replied, is_timed_out};
ghost use Rattle.transcript.specs.Ends.{end_of, ends_with, late_of, told_of, told_at};
ghost use Rattle.transcript.specs.Results.{combined_result, is_good, op_places};
ghost use Rattle.transcript.specs.Text.{line_text};
ghost use Rattle.transcript.specs.Lines.{is_lost, run_status, client_lines, transcript_of};
ghost use Rattle.transcript.specs.Claims.{IsDone, HaveWords, HasWordsLate, IsPrintedLine, IsOther, HaveOwnPlaces};
ghost use Rattle.script_plans.specs.Claims.{IsBefore, Rises};
ghost use Rattle.transcript.specs.Claims.{AreOnBoards, CanBeTold, HasNoPlaceIfDenied, IsRunInRange, rules_of};
ghost use Rattle.transcript.specs.Claims.{rules_shown};

use reply_join::laws::{joining_is_a_function, skipped_stands_behind_a_fault};

/// The first sends of a board's line are the bodies that have a place, and each of them was replied to, timed out, or
/// was lost with the link.
pub fn a_board_line_counts_each_first_send_once()
    ensures places { (outcomes : List OutcomeValue) →
        count_by is_sent outcomes ≡ length (filter_map place_of outcomes) }
    ensures sum { (outcomes : List OutcomeValue) → count_by is_sent outcomes
        ≡ (count_by is_replied outcomes + count_by is_timed_out outcomes) + count_by is_lost outcomes }
{}

/// The status of a run is 0 exactly where every line is a value, `done` or `was`, and it is 0 or 1.
pub fn the_status_tells_whether_all_was_done()
    ensures done { (clients : List (List OpLineValue)) →
        ((run_status clients ≡ 0) ↔ AllByRecursion (AllByRecursion IsDone) clients) }
    ensures other { (clients : List (List OpLineValue)) → run_status clients < 2 }
{}

/// Every operation of a client, denied or not, has its line, in order, and the lines are numbered from 1.
pub fn every_operation_has_its_line()
    ensures { (runs : List BoardRunValue) (client : ℕ) (steps : List Step) → AreOnBoards runs steps →
        map (λ (line : OpLineValue). line.number) (client_lines runs client steps)
        ≡ range_with_len 1 (length (asked_operations steps)) }
{}

/// The lines of a session show a rule exactly where their operations are denied, operation by operation, and it is the
/// rule that denies them. Such a line has no place.
pub fn lines_tell_what_is_denied()
    ensures rules { (scripts : List (List Step)) (runs : List BoardRunValue) →
        AllByRecursion (AreOnBoards runs) scripts →
        map rules_shown (transcript_of scripts runs).clients ≡ map rules_of scripts }
    ensures places { (scripts : List (List Step)) (runs : List BoardRunValue) →
        AllByRecursion (AllByRecursion HasNoPlaceIfDenied) (transcript_of scripts runs).clients }
{}

/// Bodies, outcomes and late answers belong together by their numbers: a body ends by the outcome of its number and by
/// the late answer of its number, where there is one.
pub fn each_body_ends_by_its_own_late_answer()
    ensures ends { (bodies : List (List ℕ)) (outcomes : List OutcomeValue) (lates : List (Option (List ℕ))) (k : ℕ)
        (body : List ℕ) (outcome : OutcomeValue) →
        slice_get bodies k ≡ Some body → slice_get outcomes k ≡ Some outcome →
        slice_get (ends_with bodies outcomes lates) k ≡ Some (end_of body outcome (get_or lates k None)) }
    ensures count { (bodies : List (List ℕ)) (outcomes : List OutcomeValue) (lates : List (Option (List ℕ))) →
        length (ends_with bodies outcomes lates) ≡ min (length bodies) (length outcomes) }
{}

/// A transaction is told as skipped only where one before it in the same body failed: so a body without a failure has
/// no skipped line. So it is in a late answer.
pub fn skipped_stands_behind_an_error()
    ensures in_time { (body : List ℕ) (outcome : OutcomeValue) (late : Option (List ℕ)) (index : ℕ) →
        AreWords body → HaveWords outcome → told_at (told_of body outcome late) index ≡ Skipped →
        (earlier code after : ℕ) × (earlier < index)
        × (told_at (told_of body outcome late) earlier ≡ Error code after) }
    ensures late { (body : List ℕ) (outcome : OutcomeValue) (late : Option (List ℕ)) (index rounds : ℕ) →
        AreWords body → HasWordsLate late →
        told_at (told_of body outcome late) index ≡ Late rounds late_answer.Skipped →
        (earlier code after : ℕ) × (earlier < index)
        × (told_at (told_of body outcome late) earlier ≡ Late rounds (late_answer.Error code after)) }
{
    joining_is_a_function();
    skipped_stands_behind_a_fault();
}

/// A late answer is shown behind its timeout as the operation would be shown, were the piece all of it and had the
/// reply come in time. Pieces that were done before it are not shown, nor are those behind it.
pub fn a_late_answer_is_that_of_its_piece_alone()
    ensures answer { (verb : Verb) (mask place rounds index : ℕ) (body words : List ℕ) →
        combined_result verb mask (told_at (told_of body (became.TimedOut place rounds) (Some words)) index ∷ [])
        ≡ Late rounds (late_of
        (combined_result verb mask (told_at (told_of body (became.Replied place words) None) index ∷ []))) }
    ensures alone { (verb : Verb) (mask rounds : ℕ) (answer : LateAnswerValue) (front back : List OpResultValue) →
        list_all is_good front ≡ true → combined_result verb mask (front ++ Late rounds answer ∷ back)
        ≡ combined_result verb mask (Late rounds answer ∷ []) }
{}

/// Where no two bodies have one place, no two pieces of an operation have one, since they stand in order.
pub fn pieces_of_an_operation_have_their_own_places()
    ensures { (ends : List BodyEndValue) (pieces : List PieceValue) → HaveOwnPlaces ends →
        Rises IsBefore pieces → Rises IsOther (op_places ends pieces) }
{}

/// Two lines of one text are one line: so the text tells the number, the verb, the names, what the operation came to
/// and its places.
pub fn a_text_is_that_of_one_line()
    ensures { (line other : OpLineValue) → IsPrintedLine line → IsPrintedLine other →
        line_text line ≡ line_text other → line ≡ other }
{}

/// The lines of a client are such lines, where its outcomes and bodies have numbers of their fields' ranges and names
/// follow their rules: so its text tells every one of them.
pub fn the_lines_of_a_client_can_be_told()
    ensures { (runs : List BoardRunValue) (client : ℕ) (steps : List Step) → AllByRecursion IsRunInRange runs →
        AllByRecursion CanBeTold (asked_operations steps) → length (asked_operations steps) < 2 ^ 32 →
        AllByRecursion IsPrintedLine (client_lines runs client steps) }
{
    joining_is_a_function();
}
