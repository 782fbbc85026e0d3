//! Laws of audits. These functions do nothing when they run: their clauses are what is proved.

ghost use Rattle.std.specs.Prelude.{ℕ, List};
ghost use Rattle.board_history.specs.Links.{LinkReport};
ghost use Rattle.script_steps.specs.declared.operation.Step.{Step};
ghost use Rattle.script_lang.specs.declared.session.Session.{Session as SessionValue};
ghost use Rattle.script_plans.specs.declared.board_run.BoardRun.{BoardRun as BoardRunValue};
ghost use Rattle.transcript.specs.Lines.{transcript_of};
ghost use Rattle.transcript.specs.Text.{transcript_text};
ghost use Rattle.run_audit.specs.declared.verdict.Verdict.{Verdict as VerdictValue};
ghost use Rattle.run_audit.specs.Places.{IsPartialAt};
ghost use Rattle.run_audit.specs.Results.{IsWrongAt};
ghost use Rattle.run_audit.specs.Verdicts.{IsVerdict};
ghost use Rattle.transcript_reader.specs.Shown.{IsShownBy};
ghost use Rattle.audit_laws.specs.Audited.{IsToldRun, IsYesOrPartial, shown_of};

use crate::place_laws::places_and_counts_of_a_run_hold;
use board_bus::laws::a_reply_answers_its_body;
use board_history::laws::the_first_sends_are_the_order;
use mtu_packer::laws::{
    each_body_has_a_piece, operations_of_words_are_packed, packed_bodies_spell_requests,
};
use reply_join::laws::{each_answer_is_that_of_its_request, joining_is_a_function};
use transcript_reader::laws::{a_text_shows_one_thing, a_transcript_has_no_fault};

/// What a run prints over links that tell is a transcript of its session, in which each line shows what it can.
pub fn what_a_run_prints_is_a_transcript()
    ensures { (session : SessionValue) (steps : List (List Step)) (runs : List BoardRunValue) (links : List LinkReport)
        → IsToldRun session steps runs links
        → IsShownBy session.boards steps (transcript_text (transcript_of steps runs))
        (shown_of (transcript_of steps runs)) }
{
    each_answer_is_that_of_its_request();
    joining_is_a_function();
    operations_of_words_are_packed();
    packed_bodies_spell_requests();
    a_reply_answers_its_body();
    the_first_sends_are_the_order();
}

/// Where no line of a run shows some places of its operation and not all, each result is the one that a bus with a single
/// thread gives at the places that are shown.
pub fn results_are_those_of_the_replay()
    ensures { (session : SessionValue) (steps : List (List Step)) (runs : List BoardRunValue) (links : List LinkReport)
        → IsToldRun session steps runs links
        → ((line : ℕ) → ¬ IsPartialAt session.boards steps (shown_of (transcript_of steps runs)) line) → (line : ℕ)
        → ¬ IsWrongAt session.settings.rounds session.boards steps (shown_of (transcript_of steps runs)) line }
{
    each_body_has_a_piece();
}

/// The transcript of a run over links that tell fits its session, unless some operation of several pieces shows some of
/// its places and not all: whatever the links lost, repeated, delayed and reordered.
pub fn a_run_fits_unless_it_is_partial()
    ensures { (session : SessionValue) (steps : List (List Step)) (runs : List BoardRunValue) (links : List LinkReport)
        (verdict : VerdictValue) → IsToldRun session steps runs links
        → IsVerdict session steps (transcript_text (transcript_of steps runs)) verdict → IsYesOrPartial verdict }
{
    what_a_run_prints_is_a_transcript();
    places_and_counts_of_a_run_hold();
    results_are_those_of_the_replay();
    a_text_shows_one_thing();
    a_transcript_has_no_fault();
}
