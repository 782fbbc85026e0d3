//! Laws of the places and the counts of what a run prints. This function does nothing when it runs: its clauses are what
//! is proved.

ghost use Rattle.std.specs.Prelude.{ℕ, List};
ghost use Rattle.board_history.specs.Links.{LinkReport};
ghost use Rattle.script_steps.specs.declared.operation.Step.{Step};
ghost use Rattle.script_lang.specs.declared.session.Session.{Session as SessionValue};
ghost use Rattle.script_plans.specs.declared.board_run.BoardRun.{BoardRun as BoardRunValue};
ghost use Rattle.transcript.specs.Lines.{transcript_of};
ghost use Rattle.run_audit.specs.Counts.{IsMiscountedAt};
ghost use Rattle.run_audit.specs.Places.{IsMisplacedAt, IsPartialAt};
ghost use Rattle.audit_laws.specs.Audited.{IsToldRun, shown_of};

use board_history::laws::the_first_sends_are_the_order;
use mtu_packer::laws::each_body_has_a_piece;
use transcript::laws::a_board_line_counts_each_first_send_once;

/// Where no line of a run shows some places of its operation and not all, each place that is shown is that of its body,
/// and the lines of boards count the places that are shown and what became of them.
pub fn places_and_counts_of_a_run_hold()
    ensures places { (session : SessionValue) (steps : List (List Step)) (runs : List BoardRunValue)
        (links : List LinkReport) → IsToldRun session steps runs links
        → ((line : ℕ) → ¬ IsPartialAt session.boards steps (shown_of (transcript_of steps runs)) line)
        → (line : ℕ) → ¬ IsMisplacedAt session.boards steps (shown_of (transcript_of steps runs)) line }
    ensures counts { (session : SessionValue) (steps : List (List Step)) (runs : List BoardRunValue)
        (links : List LinkReport) → IsToldRun session steps runs links
        → ((line : ℕ) → ¬ IsPartialAt session.boards steps (shown_of (transcript_of steps runs)) line)
        → (line : ℕ) → ¬ IsMiscountedAt session.boards steps (shown_of (transcript_of steps runs)) line }
{
    each_body_has_a_piece();
    the_first_sends_are_the_order();
    a_board_line_counts_each_first_send_once();
}
