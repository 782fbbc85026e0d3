//! What audits rest on, of every session that can be run. These functions do nothing when they run: their clauses are
//! what is proved.

ghost use Rattle.std.specs.Prelude.{ℕ, List, ◌<◌, ◌^◌, length};
ghost use Rattle.std.specs.List.{AllByRecursion};
ghost use Rattle.board_specs.specs.OpeningWords.{OpensOnWords};
ghost use Rattle.script_steps.specs.declared.operation.Step.{Step};
ghost use Rattle.script_lang.specs.declared.session.Session.{Session as SessionValue};
ghost use Rattle.session_input.specs.Deserved.{IsRunnable};
ghost use Rattle.transcript_reader.specs.Shown.{HaveNames};
ghost use Rattle.run_audit.specs.Verdicts.{CanBeAudited};
ghost use Rattle.audit_command.specs.Boards.{AreSimulated};

use script_lang::laws::{a_session_keeps_its_limits, the_ranges_of_a_session_name_words};
use script_steps::laws::what_is_denied_asks_for_less;
use session_input::laws::what_can_be_run_can_be_executed;

/// No name of a board or of an operation has a line feed, whether the operation is denied or not.
pub fn names_are_on_one_line()
    ensures { (bytes : List ℕ) (session : SessionValue) (steps : List (List Step))
        → IsRunnable bytes session steps → HaveNames session.boards steps }
{}

/// A session of simulated boards can be audited. A session has few rounds and few clients, and the ranges of its boards
/// name words of 32 bits.
pub fn sessions_can_be_audited()
    ensures can { (bytes : List ℕ) (session : SessionValue) (steps : List (List Step))
        → IsRunnable bytes session steps → AreSimulated session.boards → CanBeAudited session steps }
    ensures rounds { (bytes : List ℕ) (session : SessionValue) (steps : List (List Step))
        → IsRunnable bytes session steps → session.settings.rounds < 2 ^ 8 }
    ensures clients { (bytes : List ℕ) (session : SessionValue) (steps : List (List Step))
        → IsRunnable bytes session steps → length steps < 2 ^ 32 }
    ensures words { (bytes : List ℕ) (session : SessionValue) (steps : List (List Step))
        → IsRunnable bytes session steps → AllByRecursion OpensOnWords session.boards }
{
    a_session_keeps_its_limits();
    the_ranges_of_a_session_name_words();
    what_can_be_run_can_be_executed();
    what_is_denied_asks_for_less();
}
