//! Laws of audits. These functions do nothing when they run: their clauses are what is proved.

ghost use Rattle.std.specs.Prelude.{◌≡◌, ℕ, ◌+◌, ◌<◌, ◌≤◌, ◌↔◌, List, Some, slice_get};
ghost use Rattle.board_specs.specs.declared.spec.BoardSpec.{BoardSpec};
ghost use Rattle.script_plans.specs.Claims.{Rises};
ghost use Rattle.script_steps.specs.declared.operation.Step.{Step};
ghost use Rattle.transcript.specs.Shown.{places_told};
ghost use Rattle.transcript.specs.declared.line.BoardLine.{BoardLine};
ghost use Rattle.script_lang.specs.declared.session.Session.{Session as SessionValue};
ghost use Rattle.transcript_reader.specs.declared.shown.Shown.{Shown};
ghost use Rattle.transcript_reader.specs.Shown.{HaveNames};
ghost use Rattle.run_audit.specs.declared.verdict.Verdict.{Verdict as VerdictValue};
ghost use Rattle.run_audit.specs.AskedLines.{AskedLine, ShownPiece, asked_lines, pieces_shown};
ghost use Rattle.run_audit.specs.Places.{AreOfOneBody, IsMisplacedAt};
ghost use Rattle.run_audit.specs.Verdicts.{IsVerdict};

use transcript_reader::laws::{a_text_shows_one_thing, a_transcript_has_no_fault};

/// The operations of a session stand in the order of the text, each in a line of its own, and client behind client.
pub fn operations_stand_in_order()
    ensures lines { (scripts : List (List Step)) (shown : Shown) →
        Rises (λ (earlier later : AskedLine). earlier.line < later.line) (asked_lines scripts shown) }
    ensures clients { (scripts : List (List Step)) (shown : Shown) →
        Rises (λ (earlier later : AskedLine). earlier.client ≤ later.client) (asked_lines scripts shown) }
{}

/// Where no line has a place that cannot be, the places that are shown tell the bodies of a board apart: two pieces have
/// one place exactly where they stand in one body, a later body of a client has a later place, and each place is one
/// that the line of the board counts.
pub fn places_tell_bodies_apart()
    ensures same { (boards : List BoardSpec) (scripts : List (List Step)) (shown : Shown) (board i j : ℕ)
        (told : BoardLine) (one other : ShownPiece) → ((line : ℕ) → ¬ IsMisplacedAt boards scripts shown line) →
        slice_get shown.boards board ≡ Some told →
        slice_get (pieces_shown boards scripts board (asked_lines scripts shown)) i ≡ Some one →
        slice_get (pieces_shown boards scripts board (asked_lines scripts shown)) j ≡ Some other →
        (AreOfOneBody one other ↔ (one.place ≡ other.place)) }
    ensures rising { (boards : List BoardSpec) (scripts : List (List Step)) (shown : Shown) (board i j : ℕ)
        (told : BoardLine) (one other : ShownPiece) → ((line : ℕ) → ¬ IsMisplacedAt boards scripts shown line) →
        slice_get shown.boards board ≡ Some told →
        slice_get (pieces_shown boards scripts board (asked_lines scripts shown)) i ≡ Some one →
        slice_get (pieces_shown boards scripts board (asked_lines scripts shown)) j ≡ Some other →
        one.client ≡ other.client → one.body < other.body → one.place < other.place }
    ensures counted { (boards : List BoardSpec) (scripts : List (List Step)) (shown : Shown) (board i : ℕ)
        (told : BoardLine) (piece : ShownPiece) → ((line : ℕ) → ¬ IsMisplacedAt boards scripts shown line) →
        slice_get shown.boards board ≡ Some told →
        slice_get (pieces_shown boards scripts board (asked_lines scripts shown)) i ≡ Some piece →
        (1 ≤ piece.place) × (piece.place ≤ places_told told) × (piece.transaction ≡ piece.index + 1) }
{}

/// A text has one verdict, where no name has a line feed.
pub fn a_text_has_one_verdict()
    ensures { (session : SessionValue) (scripts : List (List Step)) (text : List ℕ) (one other : VerdictValue)
        → HaveNames session.boards scripts → IsVerdict session scripts text one
        → IsVerdict session scripts text other → one ≡ other }
{
    a_text_shows_one_thing();
    a_transcript_has_no_fault();
}
