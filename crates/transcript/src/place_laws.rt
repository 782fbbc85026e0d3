//! Laws of the places that lines show. These functions do nothing when they run: their clauses are what is proved.

ghost use Rattle.std.specs.Prelude.{◌≡◌, ◌↔◌, ℕ, List, Some, slice_get};
ghost use Rattle.script_steps.specs.declared.operation.Step.{Step};
ghost use Rattle.script_plans.specs.declared.board_run.BoardRun.{BoardRun as BoardRunValue};
ghost use Rattle.transcript.specs.Lines.{transcript_of};
ghost use Rattle.script_plans.specs.Runs.{ArePlanned, HaveOwnNames};
ghost use Rattle.transcript.specs.Shown.{IsPlaceOn, IsShown};

use mtu_packer::laws::each_body_has_a_piece;

/// The lines of a run show of each board the places of the bodies that its clients asked for, each in some line, and no
/// other place.
pub fn lines_show_the_places_of_bodies()
    ensures { (scripts : List (List Step)) (runs : List BoardRunValue) (board : ℕ) (run : BoardRunValue) (place : ℕ) →
        HaveOwnNames runs → ArePlanned 0 scripts runs → slice_get runs board ≡ Some run →
        (IsShown run.name place (transcript_of scripts runs).clients ↔ IsPlaceOn run place) }
{
    each_body_has_a_piece();
}
