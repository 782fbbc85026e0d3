//! What the lines of a run show of the order of its boards. This function does nothing when it runs: its clause is what
//! is proved.

ghost use Rattle.std.specs.Prelude.{List};
ghost use Rattle.std.specs.List.{AllByRecursion};
ghost use Rattle.script_steps.specs.declared.operation.Step.{Step};
ghost use Rattle.script_plans.specs.declared.board_run.BoardRun.{BoardRun};
ghost use Rattle.transcript.specs.Lines.{transcript_of};
ghost use Rattle.script_plans.specs.Runs.{ArePlanned, HaveOwnNames};
ghost use Rattle.transcript.specs.Shown.{ShowsAllPlaces};
ghost use Rattle.board_history.specs.History.{IsOrdered};

use transcript::place_laws::lines_show_the_places_of_bodies;

/// Where each board has one order, the lines of operations show of each board the places 1, 2, .. up to the number of
/// first sends that its line tells, each place in some line, and no other place. A board that is not live shows none.
pub fn lines_show_all_places()
    ensures { (scripts : List (List Step)) (runs : List BoardRun) → HaveOwnNames runs → ArePlanned 0 scripts runs →
        AllByRecursion IsOrdered runs → ShowsAllPlaces (transcript_of scripts runs) }
{
    lines_show_the_places_of_bodies();
}
