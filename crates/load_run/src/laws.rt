//! Laws of generated sessions. These functions do nothing when they run: their clauses are what is proved.

ghost use Rattle.std.specs.Prelude.{◌≡◌, ◌≤◌, ℕ, List, [], ◌∷◌, length, sum, true};
ghost use Rattle.std.specs.List.{AllByRecursion};
ghost use Rattle.world_model.specs.Settings.{AreLimits};
ghost use Rattle.board_specs.specs.OpeningWords.{OpensOnWords};
ghost use Rattle.script_steps.specs.Executable.{AreExecutable};
ghost use Rattle.node_tree.specs.Maps.{RegisterMap, TableMap};
ghost use Rattle.node_tree.specs.Names.{IsIndexOf};
ghost use Rattle.script_steps.specs.Packing.{AreWithinLimits, CanBePacked, HaveFewPieces};
ghost use Rattle.script_lang.specs.Scripts.{steps_of};
ghost use Rattle.script_lang.specs.declared.script_refusal.TheConstants.{MAX_LINES};
ghost use Rattle.script_plans.specs.declared.board_run.BoardRun.{BoardRun};
ghost use Rattle.transcript.specs.Lines.{transcript_of};
ghost use Rattle.board_history.specs.Runs.{CanRun};
ghost use Rattle.command_terms.specs.Terms.{AreTerms};
ghost use Rattle.board_history.specs.Links.{LinkReport};
ghost use Rattle.board_history.specs.LinkRuns.{AreRunsOver};
ghost use Rattle.load_run.specs.declared.session.TheConstants.{MAX_COUNT};
ghost use Rattle.load_run.specs.Claims.{HasEachBelow, TellsRuns, sum_below};
ghost use Rattle.ipb_base.specs.Numbers.{most_operations};
ghost use Rattle.load_run.specs.Generated.{boards, settings, shares, steps};
ghost use Rattle.load_run.specs.ScriptLines.{HasCountAlone, scripts, table_name};
ghost use Rattle.load_run.specs.Summary.{all_done, summary_of, words_before};
ghost use Rattle.load_run.specs.Terms.{load_terms};

use board_history::laws::the_first_sends_are_the_order;
use script_plans::laws::few_words_are_few_pieces;

/// The most operations that the code takes are those of the definitions.
pub fn the_limit_of_operations()
    ensures { MAX_COUNT ≡ most_operations }
{}

/// The four clients have all operations together.
pub fn clients_share_all_operations()
    ensures { (count : ℕ) → sum (shares count) ≡ count }
{}

/// The steps of a generated session are what its script lines mean, by the index of the table that has the one node
/// `count`, at address 0.
pub fn the_steps_are_those_of_script_lines()
    ensures { (count : ℕ) (tables : TableMap) (index : RegisterMap)
        → HasCountAlone tables
        → IsIndexOf tables table_name index
        → steps_of (boards count) (index ∷ []) (scripts count) ≡ steps count }
{}

/// A generated session can be run: its settings and its board are within their ranges, and its scripts can be packed
/// and executed.
pub fn a_generated_session_can_be_run()
    ensures limits_of_settings { AreLimits settings }
    ensures one_board { (count : ℕ) → length (boards count) ≡ 1 }
    ensures here { (count : ℕ) → count ≤ most_operations → AllByRecursion CanRun (boards count) }
    ensures words { (count : ℕ) → AllByRecursion OpensOnWords (boards count) }
    ensures four_clients { (count : ℕ) → length (steps count) ≡ 4 }
    ensures packed { (count : ℕ) → AllByRecursion (AllByRecursion CanBePacked) (steps count) }
    ensures few { (count : ℕ) → count ≤ most_operations → AllByRecursion HaveFewPieces (steps count) }
    ensures executable { (count : ℕ) → AllByRecursion AreExecutable (steps count) }
    ensures within { (count : ℕ) → count ≤ most_operations → AreWithinLimits (steps count) }
    ensures short { (count : ℕ) → count ≤ most_operations →
        AllByRecursion (λ steps. length steps ≤ MAX_LINES) (steps count) }
{
    few_words_are_few_pieces();
}

/// The summary of a run tells how many bodies were replied to with code 0, the sum of the words that a bus with a
/// single thread answers to them at their places in the one order of the board, and how many bodies that order has.
pub fn a_summary_tells_the_run_of_the_board()
    ensures { (count : ℕ) (runs : List BoardRun) (links : List LinkReport) → count ≤ most_operations
        → AreRunsOver settings 0 (boards count) (steps count) runs links
        → TellsRuns count runs (summary_of count (transcript_of (steps count) runs)) }
{
    the_first_sends_are_the_order();
}

/// Where every operation was done, the words before, as many as the count, are 0, 1, .. up to the one before it, in
/// some order. They add up to the sum of these numbers, and as many bodies were sent as operations were asked for. All
/// this holds in whatever order the threads of the clients took turns and whatever the link lost, repeated, delayed or
/// reordered.
pub fn the_total_where_all_are_done()
    ensures words { (count : ℕ) (runs : List BoardRun) (links : List LinkReport) → count ≤ most_operations
        → AreRunsOver settings 0 (boards count) (steps count) runs links
        → all_done (summary_of count (transcript_of (steps count) runs)) ≡ true
        → HasEachBelow count (words_before (transcript_of (steps count) runs).clients) }
    ensures total { (count : ℕ) (runs : List BoardRun) (links : List LinkReport) → count ≤ most_operations
        → AreRunsOver settings 0 (boards count) (steps count) runs links
        → all_done (summary_of count (transcript_of (steps count) runs)) ≡ true
        → (summary_of count (transcript_of (steps count) runs)).total ≡ sum_below count }
    ensures places { (count : ℕ) (runs : List BoardRun) (links : List LinkReport) → count ≤ most_operations
        → AreRunsOver settings 0 (boards count) (steps count) runs links
        → all_done (summary_of count (transcript_of (steps count) runs)) ≡ true
        → (summary_of count (transcript_of (steps count) runs)).places ≡ count }
{
    the_first_sends_are_the_order();
}

/// No more operations are done than were asked for.
pub fn no_more_are_done_than_asked_for()
    ensures { (count : ℕ) (runs : List BoardRun) (links : List LinkReport) → count ≤ most_operations
        → AreRunsOver settings 0 (boards count) (steps count) runs links
        → (summary_of count (transcript_of (steps count) runs)).done ≤ count }
{
    the_first_sends_are_the_order();
}

/// What `load` owes are the terms of a command.
pub fn the_terms_of_load()
    ensures { (count : ℕ) → AreTerms (load_terms count) }
{}
