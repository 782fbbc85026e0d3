//! Laws of the transcripts of sessions. These functions do nothing when they run: their clauses are what is proved.

ghost use Rattle.std.specs.Prelude.{ℕ, List};
ghost use Rattle.board_history.specs.Links.{LinkReport};
ghost use Rattle.board_history.specs.LinkRuns.{AllExecutedSome};
ghost use Rattle.run_command.specs.Headline.{IsTranscriptOf};

use board_history::runs::each_board_executes_a_merge;

/// What each board executed is a merge of bodies that the scripts ask of it, each client's in its order.
pub fn the_boards_of_a_transcript_execute_a_merge()
    ensures { (bytes : List ℕ) (links : List LinkReport) (status : ℕ) (text : List ℕ)
        (is : IsTranscriptOf bytes links status text) → AllExecutedSome 0 is.session.boards is.steps links }
{
    each_board_executes_a_merge();
}
