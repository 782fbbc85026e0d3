//! Laws of reads of one word. These functions do nothing when they run: their clauses are what is proved.

ghost use Rattle.std.specs.Prelude.{◌≡◌, ℕ, ◌∷◌, [], List, Ok, Some, true, is_some, slice_get};
ghost use Rattle.std.specs.List.{AllByRecursion};
ghost use Rattle.board_bus.specs.Bodies.{run_body};
ghost use Rattle.board_bus.specs.Cells.{CellMap, HoldsWords, read_word};
ghost use Rattle.mtu_packer.specs.Packing.{body_requests, body_words};
ghost use Rattle.reply_join.specs.declared.answer.Answer.{Answer};
ghost use Rattle.reply_join.specs.Joining.{IsJoined};
ghost use Rattle.transaction_codec.specs.Request.{AreRequests};
ghost use Rattle.transaction_codec.specs.declared.request.Op.{Op};
ghost use Rattle.transcript.specs.Ends.{answer_result};
ghost use Rattle.transcript.specs.Results.{is_good};
ghost use Rattle.transcript.specs.declared.line.OpResult.TheVariants.{Value};
ghost use Rattle.transcript.specs.Lines.{client_lines, run_status, transcript_of};
ghost use Rattle.world_model.specs.Settings.{Limits};
ghost use Rattle.board_specs.specs.declared.spec.BoardSpec.{BoardSpec};
ghost use Rattle.board_specs.specs.OpeningWords.{OpensOnWords};
ghost use Rattle.script_steps.specs.Executable.{AreExecutable};
ghost use Rattle.script_steps.specs.declared.operation.Step.{Step};
ghost use Rattle.script_plans.specs.declared.board_run.BoardRun.{BoardRun};
ghost use Rattle.board_history.specs.Links.{CanBeMade, LinkReport};
ghost use Rattle.board_history.specs.LinkRuns.{AreRunsOver};
ghost use Rattle.config_laws.specs.Reads.{IsWordRead, ReadSingleWords, ShowsOpeningWord, base_of};

use board_bus::laws::{a_body_is_executed_in_order, a_reply_answers_its_body, words_stay_words};
use board_history::runs::where_all_was_done_a_client_alone_has_one_run;
use mtu_packer::laws::operations_of_words_are_packed;
use reply_join::laws::joining_is_a_function;
use transaction_codec::laws::{one_list_for_words, written_is_read_again};
use transcript::laws::the_status_tells_whether_all_was_done;

/// A body of reads of one word leaves the bus as it is. What its reply answers to one of them, where that is no fault,
/// is the word at its address.
pub fn a_body_of_word_reads_answers_what_is_there()
    ensures bus { (cells : CellMap) (part : List Op) → AreRequests (body_requests part) →
        AllByRecursion IsWordRead part → (run_body cells (body_words part)).cells ≡ cells }
    ensures answers { (cells : CellMap) (part : List Op) (answers : List Answer) (i : ℕ) (op : Op) →
        HoldsWords cells → AreRequests (body_requests part) → AllByRecursion IsWordRead part →
        IsJoined (body_words part) (run_body cells (body_words part)).reply answers → slice_get part i ≡ Some op →
        is_good (answer_result (slice_get answers i)) ≡ true → (word : ℕ) × (read_word cells (base_of op) ≡ Ok word)
        × (answer_result (slice_get answers i) ≡ Value (word ∷ [])) }
{
    a_body_is_executed_in_order();
    written_is_read_again();
    one_list_for_words();
}

/// Where every line of a client alone in its session is a value, and it reads single words, each line shows the word
/// that its board opens with at the address of its operation, whatever the links lost, repeated, delayed or reordered.
/// The links tell, the boards run here and open with words of 32 bits, and the script can be executed, as it is of every
/// session that can be run.
pub fn good_reads_show_the_words_that_boards_open_with()
    ensures { (settings : Limits) (specs : List BoardSpec) (steps : List Step) (runs : List BoardRun)
        (links : List LinkReport) → AreRunsOver settings 0 specs (steps ∷ []) runs links →
        AllByRecursion (λ link. is_some link.telling ≡ true) links →
        AllByRecursion (λ spec. CanBeMade spec.link) specs → AllByRecursion OpensOnWords specs → AreExecutable steps →
        ReadSingleWords steps → run_status (transcript_of (steps ∷ []) runs).clients ≡ 0 →
        AllByRecursion (ShowsOpeningWord specs steps) (client_lines runs 0 steps) }
{
    a_body_of_word_reads_answers_what_is_there();
    where_all_was_done_a_client_alone_has_one_run();
    the_status_tells_whether_all_was_done();
    a_reply_answers_its_body();
    words_stay_words();
    joining_is_a_function();
    operations_of_words_are_packed();
}
