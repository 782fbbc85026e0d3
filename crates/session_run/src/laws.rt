//! Laws of the links that a session leaves. These functions do nothing when they run: their clauses are what is proved.

ghost use Rattle.std.specs.Prelude.{ℕ, List, IfSome};
ghost use Rattle.world_model.specs.Board.{bodies_executed};
ghost use Rattle.world_model.specs.Settings.{Limits};
ghost use Rattle.board_specs.specs.declared.spec.BoardSpec.{BoardSpec};
ghost use Rattle.script_steps.specs.declared.operation.Step.{Step};
ghost use Rattle.board_history.specs.Links.{LinkReport, board_there};
ghost use Rattle.board_history.specs.LinkRuns.{IsMergeOfAsked};
ghost use Rattle.board_greeting.specs.Boards.{IsFreshLink};
ghost use Rattle.session_run.specs.Links.{IsLeft};

use board_history::records::a_lane_sends_a_merge_at_any_moment;
use hub_lane::laws::a_lane_over_a_link_that_tells_is_true;
use links::laws::each_event_leads_to_a_state_of_a_run;

/// The board of a link that a session leaves, whatever came of it, executed a merge of bodies that the scripts ask of
/// it, each client's in its order.
pub fn a_board_left_executed_a_merge()
    ensures { (spec : BoardSpec) (board : ℕ) (scripts : List (List Step)) (link : LinkReport) →
        IsLeft spec board scripts link →
        IfSome (board_there link.telling) (λ there. IsMergeOfAsked spec board scripts (bodies_executed there)) }
{
    a_lane_over_a_link_that_tells_is_true();
    a_lane_sends_a_merge_at_any_moment();
}

/// A link on which nothing but a greeting was sent is left so: a hub that begins there stands to it.
pub fn a_fresh_link_is_left()
    ensures { (settings : Limits) (spec : BoardSpec) (board : ℕ) (scripts : List (List Step)) (link : LinkReport) →
        IsFreshLink settings spec link → IsLeft spec board scripts link }
{
    a_lane_sends_a_merge_at_any_moment();
    each_event_leads_to_a_state_of_a_run();
}
