//! From the record that clients leave to what a run may show. These functions do nothing when they run: their clauses
//! are what is proved.

ghost use Rattle.std.specs.Prelude.{◌≡◌, ℕ, ◌*◌, Bool, List, [], ◌++◌, map, IfSome, Option};
ghost use Rattle.std.specs.List.{AllByRecursion, count_by, flat_map};
ghost use Rattle.ipb_base.specs.Lists.{IsPrefix};
ghost use Rattle.board_bus.specs.Cells.{CellMap};
ghost use Rattle.board_specs.specs.declared.spec.BoardSpec.{BoardSpec};
ghost use Rattle.world_model.specs.declared.offered.Offered.{Offered};
ghost use Rattle.world_model.specs.Board.{bodies_executed};
ghost use Rattle.world_model.specs.Facts as offered;
ghost use Rattle.world_model.specs.Settings.{Limits};
ghost use Rattle.script_steps.specs.declared.operation.Step.{Step};
ghost use Rattle.lane_record.specs.declared.outcome.Outcome.{Outcome};
ghost use Rattle.lane_record.specs.declared.item.Item.{Item};
ghost use Rattle.lane_record.specs.Claims.{IsFinished, claims};
ghost use Rattle.lane_record.specs.FirstSends.{bodies_sent, first_sends};
ghost use Rattle.lane_record.specs.Legal.{IsLegal};
ghost use Rattle.lane_record.specs.Offers.{offers_from};
ghost use Rattle.lane_record.specs.Bounds.{AreLostOnlyIf, HasReached, IsKept, TellRounds};
ghost use Rattle.lane_record.specs.Outcomes.{TellsRounds};
ghost use Rattle.script_plans.specs.declared.greeting.Greeting.TheVariants.{Live};
ghost use Rattle.script_plans.specs.declared.board_run.BoardRun.{BoardRun};
ghost use Rattle.script_plans.specs.Plan.{ClientBodies, plans_on};
ghost use Rattle.board_history.specs.Order.{bodies_in, order};
ghost use Rattle.board_history.specs.Parts.{HasOneOrder, IsExecutedOnce, KeepsScripts};
ghost use Rattle.board_history.specs.History.{IsHistory, bodies_by_client, dispatches_by_client, lates_by_client};
ghost use Rattle.board_history.specs.History.{outcomes_by_client};
ghost use Rattle.lane_record.specs.Dispatches.{outcomes_in_order};
ghost use Rattle.board_history.specs.GiveUps.{GaveUpOnlyAfter};
ghost use Rattle.board_history.specs.Merges.{IsMergeOfSome};
ghost use Rattle.board_history.specs.Runs.{opens_with};
ghost use Rattle.board_history.specs.Lates.{AreLatesOf, lates_of};
ghost use Rattle.board_history.specs.Links.{HasFailed, IsBoardOf, IsLostOnlyIfFailed, IsUntouched, LinkReport};
ghost use Rattle.board_history.specs.Links.{board_there};
ghost use Rattle.board_history.specs.LinkRuns.{IsMergeOfAsked, IsLiveRun, IsRunOver, ShowsScripts, TellsPayload};
ghost use Rattle.board_history.specs.Records.{IsClientsRecord, IsPartlyPlanned, IsRecordOf, has_become};
ghost use Rattle.board_history.specs.Lanes.{IsSoundLane, IsTrueOf, bodies_offered};

use script_plans::laws::bodies_stand_dispatch_by_dispatch;

/// The record of clients who planned all their bodies before the Seal, and did their dispatches behind it, is one of
/// clients who planned these bodies and did these dispatches.
pub fn a_clients_record_is_a_record_of_clients()
    ensures { (bodies : List (List (List ℕ))) (outcomes : List (List (List Outcome))) (items : List Item) →
        IsClientsRecord bodies outcomes items → IsRecordOf bodies outcomes items }
{}

/// In the record of clients every Ask has its Took.
pub fn a_clients_record_is_finished()
    ensures { (bodies : List (List (List ℕ))) (outcomes : List (List (List Outcome))) (items : List Item)
        (became : List (Option Outcome)) → IsRecordOf bodies outcomes items → IsLegal items became →
        IsFinished items }
{}

/// The order of a board is the first sends that its lane's record tells: the places are 1, 2, 3, .., each of one body,
/// and each client's bodies stand in the order of its script.
pub fn the_order_is_the_first_sends()
    ensures order { (bodies : List (List (List ℕ))) (outcomes : List (List (List Outcome))) (items : List Item)
        (became : List (Option Outcome)) → IsRecordOf bodies outcomes items → IsLegal items became →
        HasOneOrder bodies (map outcomes_in_order outcomes) }
    ensures scripts { (bodies : List (List (List ℕ))) (outcomes : List (List (List Outcome))) (items : List Item)
        (became : List (Option Outcome)) → IsRecordOf bodies outcomes items → IsLegal items became →
        KeepsScripts bodies (map outcomes_in_order outcomes) }
    ensures sends { (bodies : List (List (List ℕ))) (outcomes : List (List (List Outcome))) (items : List Item)
        (became : List (Option Outcome)) → IsRecordOf bodies outcomes items → IsLegal items became →
        bodies_in (order bodies (map outcomes_in_order outcomes)) ≡ bodies_sent (first_sends items) }
{}

/// Over a link that tells, what clients took is one legal history of the board: each packet was executed at most once,
/// in the one order, and each reply is that of a bus with a single thread. So is each late answer of the lane that
/// stands beside an outcome.
pub fn what_clients_took_is_a_history()
    ensures history { (bodies : List (List (List ℕ))) (outcomes : List (List (List Outcome))) (items : List Item)
        (became : List (Option Outcome)) (lates : List (Option (List ℕ))) (shown : List (List (Option (List ℕ))))
        (opening : CellMap) (done : List (List ℕ)) →
        IsRecordOf bodies outcomes items → IsLegal items became → AreLatesOf lates (map outcomes_in_order outcomes) shown →
        IsTrueOf opening (claims items) became lates done → IsHistory opening bodies (map outcomes_in_order outcomes) shown }
    ensures executed { (bodies : List (List (List ℕ))) (outcomes : List (List (List Outcome))) (items : List Item)
        (became : List (Option Outcome)) (lates : List (Option (List ℕ))) (shown : List (List (Option (List ℕ))))
        (opening : CellMap) (done : List (List ℕ)) →
        IsRecordOf bodies outcomes items → IsLegal items became → AreLatesOf lates (map outcomes_in_order outcomes) shown →
        IsTrueOf opening (claims items) became lates done →
        IsExecutedOnce (order bodies (map outcomes_in_order outcomes)) (map outcomes_in_order outcomes) shown done }
{}

/// Who gave up has waited: where each give-up of the lane cost so much, the timed-out bodies and the dispatches that a
/// client found given up cost so much in all.
pub fn who_gave_up_has_waited()
    ensures { (window cost paid given_up : ℕ) (bodies : List (List (List ℕ)))
        (outcomes : List (List (List Outcome))) (items : List Item) (became : List (Option Outcome)) →
        IsRecordOf bodies outcomes items → IsKept items became window given_up →
        HasReached (cost * given_up) paid → GaveUpOnlyAfter window cost paid outcomes }
{}

/// Bodies are lost with the link only where it failed.
pub fn bodies_are_lost_with_a_failed_link()
    ensures { (bodies : List (List (List ℕ))) (outcomes : List (List (List Outcome))) (items : List Item)
        (became : List (Option Outcome)) (link : LinkReport) → IsRecordOf bodies outcomes items →
        IsLegal items became → AreLostOnlyIf (HasFailed link) became →
        AllByRecursion (AllByRecursion (IsLostOnlyIfFailed link)) (map outcomes_in_order outcomes) }
{}

/// A body that was timed out tells the rounds of its lane.
pub fn timed_out_bodies_tell_the_rounds()
    ensures { (bodies : List (List (List ℕ))) (outcomes : List (List (List Outcome))) (items : List Item)
        (became : List (Option Outcome)) (rounds : ℕ) → IsRecordOf bodies outcomes items →
        IsLegal items became → TellRounds rounds became →
        AllByRecursion (AllByRecursion (TellsRounds rounds)) (map outcomes_in_order outcomes) }
{}

/// At any moment what a board executed can be dealt out to the clients so that each gets bodies of its own, in order,
/// whatever was asked and taken so far. The record of clients is one whose Plans are their bodies.
pub fn a_board_executes_a_merge_at_any_moment()
    ensures merge { (bodies : List (List (List ℕ))) (items : List Item) (became : List (Option Outcome))
        (done : List (List ℕ)) → IsLegal items became → IsPartlyPlanned bodies items →
        IsPrefix done (bodies_offered (claims items) became) → IsMergeOfSome bodies done }
    ensures planned { (bodies : List (List (List ℕ))) (outcomes : List (List (List Outcome))) (items : List Item) →
        IsRecordOf bodies outcomes items → IsPartlyPlanned bodies items }
{}

/// So it is of what a lane has sent at any moment: these bodies are a merge of some that the scripts ask of the board,
/// each client's in its order, and so are the first of them, as what the board executed is. Nothing sent is one too.
pub fn a_lane_sends_a_merge_at_any_moment()
    ensures sent { (spec : BoardSpec) (board : ℕ) (scripts : List (List Step)) (payload : ℕ) (items : List Item)
        (became : List (Option Outcome)) (sent queue : List Offered) → TellsPayload spec.link payload →
        IsPartlyPlanned (map (λ (p : ClientBodies). p.bodies) (plans_on board (Live payload) scripts)) items →
        IsLegal items became → sent ++ queue ≡ offers_from 0 (claims items) became →
        IsMergeOfAsked spec board scripts (offered.bodies_of sent) }
    ensures first { (spec : BoardSpec) (board : ℕ) (scripts : List (List Step)) (first bodies : List (List ℕ)) →
        IsPrefix first bodies → IsMergeOfAsked spec board scripts bodies → IsMergeOfAsked spec board scripts first }
    ensures nothing { (spec : BoardSpec) (board : ℕ) (scripts : List (List Step)) →
        IsMergeOfAsked spec board scripts [] }
{}

/// So it is of a lane that was left in the midst of a session, and of a board that was not touched: each executed a
/// merge of bodies that the scripts ask of it, each client's in its order.
pub fn a_lane_left_at_any_moment_executed_a_merge()
    ensures lane { (settings : Limits) (spec : BoardSpec) (board : ℕ) (scripts : List (List Step)) (link : LinkReport)
        (payload : ℕ) (items : List Item) (became : List (Option Outcome)) (lates : List (Option (List ℕ)))
        (given_up : ℕ) → TellsPayload spec.link payload →
        IsPartlyPlanned (map (λ (p : ClientBodies). p.bodies) (plans_on board (Live payload) scripts)) items →
        IsSoundLane settings (opens_with spec.link) payload link items became lates given_up →
        IfSome (board_there link.telling) (λ there. IsMergeOfAsked spec board scripts (bodies_executed there)) }
    ensures untouched { (spec : BoardSpec) (board : ℕ) (scripts : List (List Step)) (link : LinkReport) →
        IsUntouched link →
        IfSome (board_there link.telling) (λ there. IsMergeOfAsked spec board scripts (bodies_executed there)) }
{
    a_lane_sends_a_merge_at_any_moment();
}

/// What became of the Asks of a lane is what became of the clients' bodies: there are as many of each kind.
pub fn a_record_counts_what_became_of_bodies()
    ensures { (kind : Outcome → Bool) (bodies : List (List (List ℕ))) (outcomes : List (List (List Outcome)))
        (items : List Item) (became : List (Option Outcome)) → IsRecordOf bodies outcomes items →
        IsLegal items became → count_by kind (flat_map outcomes_in_order outcomes) ≡ count_by (has_become kind) became }
{}

/// A finished lane is live: what its record and its link tell is what may be shown of its board, where the outcomes
/// that are shown stand dispatch by dispatch, and the late answers that are shown are those of the lane.
pub fn a_finished_lane_is_live()
    ensures { (settings : Limits) (spec : BoardSpec) (run : BoardRun) (link : LinkReport) (payload : ℕ)
        (items : List Item) (became : List (Option Outcome)) (lates : List (Option (List ℕ))) (given_up : ℕ) →
        map outcomes_in_order (dispatches_by_client run) ≡ outcomes_by_client run → TellsPayload spec.link payload →
        IsRecordOf (bodies_by_client run) (dispatches_by_client run) items →
        AreLatesOf lates (outcomes_by_client run) (lates_by_client run) →
        IsSoundLane settings (opens_with spec.link) payload link items became lates given_up →
        IsLiveRun settings spec payload run link }
{}

/// So it is a live run of its board where its clients did what their scripts ask, and the run shows each late answer of
/// the lane.
pub fn a_finished_lane_is_a_live_run()
    ensures { (settings : Limits) (spec : BoardSpec) (board : ℕ) (scripts : List (List Step)) (run : BoardRun)
        (link : LinkReport) (payload : ℕ) (items : List Item) (became : List (Option Outcome))
        (lates : List (Option (List ℕ))) (given_up : ℕ) →
        ShowsScripts spec board scripts run → IsBoardOf spec.link (board_there link.telling) →
        run.greeting ≡ Live payload → TellsPayload spec.link payload →
        IsClientsRecord (bodies_by_client run) (dispatches_by_client run) items →
        lates_by_client run ≡ map (lates_of lates) (outcomes_by_client run) →
        IsSoundLane settings (opens_with spec.link) payload link items became lates given_up →
        IsRunOver settings spec board scripts run link }
{
    bodies_stand_dispatch_by_dispatch();
}
