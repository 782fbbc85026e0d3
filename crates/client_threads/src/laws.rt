//! What the results of clients tell.

ghost use Rattle.std.specs.Prelude.{◌≡◌, ◌↔◌, ◌≤◌, ℕ, sum, Some, None};
ghost use Rattle.turn_pass.specs.Pass.{Joined};
ghost use Rattle.lane_record.specs.declared.outcome.Outcome.{Outcome};
ghost use Rattle.client_threads.specs.declared.plan.ClientPlan.{ClientPlan};
ghost use Rattle.client_threads.specs.declared.result.ClientResult.{ClientResult};
ghost use Rattle.client_threads.specs.Clients.{DidPlan, HasTook, counts_on, outcome_of};

/// Where a client did its plan on a lane, its result tells an outcome of each body that the plan asks there and of no
/// other, and the entries of its pass have the Took of that body with that outcome.
pub fn a_result_has_what_its_plan_asks()
    ensures asked { (lane seq : ℕ) (plan : ClientPlan) (result : ClientResult) (pass : Joined)
        → DidPlan lane plan result pass
        → (outcome_of result lane seq ≡ None) ↔ (sum (counts_on lane plan) ≤ seq) }
    ensures took { (lane seq : ℕ) (plan : ClientPlan) (result : ClientResult) (pass : Joined) (outcome : Outcome)
        → DidPlan lane plan result pass → outcome_of result lane seq ≡ Some outcome
        → HasTook plan.client seq outcome pass }
{}
