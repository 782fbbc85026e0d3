//! What the record of a lane tells that came back from a hub. These functions do nothing when they run: their clauses
//! are what is proved.

ghost use Rattle.std.specs.Prelude.{◌≡◌, ℕ, List, length, sum};
ghost use Rattle.std.specs.List.{AllByRecursion};
ghost use Rattle.ipb_base.specs.Lists.{IsPrefix};
ghost use Rattle.turn_pass.specs.Pass.{Joined, Knowledge};
ghost use Rattle.turn_pass.specs.Record.{Record};
ghost use Rattle.lane_record.specs.declared.item.Item.{Item};
ghost use Rattle.lane_record.specs.Coding.{Head, record_of};
ghost use Rattle.hub_multiplexer.specs.Ends.{Ends};
ghost use Rattle.client_threads.specs.declared.plan.ClientPlan.{ClientPlan};
ghost use Rattle.client_threads.specs.declared.result.ClientResult.{ClientResult};
ghost use Rattle.client_threads.specs.Clients.{AreOfClientsFrom, HaveGoneOn, HaveRunOn, HoldsPlans, TookIn};
ghost use Rattle.client_threads.specs.Clients.{counts_on};
ghost use Rattle.board_history.specs.Records.{IsPartlyPlanned};
ghost use Rattle.client_history.specs.Clients.{AskAll, LeftByClients, came_with, sealed_plans};

use board_history::building::a_record_is_partly_planned_on_its_way;

/// A lane comes back from its hub with the head of its record, and its entries begin with those that it came with.
pub fn a_lane_comes_back_with_its_record()
    ensures { (head head_now : Head) (items items_now : List Item) (passes : List Joined) (after : Knowledge)
        (final : Record) → TookIn passes (came_with head items) after → Ends after final
        → final ≡ record_of head_now items_now → (head_now ≡ head) × IsPrefix items items_now }
{}

/// Where a lane came to its hub with the Plans of all clients and the Seal, and each client asked for all its bodies,
/// dispatch by dispatch, whatever the schedule was, the lane comes back with the record that such clients leave.
pub fn clients_of_a_hub_leave_a_clients_record()
    ensures { (lane : ℕ) (plans : List ClientPlan) (results : List ClientResult) (bodies : List (List (List ℕ)))
        (head head_now : Head) (items : List Item) (after : Knowledge) (final : Record)
        → AreOfClientsFrom 1 plans → AskAll lane plans bodies
        → HaveRunOn plans results lane (came_with head (sealed_plans bodies)) after → Ends after final
        → final ≡ record_of head_now items → LeftByClients lane plans results bodies items }
{}

/// Whatever came of the clients of a hub, a lane that came partly planned comes back partly planned: they planned
/// nothing more, and nobody else left an entry.
pub fn a_hub_left_at_any_moment_is_partly_planned()
    ensures { (plans : List ClientPlan) (seats : ℕ) (bodies : List (List (List ℕ))) (head head_now : Head)
        (items items_now : List Item) (after : Knowledge) (final : Record)
        → AreOfClientsFrom 1 plans → length plans ≡ length bodies → IsPartlyPlanned bodies items
        → HaveGoneOn plans seats (came_with head items) after → Ends after final
        → final ≡ record_of head_now items_now → IsPartlyPlanned bodies items_now }
{
    a_record_is_partly_planned_on_its_way();
}

/// A lane that comes to its hub with the Plans of all clients and the Seal holds the bodies that each client's plan
/// asks of it, and no other entry of that client.
pub fn sealed_plans_await_their_clients()
    ensures { (lane : ℕ) (plans : List ClientPlan) (bodies : List (List (List ℕ))) (head : Head)
        → AreOfClientsFrom 1 plans → AskAll lane plans bodies
        → AllByRecursion (λ (plan : ClientPlan). HoldsPlans plan.client (sum (counts_on lane plan))
        (came_with head (sealed_plans bodies))) plans }
{}
