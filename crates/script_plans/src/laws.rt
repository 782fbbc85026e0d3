//! Laws of plans. These functions do nothing when they run: their clauses are what is proved.

ghost use Rattle.std.specs.Prelude.{◌≡◌, ℕ, ◌+◌, ◌*◌, ◌<◌, ◌≤◌, ◌^◌, sum_by, List, length};
ghost use Rattle.std.specs.List.{AllByRecursion, flat_map};
ghost use Rattle.transaction_codec.specs.Request.{op_count};
ghost use Rattle.mtu_packer.specs.Packed.{Contents, deal, words_with_answer};
ghost use Rattle.mtu_packer.specs.declared.packing.TheConstants.{MIN_PAYLOAD, MAX_PAYLOAD};
ghost use Rattle.script_steps.specs.Executable.{AreExecutable};
ghost use Rattle.script_steps.specs.Packing.{all_operations, operations, HaveFewPieces};
ghost use Rattle.script_steps.specs.Rulings.{permitted_steps, steps_under_policy};
ghost use Rattle.script_steps.specs.declared.operation.Decision.{Decision};
ghost use Rattle.script_steps.specs.declared.operation.Step.{Step};
ghost use Rattle.script_plans.specs.declared.greeting.Greeting.{Greeting};
ghost use Rattle.script_plans.specs.declared.greeting.Greeting.TheVariants.{Live};
ghost use Rattle.script_plans.specs.Plan.{all_bodies, bodies_in, all_dispatches, plan, planned_on, plans_on, count_on};
ghost use Rattle.script_plans.specs.Claims.{IsBefore, Rises, HaveBodies, HasPiece};
ghost use Rattle.script_plans.specs.Plan as in_order;

use mtu_packer::laws::{
    each_body_has_a_piece, operations_of_words_are_packed, packings_are_short,
    pieces_are_no_more_than_words,
};

/// The bodies of a client on a board are those of its plan, one dispatch behind the other, and `counts` cuts them into
/// the plan's dispatches again.
pub fn bodies_stand_dispatch_by_dispatch()
    ensures bodies { (plan : List Contents) →
        (all_dispatches plan).bodies ≡ flat_map (λ bodies. bodies) (bodies_in plan) }
    ensures counts { (plan : List Contents) →
        deal (all_dispatches plan).counts (all_dispatches plan).bodies ≡ bodies_in plan }
{}

/// A plan has pieces for every operation on the board, and each piece stands in a body of the plan: so none is told as
/// unsent for want of a piece or a body.
pub fn every_operation_has_its_pieces()
    ensures pieces { (payload board : ℕ) (steps : List Step) →
        length (all_dispatches (plan payload board steps)).pieces ≡ count_on board (in_order.operations steps) }
    ensures bodies { (payload board : ℕ) (steps : List Step) → HaveBodies (all_dispatches (plan payload board steps)) }
{}

/// The pieces of an operation stand one behind the other, in rising bodies and, within a body, with rising numbers.
pub fn pieces_of_an_operation_stand_in_order()
    ensures { (payload board : ℕ) (steps : List Step) →
        AllByRecursion (Rises IsBefore) (all_dispatches (plan payload board steps)).pieces }
{}

/// Each body of a plan has a piece of some operation, so none is sent for nothing.
pub fn each_body_of_a_plan_has_a_piece()
    ensures { (payload board : ℕ) (steps : List Step) (body : ℕ) →
        body < length (all_dispatches (plan payload board steps)).bodies →
        HasPiece body (all_dispatches (plan payload board steps)).pieces }
{
    each_body_has_a_piece();
}

/// What is planned of steps under the decisions of a policy is what is planned of the steps without the denied ones: no
/// transaction of a denied operation is in a body.
pub fn nothing_is_planned_of_what_is_denied()
    ensures { (board : ℕ) (told : Greeting) (steps : List Step) (decisions : List Decision) →
        planned_on board told (steps_under_policy steps decisions) ≡ planned_on board told (permitted_steps steps decisions) }
{}

/// Operations that read and write at most 2^31 words together are cut into few enough pieces for packing.
pub fn few_words_are_few_pieces()
    ensures { (steps : List Step) → sum_by op_count (operations steps) ≤ 2 ^ 31 → HaveFewPieces steps }
{
    pieces_are_no_more_than_words();
}

/// The bodies that clients ask of one board are few, and short with the longest answers to them, by how many operations
/// all clients have and how many words these read and write.
pub fn plans_are_short()
    ensures bodies { (payload board : ℕ) (scripts : List (List Step)) → MIN_PAYLOAD ≤ payload → payload ≤ MAX_PAYLOAD →
        AllByRecursion AreExecutable scripts → 13 * length (all_bodies (plans_on board (Live payload) scripts))
        ≤ sum_by op_count (all_operations scripts) + 12 * length (all_operations scripts) }
    ensures words { (payload board : ℕ) (scripts : List (List Step)) → MIN_PAYLOAD ≤ payload → payload ≤ MAX_PAYLOAD →
        AllByRecursion AreExecutable scripts →
        sum_by words_with_answer (all_bodies (plans_on board (Live payload) scripts))
        ≤ 6 * sum_by op_count (all_operations scripts) }
{
    operations_of_words_are_packed();
    packings_are_short();
}
