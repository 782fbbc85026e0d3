//! Laws of the definitions. These functions do nothing when they run: their clauses are what is proved.

ghost use Rattle.std.specs.Prelude.{◌≡◌, ℕ, List, [], Option, map, length};
ghost use Rattle.std.specs.List.{flat_map};
ghost use Rattle.board_bus.specs.Cells.{CellMap};
ghost use Rattle.lane_record.specs.declared.outcome.Outcome.{Outcome};
ghost use Rattle.script_plans.specs.declared.board_run.BoardRun.{BoardRun};
ghost use Rattle.lane_record.specs.Outcomes.{is_sent};
ghost use Rattle.script_plans.specs.Runs.{outcomes_on};
ghost use Rattle.script_plans.specs.declared.board_run.ClientPart.{ClientPart};
ghost use Rattle.transcript.specs.Ends.{ends_of};
ghost use Rattle.transcript.specs.Claims.{HaveOwnPlaces};
ghost use Rattle.std.specs.List.{AllByRecursion, count_by};
ghost use Rattle.board_history.specs.Order.{bodies_in, order};
ghost use Rattle.board_history.specs.Parts.{AllReplied, HasOneOrder, IsExecutedOnce, KeepsScripts};
ghost use Rattle.board_history.specs.Merges.{IsMergeOfAll, IsMergeOfSome};
ghost use Rattle.board_history.specs.InTurn.{AreInTurn, IsUsedByOne, in_turn};
ghost use Rattle.board_history.specs.History.{IsHistory, bodies_by_client, outcomes_by_client};

/// Clients that run one after another make one history. Each body is replied to, and the order of the board is the
/// bodies of the first client, then those of the second, and so on: what was executed is all of it.
pub fn clients_in_turn_make_a_history()
    ensures history { (opening : CellMap) (bodies : List (List (List ℕ))) →
        IsHistory opening bodies (in_turn 1 opening bodies) [] }
    ensures replied { (opening : CellMap) (bodies : List (List (List ℕ))) →
        AllReplied (in_turn 1 opening bodies) }
    ensures in_turn { (opening : CellMap) (bodies : List (List (List ℕ))) →
        AreInTurn bodies (in_turn 1 opening bodies) }
    ensures order { (opening : CellMap) (bodies : List (List (List ℕ))) →
        bodies_in (order bodies (in_turn 1 opening bodies)) ≡ flat_map (λ client. client) bodies }
    ensures executed { (opening : CellMap) (bodies : List (List (List ℕ))) →
        IsExecutedOnce (order bodies (in_turn 1 opening bodies)) (in_turn 1 opening bodies) []
        (flat_map (λ client. client) bodies) }
{}

/// A history in which each body was replied to, and the places of each client's bodies stand before those of the next
/// client's, is the one of clients that run one after another. So these clients have one list of outcomes.
pub fn a_history_of_clients_in_turn_is_the_only_one()
    ensures { (opening : CellMap) (bodies : List (List (List ℕ))) (outcomes : List (List Outcome))
        (lates : List (List (Option (List ℕ)))) → IsHistory opening bodies outcomes lates → AllReplied outcomes →
        AreInTurn bodies outcomes → outcomes ≡ in_turn 1 opening bodies }
{}

/// A client that uses a board alone has the places 1, 2, 3, .. there, in the order of its script.
pub fn a_client_alone_is_in_turn()
    ensures { (bodies : List (List (List ℕ))) (outcomes : List (List Outcome)) → IsUsedByOne bodies →
        HasOneOrder bodies outcomes → KeepsScripts bodies outcomes → AreInTurn bodies outcomes }
{}

/// The first sends that the line of a board tells are as many as its order has bodies.
pub fn the_first_sends_are_the_order()
    ensures { (run : BoardRun) → map length (outcomes_by_client run) ≡ map length (bodies_by_client run) →
        count_by is_sent (outcomes_on run) ≡ length (order (bodies_by_client run) (outcomes_by_client run)) }
{}

/// Where a board has one order, no two bodies of a client have one place there. So neither have two pieces of an
/// operation.
pub fn each_body_has_its_own_place()
    ensures { (run : BoardRun) → HasOneOrder (bodies_by_client run) (outcomes_by_client run) →
        AllByRecursion (λ (part : ClientPart). HaveOwnPlaces (ends_of part)) run.parts }
{}

/// What a board executed can be dealt out to the clients so that each gets bodies of its own, in order. Where each body
/// was replied to it is the whole order, and a merge of all bodies of all clients.
pub fn what_was_executed_is_a_merge()
    ensures some { (bodies : List (List (List ℕ))) (outcomes : List (List Outcome))
        (lates : List (List (Option (List ℕ)))) (executed : List (List ℕ)) →
        map length outcomes ≡ map length bodies → KeepsScripts bodies outcomes →
        IsExecutedOnce (order bodies outcomes) outcomes lates executed → IsMergeOfSome bodies executed }
    ensures all { (bodies : List (List (List ℕ))) (outcomes : List (List Outcome))
        (lates : List (List (Option (List ℕ)))) (executed : List (List ℕ)) →
        map length outcomes ≡ map length bodies → HasOneOrder bodies outcomes → KeepsScripts bodies outcomes →
        AllReplied outcomes → IsExecutedOnce (order bodies outcomes) outcomes lates executed →
        IsMergeOfAll bodies executed }
{}
