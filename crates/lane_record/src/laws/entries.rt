//! What a legal record needs of each entry, and that every front of it is legal.

ghost use Rattle.std.specs.Prelude.{◌≡◌, ℕ, ◌∷◌, [], ◌++◌, ◌<◌, ◌≤◌, List, Option, Some, length, take, false};
ghost use Rattle.lane_record.specs.declared.item.Item.{Item};
ghost use Rattle.lane_record.specs.declared.outcome.Outcome.{Outcome};
ghost use Rattle.lane_record.specs.Items.{asked_count, told_by_first, is_sealed, plan_in, planned_count};
ghost use Rattle.lane_record.specs.Claims.{Claim, IsAskOf, claims};
ghost use Rattle.lane_record.specs.FirstSends.{HasPlaceAfter, PlacesCount, places_given};
ghost use Rattle.lane_record.specs.Legal.{IsLegal};
ghost use Rattle.lane_record.specs.NextEntry.{MayAsk, MayPlan, MayTook, ask_of, plan_of, the_seal, took_of};
ghost use Rattle.lane_record.specs.Offers.{KeepsOutcomes};

/// The empty record is legal. A Plan keeps a record legal exactly where planning is not closed and its number is the
/// client's next one.
pub fn a_record_goes_on_by_a_plan()
    ensures begins { IsLegal [] [] }
    ensures goes_on { (items : List Item) (outcomes : List (Option Outcome)) (client seq : ℕ) (body : List ℕ)
        → IsLegal items outcomes → MayPlan items client seq
        → IsLegal (items ++ plan_of client seq body ∷ []) outcomes }
    ensures only { (items : List Item) (outcomes : List (Option Outcome)) (client seq : ℕ) (body : List ℕ)
        → IsLegal (items ++ plan_of client seq body ∷ []) outcomes
        → IsLegal items outcomes × MayPlan items client seq }
{}

/// A Seal keeps a record legal exactly where none stands in it.
pub fn a_record_goes_on_by_a_seal()
    ensures goes_on { (items : List Item) (outcomes : List (Option Outcome)) → IsLegal items outcomes
        → is_sealed items ≡ false → IsLegal (items ++ the_seal ∷ []) outcomes }
    ensures only { (items : List Item) (outcomes : List (Option Outcome))
        → IsLegal (items ++ the_seal ∷ []) outcomes → IsLegal items outcomes × (is_sealed items ≡ false) }
{}

/// An Ask keeps a record legal exactly where its number is the client's next one and was planned, no number of give-ups
/// stands above its own, and what became of it so far has the next place where it has one.
pub fn a_record_goes_on_by_an_ask()
    ensures goes_on { (items : List Item) (outcomes : List (Option Outcome)) (client seq now : ℕ)
        (outcome : Option Outcome) → IsLegal items outcomes → MayAsk items client seq now
        → HasPlaceAfter (places_given outcomes) outcome
        → IsLegal (items ++ ask_of client seq now ∷ []) (outcomes ++ outcome ∷ []) }
    ensures only { (items : List Item) (outcomes : List (Option Outcome)) (client seq now : ℕ)
        (outcome : Option Outcome) → IsLegal (items ++ ask_of client seq now ∷ []) (outcomes ++ outcome ∷ [])
        → IsLegal items outcomes × MayAsk items client seq now × HasPlaceAfter (places_given outcomes) outcome }
{}

/// A Took keeps a record legal exactly where its body was asked and not taken yet, its outcome is what became of that
/// body, no number of give-ups stands above its own, and where the hub gave the body up that of the Ask is less.
pub fn a_record_goes_on_by_a_took()
    ensures goes_on { (items : List Item) (outcomes : List (Option Outcome)) (client seq : ℕ) (outcome : Outcome)
        (now : ℕ) → IsLegal items outcomes → MayTook items outcomes client seq outcome now
        → IsLegal (items ++ took_of client seq outcome now ∷ []) outcomes }
    ensures only { (items : List Item) (outcomes : List (Option Outcome)) (client seq : ℕ) (outcome : Outcome)
        (now : ℕ) → IsLegal (items ++ took_of client seq outcome now ∷ []) outcomes
        → IsLegal items outcomes × MayTook items outcomes client seq outcome now }
{}

/// A legal record stays legal while outcomes come: what became of a body stays, and the places count.
pub fn a_record_stays_legal_while_outcomes_come()
    ensures { (items : List Item) (old new : List (Option Outcome)) → IsLegal items old → KeepsOutcomes old new
        → PlacesCount (claims items) new → IsLegal items new }
{}

/// Every front of a legal record is legal, with what became of its own Asks.
pub fn a_front_of_a_legal_record_is_legal()
    ensures { (front back : List Item) (outcomes : List (Option Outcome)) → IsLegal (front ++ back) outcomes
        → IsLegal front (take (length (claims front)) outcomes) }
{}

/// In a legal record the body of an Ask is that of its Plan, a client's body is asked once, and a body that is not
/// asked yet can be asked exactly where it is planned.
pub fn an_ask_is_of_its_plan()
    ensures body { (items : List Item) (outcomes : List (Option Outcome)) (k client seq : ℕ) (claim : Claim)
        → IsLegal items outcomes → IsAskOf items k client seq claim
        → told_by_first plan_in client seq items ≡ Some claim.body }
    ensures once { (items : List Item) (outcomes : List (Option Outcome)) (j k client seq : ℕ) (one other : Claim)
        → IsLegal items outcomes → IsAskOf items j client seq one → IsAskOf items k client seq other → j ≡ k }
    ensures planned { (items : List Item) (outcomes : List (Option Outcome)) (client seq : ℕ) (body : List ℕ)
        → IsLegal items outcomes → told_by_first plan_in client seq items ≡ Some body → seq < planned_count client items }
    ensures there { (items : List Item) (outcomes : List (Option Outcome)) (client seq : ℕ)
        → IsLegal items outcomes → seq < planned_count client items
        → (body : List ℕ) × (told_by_first plan_in client seq items ≡ Some body) }
    ensures asked { (items : List Item) (outcomes : List (Option Outcome)) (client : ℕ)
        → IsLegal items outcomes → asked_count client items ≤ planned_count client items }
{}
