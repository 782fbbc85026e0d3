//! What a lane keeps beside its hub: its record, what became of each Ask, and the bounds on its give-ups.

ghost use Rattle.std.specs.Prelude.{◌≡◌, ℕ, ◌+◌, ◌∷◌, [], ◌++◌, ◌≤◌, ◌<◌, List, None, Option, Some, false, true};
ghost use Rattle.std.specs.List.{slice_get};
ghost use Rattle.lane_record.specs.declared.item.Item.{Item};
ghost use Rattle.lane_record.specs.declared.outcome.Outcome.{Outcome};
ghost use Rattle.lane_record.specs.declared.outcome.Outcome.TheVariants.{LinkLost};
ghost use Rattle.lane_record.specs.Outcomes.{is_given_up, is_lost, is_replied};
ghost use Rattle.lane_record.specs.Items.{is_sealed};
ghost use Rattle.lane_record.specs.Claims.{Claim, claims};
ghost use Rattle.lane_record.specs.FirstSends.{PlacesCount};
ghost use Rattle.lane_record.specs.Bounds.{IsKept, timeouts};
ghost use Rattle.lane_record.specs.NextEntry.{MayAsk, MayPlan, ask_of, plan_of, the_seal, took_of};
ghost use Rattle.lane_record.specs.Legal.{TakesOf};
ghost use Rattle.lane_record.specs.Offers.{AddsOnly, KeepsOutcomes};

/// What a lane keeps goes on with each entry: a Plan, the Seal, an Ask without an outcome or one that is lost already,
/// and a Took at the number of give-ups so far.
pub fn entries_go_into_the_book()
    ensures begins { (window : ℕ) → IsKept [] [] window 0 }
    ensures plan { (items : List Item) (outcomes : List (Option Outcome)) (window now client seq : ℕ) (body : List ℕ)
        → IsKept items outcomes window now → MayPlan items client seq
        → IsKept (items ++ plan_of client seq body ∷ []) outcomes window now }
    ensures seal { (items : List Item) (outcomes : List (Option Outcome)) (window now : ℕ)
        → IsKept items outcomes window now → is_sealed items ≡ false
        → IsKept (items ++ the_seal ∷ []) outcomes window now }
    ensures ask { (items : List Item) (outcomes : List (Option Outcome)) (window now client seq : ℕ)
        → IsKept items outcomes window now → MayAsk items client seq now
        → IsKept (items ++ ask_of client seq now ∷ []) (outcomes ++ None ∷ []) window now }
    ensures ask_in_vain { (items : List Item) (outcomes : List (Option Outcome)) (window now client seq : ℕ)
        → IsKept items outcomes window now → MayAsk items client seq now
        → IsKept (items ++ ask_of client seq now ∷ []) (outcomes ++ Some (LinkLost None) ∷ []) window now }
    ensures took { (items : List Item) (outcomes : List (Option Outcome)) (window now client seq : ℕ)
        (outcome : Outcome) → IsKept items outcomes window now → TakesOf items outcomes client seq outcome
        → IsKept (items ++ took_of client seq outcome now ∷ []) outcomes window now }
{}

/// What a lane keeps goes on while outcomes come: replies, losses with the link, and a give-up, which raises the number
/// of give-ups by one and times out at most a window of bodies.
pub fn outcomes_go_into_the_book()
    ensures replied { (items : List Item) (old new : List (Option Outcome)) (window now : ℕ)
        → IsKept items old window now → KeepsOutcomes old new → AddsOnly is_replied old new
        → PlacesCount (claims items) new → IsKept items new window now }
    ensures lost { (items : List Item) (old new : List (Option Outcome)) (window now : ℕ)
        → IsKept items old window now → KeepsOutcomes old new → AddsOnly is_lost old new
        → PlacesCount (claims items) new → IsKept items new window now }
    ensures gave_up { (items : List Item) (old new : List (Option Outcome)) (window now : ℕ)
        → IsKept items old window now → KeepsOutcomes old new → timeouts new ≤ timeouts old + window
        → PlacesCount (claims items) new → IsKept items new window (now + 1) }
    ensures asked { (items : List Item) (outcomes : List (Option Outcome)) (window now k : ℕ) (claim : Claim)
        → IsKept items outcomes window now → slice_get (claims items) k ≡ Some claim → claim.give_ups ≤ now }
{}
