//! Records worked by hand. These functions do nothing when they run: their clauses are what is proved, by computing the
//! definitions.

ghost use Rattle.std.specs.Prelude.{◌≡◌, ◌∷◌, [], ◌⊎◌, List, Option, Some};
ghost use Rattle.lane_record.specs.declared.outcome.Outcome.{Outcome};
ghost use Rattle.lane_record.specs.declared.outcome.Outcome.TheVariants.{Replied, TimedOut};
ghost use Rattle.lane_record.specs.Claims.{claims, taken_outcomes};
ghost use Rattle.lane_record.specs.FirstSends.{first_sends};
ghost use Rattle.lane_record.specs.Legal.{IsLegal};
ghost use Rattle.lane_record.specs.Coding.{as_recorded};
ghost use Rattle.lane_record.specs.NextEntry.{took_of};
ghost use Rattle.lane_record.specs.Examples.{asked_before_planned, asked_by_two, first_replied, first_timed_out};
ghost use Rattle.lane_record.specs.Examples.{outcomes_of_two, places_by_arrival, planned_behind_seal, planned_twice};
ghost use Rattle.lane_record.specs.Examples.{taken_by_another, taken_by_two, timed_out_at_once};

/// Two clients, one body each. The record is legal, and tells the two first sends with what became of them.
pub fn two_clients_ask_one_body_each()
    ensures legal { IsLegal taken_by_two outcomes_of_two }
    ensures claims { claims taken_by_two
        ≡ record { client = 1; seq = 0; give_ups = 0; body = 7 ∷ [] }
        ∷ record { client = 2; seq = 0; give_ups = 0; body = 8 ∷ [] } ∷ [] }
    ensures taken { taken_outcomes taken_by_two ≡ outcomes_of_two }
    ensures sent { first_sends taken_by_two
        ≡ record { place = 1; client = 1; seq = 0; body = 7 ∷ []; outcome = TimedOut 1 3 }
        ∷ record { place = 2; client = 2; seq = 0; body = 8 ∷ []; outcome = Replied 2 (9 ∷ []) } ∷ [] }
    ensures numbers { as_recorded (took_of 2 0 (Replied 2 (9 ∷ [])) 0)
        ≡ record { entry = record { maker = 2; kind = 4; seq = 0 }; content = 0 ∷ 0 ∷ 2 ∷ 9 ∷ [] } }
{}

/// Six records that are not legal: a body planned twice, a Plan behind the Seal, an Ask before its Plan, a reply given
/// to another client, places in the order in which replies came, and a timeout without a give-up.
pub fn wrong_records_are_not_legal()
    ensures planned_twice { (outcomes : List (Option Outcome)) → IsLegal planned_twice outcomes → ⊥ }
    ensures behind_seal { (outcomes : List (Option Outcome)) → IsLegal planned_behind_seal outcomes → ⊥ }
    ensures before_planned { (outcomes : List (Option Outcome)) → IsLegal asked_before_planned outcomes → ⊥ }
    ensures by_another { IsLegal taken_by_another first_replied → ⊥ }
    ensures by_arrival { IsLegal asked_by_two places_by_arrival → ⊥ }
    ensures at_once { IsLegal timed_out_at_once first_timed_out → ⊥ }
{}
