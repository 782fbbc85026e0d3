//! What a record tells alone, once every asked body was taken.

ghost use Rattle.std.specs.Prelude.{◌≡◌, ℕ, [], List, Option, Some};
ghost use Rattle.std.specs.List.{AllByRecursion};
ghost use Rattle.world_model.specs.declared.offered.Offered.{Offered};
ghost use Rattle.world_model.specs.declared.offered.OpenPlace.{OpenPlace};
ghost use Rattle.world_model.specs.Facts.{bodies_of};
ghost use Rattle.world_model.specs.Places.{at_place};
ghost use Rattle.lane_record.specs.declared.item.Item.{Item};
ghost use Rattle.lane_record.specs.declared.outcome.Outcome.{Outcome};
ghost use Rattle.lane_record.specs.Outcomes.{place_of};
ghost use Rattle.lane_record.specs.Lists.{CountsFrom};
ghost use Rattle.lane_record.specs.Claims.{Claim, IsAskOf, IsFinished, claims, outcome_taken, taken_outcomes};
ghost use Rattle.lane_record.specs.FirstSends.{IsOfAsk, bodies_sent, first_sends, places_of};
ghost use Rattle.lane_record.specs.Legal.{IsLegal};
ghost use Rattle.lane_record.specs.Offers.{Agrees};

/// A finished legal record alone tells what became of each Ask, and the first sends with the client, number, body and
/// outcome of each: their places are 1, 2, 3, .., each is of an Ask with its Took, and each Ask that has a place stands
/// there.
pub fn a_finished_record_tells_all()
    ensures outcomes { (items : List Item) (outcomes : List (Option Outcome)) → IsLegal items outcomes
        → IsFinished items → outcomes ≡ taken_outcomes items }
    ensures places { (items : List Item) (outcomes : List (Option Outcome)) → IsLegal items outcomes
        → IsFinished items → CountsFrom 1 (places_of (first_sends items)) }
    ensures of_asks { (items : List Item) → AllByRecursion (IsOfAsk items) (first_sends items) }
    ensures at_places { (items : List Item) (outcomes : List (Option Outcome)) (k client seq : ℕ) (claim : Claim)
        (outcome : Outcome) (place : ℕ) → IsLegal items outcomes → IsFinished items
        → IsAskOf items k client seq claim → outcome_taken items claim ≡ Some outcome
        → place_of outcome ≡ Some place
        → at_place (first_sends items) place ≡ Some (record {
          place = place;
          client = client;
          seq = seq;
          body = claim.body;
          outcome = outcome;
        }) }
{}

/// The hub of a finished record queues nothing, and the bodies that it sent are the first sends of the record.
pub fn a_hub_has_sent_what_a_finished_record_tells()
    ensures queue { (items : List Item) (outcomes : List (Option Outcome)) (sent queue : List Offered)
        (open_places : List OpenPlace) → IsLegal items outcomes → IsFinished items
        → Agrees sent queue open_places (claims items) outcomes → queue ≡ [] }
    ensures sent { (items : List Item) (outcomes : List (Option Outcome)) (sent queue : List Offered)
        (open_places : List OpenPlace) → IsLegal items outcomes → IsFinished items
        → Agrees sent queue open_places (claims items) outcomes
        → bodies_of sent ≡ bodies_sent (first_sends items) }
{}
