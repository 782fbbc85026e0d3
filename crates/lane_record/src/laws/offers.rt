//! What each event of a hub does to the tie between it and a record, and to the outcomes of the Asks.

ghost use Rattle.std.specs.Prelude.{◌≡◌, ℕ, ◌∷◌, [], ◌++◌, List, None, Option, Some, length};
ghost use Rattle.world_model.specs.declared.offered.Fate.{Fate};
ghost use Rattle.world_model.specs.declared.offered.Offered.{Offered};
ghost use Rattle.world_model.specs.declared.offered.OpenPlace.{OpenPlace};
ghost use Rattle.world_model.specs.Facts.{IsWindow};
ghost use Rattle.world_model.specs.Hub.{Hub, hear_quiet, is_waiting, new_hub, offer, places, take_message};
ghost use Rattle.world_model.specs.Messages.{ToHub};
ghost use Rattle.world_model.specs.Sends.{Next, next_send};
ghost use Rattle.lane_record.specs.declared.outcome.Outcome.{Outcome};
ghost use Rattle.lane_record.specs.declared.outcome.Outcome.TheVariants.{LinkLost};
ghost use Rattle.lane_record.specs.Outcomes.{is_given_up, is_lost, is_replied};
ghost use Rattle.lane_record.specs.Claims.{Claim};
ghost use Rattle.lane_record.specs.Offers.{AddsOnly, Agrees, AgreesWith, AreToldBy, KeepsOutcomes, Settles, all_lost};
ghost use Rattle.lane_record.specs.Offers.{offer_of, put_all};

/// A new hub agrees with a record without Asks. An Ask is an offer under the number of the Ask.
pub fn an_ask_is_an_offer()
    ensures begins { (first window rounds : ℕ) → AgreesWith (new_hub first window rounds) [] [] }
    ensures offered { (hub : Hub) (claims : List Claim) (outcomes : List (Option Outcome)) (claim : Claim)
        → AgreesWith hub claims outcomes
        → AgreesWith (offer hub (offer_of (length claims) claim)) (claims ++ claim ∷ []) (outcomes ++ None ∷ []) }
{}

/// A send of the hub leaves it in agreement with the same outcomes, and somebody waits as before.
pub fn a_send_settles_nothing()
    ensures agrees { (hub : Hub) (claims : List Claim) (outcomes : List (Option Outcome)) (next : Next)
        → IsWindow hub.window (length hub.sent) (places hub.open_places) → AgreesWith hub claims outcomes
        → next_send hub ≡ Some next → AgreesWith next.hub claims outcomes }
    ensures waits { (hub : Hub) (claims : List Claim) (outcomes : List (Option Outcome)) (next : Next)
        → IsWindow hub.window (length hub.sent) (places hub.open_places) → AgreesWith hub claims outcomes
        → next_send hub ≡ Some next → is_waiting next.hub ≡ is_waiting hub }
{}

/// A datagram that a hub hears settles Asks by replies alone, a quiet receive by a give-up alone, of at most as many
/// places as the window has.
pub fn what_a_hub_hears_settles_asks()
    ensures message { (hub : Hub) (message : Option ToHub) (claims : List Claim) (outcomes : List (Option Outcome))
        → IsWindow hub.window (length hub.sent) (places hub.open_places) → hub.fates ≡ []
        → AgreesWith hub claims outcomes
        → Settles (take_message hub message) claims outcomes is_replied 0 }
    ensures quiet { (hub : Hub) (claims : List Claim) (outcomes : List (Option Outcome))
        → IsWindow hub.window (length hub.sent) (places hub.open_places) → hub.fates ≡ []
        → AgreesWith hub claims outcomes
        → Settles (hear_quiet hub) claims outcomes is_given_up hub.window }
{}

/// Where the link fails, all Asks that nothing became of are lost with it, those that were sent with their places, and
/// so is each later Ask.
pub fn a_failed_link_loses_what_waits()
    ensures agrees { (sent queue : List Offered) (open_places : List OpenPlace) (claims : List Claim)
        (outcomes : List (Option Outcome)) → Agrees sent queue open_places claims outcomes
        → Agrees sent [] [] claims (all_lost (length sent) outcomes) }
    ensures keeps { (sent : ℕ) (outcomes : List (Option Outcome)) → KeepsOutcomes outcomes (all_lost sent outcomes) }
    ensures adds { (sent : ℕ) (outcomes : List (Option Outcome))
        → AddsOnly is_lost outcomes (all_lost sent outcomes) }
    ensures later { (sent : List Offered) (claims : List Claim) (outcomes : List (Option Outcome)) (claim : Claim)
        → Agrees sent [] [] claims outcomes
        → Agrees sent [] [] (claims ++ claim ∷ []) (outcomes ++ Some (LinkLost None) ∷ []) }
{}

/// What became of each Ask is a fate that was handed out for it, unless it was lost with the link.
pub fn outcomes_are_told_by_fates()
    ensures begins { AreToldBy [] [] }
    ensures handed_out { (fates more : List (ℕ × Fate)) (outcomes : List (Option Outcome))
        → AreToldBy fates outcomes → AreToldBy (fates ++ more) (put_all more outcomes) }
    ensures asked { (fates : List (ℕ × Fate)) (outcomes : List (Option Outcome))
        → AreToldBy fates outcomes → AreToldBy fates (outcomes ++ None ∷ []) }
    ensures lost { (fates : List (ℕ × Fate)) (sent : ℕ) (outcomes : List (Option Outcome))
        → AreToldBy fates outcomes → AreToldBy fates (all_lost sent outcomes) }
    ensures asked_in_vain { (fates : List (ℕ × Fate)) (outcomes : List (Option Outcome))
        → AreToldBy fates outcomes → AreToldBy fates (outcomes ++ Some (LinkLost None) ∷ []) }
{}
