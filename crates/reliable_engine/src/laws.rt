//! Laws of an engine's hub, over every list of events. These functions do nothing when they run: their clauses are what
//! is proved.

ghost use Rattle.std.specs.Prelude.{◌≡◌, ◌≢◌, ◌≤◌, ◌<◌, ◌+◌, ◌-◌, ℕ, List, [], ◌∷◌, ◌++◌, length, map, replicate};
ghost use Rattle.std.specs.Prelude.{true, false, None, Some};
ghost use Rattle.std.specs.List.{AllByRecursion};
ghost use Rattle.ipb_base.specs.Lists.{IsPrefix};
ghost use Rattle.packet_ids.specs.Identifier.{IsIdentifier};
ghost use Rattle.world_model.specs.declared.offered.Offered.{Offered};
ghost use Rattle.world_model.specs.declared.offered.Fate.{Fate};
ghost use Rattle.world_model.specs.declared.offered.Fate.TheVariants.{Replied, TimedOut, Unsent};
ghost use Rattle.world_model.specs.declared.offered.OpenPlace.{OpenPlace};
ghost use Rattle.world_model.specs.declared.sending.Sending.TheVariants.{Control, Status};
ghost use Rattle.world_model.specs.Hub.{Hub, give_up, hear_quiet, hear_status, new_hub, offer, want_control};
ghost use Rattle.world_model.specs.Hub.{is_waiting, low, places, recover, want_status};
ghost use Rattle.world_model.specs.Sends.{Next, next_send, pending};
ghost use Rattle.world_model.specs.History.{tag_of_fate, times};
ghost use Rattle.world_model.specs.LateAnswers.{AreOfTimedOut};
ghost use Rattle.world_model.specs.declared.settings.TheConstants.{MAX_WINDOW};
ghost use Rattle.reliable_engine.specs.Answers.{IsOpen, IsSendOf, TellsPlace, sent_next};
ghost use Rattle.reliable_engine.specs.Events.{AreAllowed, HubEvent, IsAllowed, IsAmong, IsAtRest, IsInWindow};
ghost use Rattle.reliable_engine.specs.Events.{IsOutOfRounds, Send, after_event, handouts};
ghost use Rattle.reliable_engine.specs.Events.{IfTold, SettleNone, SettlesAlone, WasAsked, after_events, quiets};
ghost use Rattle.reliable_engine.specs.SendOrder.{GoesByPlace, HasNothingWanted};
ghost use Rattle.reliable_engine.specs.ToldFates.{AreByPlace, IsAccounted, IsOfItsBody, IsSentPlace, StandsIn};
ghost use Rattle.reliable_engine.specs.ToldFates.{all_fates, fate_places, handed_out, offered_tags, tellings};
ghost use Rattle.reliable_engine.specs.ToldLates.{AreLatesByPlace, all_lates, handed_out_by, lates_handed_out};
ghost use Rattle.reliable_engine.specs.Examples.{given_up, one_word, settled_while_asked, three_told, two_sent};
ghost use Rattle.reliable_engine.specs.Examples.{two_settled};

pub mod machine_runs;

use world_model::laws::sends::sends_go_one_by_one;

/// From the lowest open place to the last first send there are never more places than the window, and no two open
/// places have one identifier.
pub fn the_window_is_never_passed()
    ensures in_window { (first window rounds : ℕ) (events : List HubEvent) → IsIdentifier first → 1 ≤ window
        → window ≤ MAX_WINDOW → IsInWindow (after_events (new_hub first window rounds) events) }
    ensures number { (first window rounds : ℕ) (events : List HubEvent) → 1 ≤ window → window ≤ MAX_WINDOW
        → length (after_events (new_hub first window rounds) events).sent + 1
        - low (after_events (new_hub first window rounds) events) ≤ window }
{}

/// A place keeps its body and its identifier for good.
pub fn a_place_keeps_its_body()
    ensures bodies { (hub : Hub) (events : List HubEvent) → IsPrefix hub.sent (after_events hub events).sent }
    ensures first { (hub : Hub) (events : List HubEvent) → (after_events hub events).first ≡ hub.first }
{}

/// A place that was settled is never open again.
pub fn a_settled_place_is_closed_for_good()
    ensures { (hub : Hub) (events : List HubEvent) (place : ℕ) → place ≤ length hub.sent → ¬ IsOpen hub place
        → ¬ IsOpen (after_events hub events) place }
{}

/// What is sent is a status request, the request for the reply of an open place, or the control packet of an open
/// place: never that of a place that was settled.
pub fn no_send_is_for_a_closed_place()
    ensures open_place { (hub : Hub) (next : Next) → next_send hub ≡ Some next → IsSendOf next.hub next.send }
    ensures not_again { (hub : Hub) (events : List HubEvent) (next : Next) (place id : ℕ) → place ≤ length hub.sent
        → ¬ IsOpen hub place → next_send (after_events hub events) ≡ Some next → next.send ≢ Control place id }
{}

/// A reply settles the one open place with its identifier, whenever it comes, and no other.
pub fn a_reply_settles_its_place_alone()
    ensures { (first window rounds id : ℕ) (words : List ℕ) (events : List HubEvent) → IsIdentifier first → 1 ≤ window
        → window ≤ MAX_WINDOW → SettlesAlone (after_events (new_hub first window rounds) events) id words }
{}

/// A status reply is taken exactly where a round is under way and it tells one of the places from the lowest open one
/// to the one after all. Then the reply of each open place below that place is asked for again, and the control packet
/// of each other one is sent again.
pub fn a_status_reply_recovers_each_open_place()
    ensures taken { (first window rounds next : ℕ) (events : List HubEvent) → IsIdentifier first → 1 ≤ window
        → window ≤ MAX_WINDOW → IfTold (after_events (new_hub first window rounds) events) next }
    ensures stray { (hub : Hub) (next : ℕ) → ¬ TellsPlace hub next → hear_status hub next ≡ hub }
    ensures below { (told : ℕ) (open_place : OpenPlace) → open_place.place < told
        → recover told open_place ≡ record open_place { resend = true } }
    ensures others { (told : ℕ) (open_place : OpenPlace) → told ≤ open_place.place
        → recover told open_place ≡ record open_place { control = true } }
{}

/// A give-up leaves nothing queued, waited for or to be sent, and so it stays until the next offer. That offer has the
/// control packet of each open place sent again, and the offers after it do not.
pub fn a_give_up_ends_all_waiting()
    ensures at_once { (hub : Hub) → IsAtRest (give_up hub) }
    ensures until_an_offer { (first window rounds : ℕ) (events : List HubEvent)
        → AreAllowed (new_hub first window rounds) events
        → (after_events (new_hub first window rounds) events).gave_up ≡ true
        → IsAtRest (after_events (new_hub first window rounds) events) }
    ensures nothing_to_send { (hub : Hub) → IsAtRest hub → next_send hub ≡ None }
    ensures nobody_waits { (hub : Hub) → IsAtRest hub → is_waiting hub ≡ false }
    ensures next_offer { (hub : Hub) (offered : Offered) → hub.gave_up ≡ true
        → (offer hub offered).open_places ≡ map want_control hub.open_places }
    ensures later_offers { (hub : Hub) (offered : Offered) → hub.gave_up ≡ false
        → (offer hub offered).open_places ≡ hub.open_places }
{}

/// Each quiet receive begins one round at most, and exactly one where no place is settled. So a hub that has begun
/// none, as after a settled place, gives up only after as many quiet receives as its rounds, and then at the next one.
pub fn a_hub_gives_up_after_its_rounds()
    ensures counted { (hub : Hub) (events : List HubEvent)
        → (after_events hub events).status_requests ≤ hub.status_requests + quiets events }
    ensures no_earlier { (hub : Hub) (events : List HubEvent) → hub.status_requests ≡ 0
        → IsOutOfRounds (after_events hub events) → hub.rounds ≤ quiets events }
    ensures one_each { (hub : Hub) (events : List HubEvent) → SettleNone hub events
        → hub.status_requests + quiets events ≤ hub.rounds
        → (after_events hub events).status_requests ≡ hub.status_requests + quiets events }
    ensures in_time { (hub : Hub) (events : List HubEvent) → hub.status_requests ≡ 0 → SettleNone hub events
        → quiets events ≡ hub.rounds → IsOutOfRounds (after_events hub events) }
    ensures gives_up { (hub : Hub) → IsOutOfRounds hub → hear_quiet hub ≡ give_up hub }
    ensures goes_on { (hub : Hub) → hub.status_requests < hub.rounds → hear_quiet hub ≡ want_status hub }
{}

/// Each place that was sent has one fate, or is waited for, and never both; no other place has a fate. So the fate of a
/// place is told once, counting those that were handed out and those that wait.
pub fn the_fate_of_a_place_is_told_once()
    ensures once { (first window rounds : ℕ) (events : List HubEvent) (place : ℕ)
        → times place (fate_places (all_fates (new_hub first window rounds) events)) ≤ 1 }
    ensures fate_or_waited { (first window rounds : ℕ) (events : List HubEvent) (place : ℕ)
        → IsSentPlace (after_events (new_hub first window rounds) events) place
        → tellings (after_events (new_hub first window rounds) events) (all_fates (new_hub first window rounds) events)
        place ≡ 1 }
    ensures no_other { (first window rounds : ℕ) (events : List HubEvent) (place : ℕ)
        → 1 ≤ tellings (after_events (new_hub first window rounds) events)
        (all_fates (new_hub first window rounds) events) place
        → IsSentPlace (after_events (new_hub first window rounds) events) place }
{}

/// Each offered body stands once among the fates, the bodies that are waited for and those that are queued. So no tag
/// has more fates than offers.
pub fn an_offered_body_has_one_fate()
    ensures account { (first window rounds : ℕ) (events : List HubEvent) (tag : ℕ)
        → IsAccounted (after_events (new_hub first window rounds) events)
        (all_fates (new_hub first window rounds) events) (offered_tags events) tag }
    ensures no_more { (first window rounds : ℕ) (events : List HubEvent) (tag : ℕ)
        → times tag (map tag_of_fate (all_fates (new_hub first window rounds) events))
        ≤ times tag (offered_tags events) }
{}

/// A fate with a place is that of the body that was sent there: it has that body's tag.
pub fn a_fate_is_that_of_its_body()
    ensures { (first window rounds : ℕ) (events : List HubEvent) → 1 ≤ window → window ≤ MAX_WINDOW
        → AllByRecursion (IsOfItsBody (after_events (new_hub first window rounds) events).sent)
        (all_fates (new_hub first window rounds) events) }
{}

/// A fate never changes. Whatever events follow, all fates that were told stand among those told then, in the same
/// order; those that were handed out come first; and a fate waits until it is handed out.
pub fn a_fate_never_changes()
    ensures in_order { (hub : Hub) (events more : List HubEvent)
        → StandsIn (all_fates hub events) (all_fates hub (events ++ more)) }
    ensures among { (hub : Hub) (events more : List HubEvent) (tag : ℕ) (fate : Fate)
        → IsAmong (tag, fate) (all_fates hub events) → IsAmong (tag, fate) (all_fates hub (events ++ more)) }
    ensures handed_out { (hub : Hub) (events more : List HubEvent)
        → IsPrefix (handed_out hub events) (handed_out hub (events ++ more)) }
    ensures waits { (hub : Hub) (events : List HubEvent) (tag : ℕ) (fate : Fate) → handouts events ≡ 0
        → IsAmong (tag, fate) hub.fates → IsAmong (tag, fate) (after_events hub events).fates }
{}

/// Fates wait in the order of their places, and behind them those of bodies that were never sent.
pub fn fates_wait_by_place()
    ensures { (first window rounds : ℕ) (events : List HubEvent)
        → AreByPlace 0 (after_events (new_hub first window rounds) events).fates }
{}

/// A late answer never changes, and waits until it is handed out. Whatever events follow, all late answers that were
/// told stand among those told then, in the same order; those that were handed out come first.
pub fn a_late_answer_never_changes()
    ensures in_order { (hub : Hub) (events more : List HubEvent)
        → StandsIn (all_lates hub events) (all_lates hub (events ++ more)) }
    ensures handed_out { (hub : Hub) (events more : List HubEvent)
        → IsPrefix (lates_handed_out hub events) (lates_handed_out hub (events ++ more)) }
{}

/// Late answers wait in the order of their places.
pub fn late_answers_wait_by_place()
    ensures { (first window rounds : ℕ) (events : List HubEvent)
        → AreLatesByPlace 0 (after_events (new_hub first window rounds) events).lates }
{}

/// Each late answer, handed out or waiting, is of a body that was timed out; its place is open no more, and no place
/// has two. Each place that was sent is open, was replied or has its late answer.
pub fn a_late_answer_is_told_once()
    ensures { (first window rounds : ℕ) (events : List HubEvent)
        → AreOfTimedOut (handed_out_by (new_hub first window rounds) events)
        (after_events (new_hub first window rounds) events) }
{}

/// A status request becomes wanted only while a body has no fate: where one is wanted, a quiet receive came while a
/// body waited, and nothing was sent since. A reply may have settled that body in between; the request is sent all the
/// same.
pub fn a_status_is_asked_for_while_a_body_waits()
    ensures becomes { (hub : Hub) (event : HubEvent) → IsAllowed hub event → hub.status_wanted ≡ false
        → (after_event hub event).status_wanted ≡ true → is_waiting (after_event hub event) ≡ true }
    ensures since { (hub : Hub) (events : List HubEvent) → AreAllowed hub events → hub.status_wanted ≡ false
        → (after_events hub events).status_wanted ≡ true → WasAsked hub events }
    ensures wanted_still { settled_while_asked.status_wanted ≡ true }
    ensures settled { is_waiting settled_while_asked ≡ false }
{}

/// A wanted status request goes first. What is sent for an open place again goes by place, and at one place the re-send
/// request goes before the control packet. A body is sent first only where nothing else is to be sent.
pub fn sends_go_in_order()
    ensures status_first { (hub : Hub) → hub.status_wanted ≡ true → sent_next (next_send hub) ≡ Some Status }
    ensures by_place { (first window rounds : ℕ) (events : List HubEvent) (next : Next) → 1 ≤ window
        → window ≤ MAX_WINDOW → next_send (after_events (new_hub first window rounds) events) ≡ Some next
        → GoesByPlace (after_events (new_hub first window rounds) events) next.send }
    ensures new_last { (hub : Hub) (next : Next) → next_send hub ≡ Some next
        → length hub.sent < length next.hub.sent → HasNothingWanted hub }
{}

/// Sends come to an end: after as many as are pending there is none.
pub fn draining_ends()
    ensures fewer { (hub : Hub) (next : Next) → next_send hub ≡ Some next → pending next.hub < pending hub }
    ensures end { (hub : Hub) → next_send (after_events hub (replicate (pending hub) Send)) ≡ None }
{
    sends_go_one_by_one();
}

/// Two bodies get the identifiers 65535 and 1. Their replies, heard in the other order, settle the places 1 and 2.
pub fn replies_past_the_last_identifier()
    ensures full { next_send two_sent ≡ None }
    ensures bodies { two_sent.sent ≡ one_word 7 ∷ one_word 8 ∷ [] }
    ensures places { places two_sent.open_places ≡ 1 ∷ 2 ∷ [] }
    ensures fates { two_settled.fates ≡ (7, Replied 1 (0x77 ∷ [])) ∷ (8, Replied 2 (0x88 ∷ [])) ∷ [] }
    ensures settled { two_settled.open_places ≡ [] }
{}

/// Of the places with the identifiers 65534, 65535 and 1 a status reply that expects 1 has the replies of the first two
/// asked for again, and the packet of the third sent again.
pub fn a_status_reply_past_the_last_identifier()
    ensures open_places { three_told.open_places ≡
        record { place = 1; waited = true; resend = true; control = false }
        ∷ record { place = 2; waited = true; resend = true; control = false }
        ∷ record { place = 3; waited = true; resend = false; control = true } ∷ [] }
    ensures first_send { sent_next (next_send three_told) ≡ Some Status }
    ensures stray { hear_status three_told 3 ≡ three_told }
{}

/// With one round, the second quiet receive times the sent body out, and the queued one is unsent. The next offer has
/// the packet of place 1 sent again.
pub fn the_second_quiet_receive_ends_one_round()
    ensures fates { given_up.fates ≡ (7, TimedOut 1 1) ∷ (8, Unsent) ∷ [] }
    ensures rest { next_send given_up ≡ None }
    ensures again { sent_next (next_send (offer given_up (one_word 9))) ≡ Some (Control 1 1) }
{}
