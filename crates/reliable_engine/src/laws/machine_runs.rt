//! Laws of the hub's machine over a link: of every run, whatever the link hands on and however late. These functions do
//! nothing when they run: their clauses are what is proved.

ghost use Rattle.std.specs.Prelude.{◌≡◌, ◌⊎◌, ◌↔◌, ◌≤◌, ℕ, List, [], ◌∷◌, ◌++◌, length, map, Some, None, true};
ghost use Rattle.std.specs.List.{AllByRecursion};
ghost use Rattle.ipb_base.specs.Word.{big_endian};
ghost use Rattle.packet_codec.specs.Packet.{packet_bytes};
ghost use Rattle.status_packet.specs.Packets.{status_request};
ghost use Rattle.world_model.specs.declared.offered.Fate.{Fate};
ghost use Rattle.world_model.specs.declared.offered.Fate.TheVariants.{Replied, TimedOut};
ghost use Rattle.world_model.specs.declared.offered.Offered.{Offered};
ghost use Rattle.world_model.specs.History.{tag_of_offered, times};
ghost use Rattle.world_model.specs.Hub.{Hub, after_handing_out, hear_quiet, is_waiting, new_hub, offer, take_message};
ghost use Rattle.world_model.specs.Messages.{to_hub};
ghost use Rattle.world_model.specs.Places.{at_place};
ghost use Rattle.world_model.specs.Sends.{Next, bytes_to_send, next_send};
ghost use Rattle.reliable_engine.specs.Events.{IsAmong, after_events};
ghost use Rattle.reliable_engine.specs.Examples.{one_body_late, two_bodies_settled};
ghost use Rattle.reliable_engine.specs.MachineRuns.{HasLate, Heard, IsBrought, IsBroughtLate, IsFreshRun, IsMachineRun};
ghost use Rattle.reliable_engine.specs.MachineRuns.{Offer, Quiet, RunEvent, Send, engine_events, offers_in, passed_in, run_event, run_events};
ghost use Rattle.reliable_engine.specs.MachineRuns.{traffic_of};
ghost use Rattle.reliable_engine.specs.ToldFates.{IsAccounted, StandsIn, fate_places};
ghost use Rattle.reliable_engine.specs.Traffic as passed;
ghost use Rattle.reliable_engine.specs.Traffic.{IfSent, IsSendWith, Passed, SpellPacket, first_sends_in, packet_at};
ghost use Rattle.reliable_engine.specs.Traffic.{packets_from, quiet_receives, status_requests_in};

use crate::below::packets_are_read_back;

/// A run is one of an engine that hands nothing out: a datagram that says something to a hub is told to it.
pub fn a_run_is_that_of_an_engine()
    ensures { (hub : Hub) (events : List RunEvent)
        → run_events hub events ≡ after_events hub (engine_events events) }
{}

/// A run goes on, event by event: an offer at any time, a send where one is wanted, and a datagram or a quiet receive
/// when all is sent.
pub fn a_run_goes_on()
    ensures begins { (hub : Hub) → IsMachineRun hub [] [] hub hub.fates }
    ensures offered { (hub end : Hub) (events : List RunEvent) (traffic : List Passed) (fates : List (ℕ × Fate))
        (offered : Offered) → IsMachineRun hub events traffic end fates
        → IsMachineRun hub (events ++ Offer offered.tag offered.body ∷ []) traffic (offer end offered) fates }
    ensures sent { (hub end : Hub) (events : List RunEvent) (traffic : List Passed) (fates : List (ℕ × Fate))
        (next : Next) → IsMachineRun hub events traffic end fates → next_send end ≡ Some next
        → IsMachineRun hub (events ++ Send ∷ [])
        (traffic ++ passed.Sent (bytes_to_send next.hub next.send) ∷ []) next.hub next.hub.fates }
    ensures heard { (hub end : Hub) (events : List RunEvent) (traffic : List Passed) (fates : List (ℕ × Fate))
        (bytes : List ℕ) → IsMachineRun hub events traffic end fates → next_send end ≡ None
        → IsMachineRun hub (events ++ Heard bytes ∷ []) (traffic ++ passed.Got bytes ∷ [])
        (take_message end (to_hub bytes)) (take_message end (to_hub bytes)).fates }
    ensures quiet { (hub end : Hub) (events : List RunEvent) (traffic : List Passed) (fates : List (ℕ × Fate))
        → IsMachineRun hub events traffic end fates → next_send end ≡ None → is_waiting end ≡ true
        → IsMachineRun hub (events ++ Quiet ∷ []) (traffic ++ passed.Quiet ∷ []) (hear_quiet end)
        (hear_quiet end).fates }
{}

/// The first send of a place is the packet of the body that stands there in the board's order. So as many bodies were
/// sent as there are first sends in the traffic.
pub fn first_sends_are_the_packets_of_places()
    ensures packets { (first window rounds : ℕ) (events : List RunEvent) (traffic : List Passed) (end : Hub)
        (fates : List (ℕ × Fate)) → IsFreshRun first window events
        → IsMachineRun (new_hub first window rounds) events traffic end fates
        → first_sends_in first 0 traffic ≡ packets_from first 1 end.sent }
    ensures each { (first window rounds : ℕ) (events : List RunEvent) (traffic : List Passed) (end : Hub)
        (fates : List (ℕ × Fate)) (place : ℕ) (offered : Offered) → IsFreshRun first window events
        → IsMachineRun (new_hub first window rounds) events traffic end fates
        → at_place end.sent place ≡ Some offered
        → at_place (first_sends_in first 0 traffic) place ≡ Some (packet_bytes (packet_at first place offered)) }
    ensures count { (first window rounds : ℕ) (events : List RunEvent) (traffic : List Passed) (end : Hub)
        (fates : List (ℕ × Fate)) → IsFreshRun first window events
        → IsMachineRun (new_hub first window rounds) events traffic end fates
        → length (first_sends_in first 0 traffic) ≡ length end.sent }
{
    packets_are_read_back();
}

/// A hub sends status requests, re-send requests for places that it sent, and control packets of bodies that it sent,
/// which are offered ones in their order, each once. All of
/// it is packets. There is at most one status request for each quiet receive.
pub fn nothing_else_is_sent()
    ensures each { (first window rounds : ℕ) (events : List RunEvent) (traffic : List Passed) (end : Hub)
        (fates : List (ℕ × Fate)) → IsFreshRun first window events
        → IsMachineRun (new_hub first window rounds) events traffic end fates
        → AllByRecursion (IfSent (IsSendWith first end.sent)) traffic }
    ensures packets { (first window rounds : ℕ) (events : List RunEvent) (traffic : List Passed) (end : Hub)
        (fates : List (ℕ × Fate)) → IsFreshRun first window events
        → IsMachineRun (new_hub first window rounds) events traffic end fates
        → AllByRecursion (IfSent SpellPacket) traffic }
    ensures offered { (first window rounds : ℕ) (events : List RunEvent) (traffic : List Passed) (end : Hub)
        (fates : List (ℕ × Fate)) → IsMachineRun (new_hub first window rounds) events traffic end fates
        → StandsIn end.sent (offers_in events) }
    ensures requests { (first window rounds : ℕ) (events : List RunEvent) (traffic : List Passed) (end : Hub)
        (fates : List (ℕ × Fate)) → IsFreshRun first window events
        → IsMachineRun (new_hub first window rounds) events traffic end fates
        → status_requests_in traffic ≤ quiet_receives traffic }
{
    packets_are_read_back();
}

/// A body is replied to exactly where the reply of its place, by its identifier, was heard while it had no fate. It is
/// timed out or unsent exactly where the last round ended while it had none, sent or not. No place has two fates, and
/// each offered body has one, or is sent and waited for, or is queued.
pub fn each_reply_is_that_of_its_own_body()
    ensures exactly { (first window rounds : ℕ) (events : List RunEvent) (traffic : List Passed) (end : Hub)
        (fates : List (ℕ × Fate)) (tag : ℕ) (fate : Fate) → IsFreshRun first window events
        → IsMachineRun (new_hub first window rounds) events traffic end fates
        → IsAmong (tag, fate) fates ↔ IsBrought (new_hub first window rounds) events (tag, fate) }
    ensures once { (first window rounds : ℕ) (events : List RunEvent) (traffic : List Passed) (end : Hub)
        (fates : List (ℕ × Fate)) (place : ℕ)
        → IsMachineRun (new_hub first window rounds) events traffic end fates
        → times place (fate_places fates) ≤ 1 }
    ensures account { (first window rounds : ℕ) (events : List RunEvent) (traffic : List Passed) (end : Hub)
        (fates : List (ℕ × Fate)) (tag : ℕ)
        → IsMachineRun (new_hub first window rounds) events traffic end fates
        → IsAccounted end fates (map tag_of_offered (offers_in events)) tag }
{}

/// A late answer is that of a place exactly where the reply of that place was heard while it was open and its body had
/// a fate: after the hub gave up on it.
pub fn each_late_answer_is_that_of_its_own_body()
    ensures { (first window rounds : ℕ) (events : List RunEvent) (traffic : List Passed) (end : Hub)
        (fates : List (ℕ × Fate)) (place : ℕ) (words : List ℕ) → IsFreshRun first window events
        → IsMachineRun (new_hub first window rounds) events traffic end fates
        → HasLate place words end.lates ↔ IsBroughtLate (new_hub first window rounds) events place words }
{}

/// Two bodies are offered and sent with the identifiers 65535 and 1, and a round begins. The replies come in the other
/// order: each settles its own place.
#[tactic(auto, unfolding(packet_codec::specs::Reading::packet_of, packet_codec::specs::Reading::start_of, world_model::specs::Messages::to_hub))]
pub fn a_run_past_the_last_identifier()
    ensures traffic { traffic_of (new_hub 65535 2 8) two_bodies_settled ≡
        passed.Sent (big_endian (0x20fffff0 ∷ 7 ∷ [])) ∷ passed.Sent (big_endian (0x200001f0 ∷ 8 ∷ []))
        ∷ passed.Got (big_endian (0x200001f0 ∷ 0x88 ∷ [])) ∷ passed.Got (big_endian (0x20fffff0 ∷ 0x77 ∷ [])) ∷ [] }
    ensures fates { (run_events (new_hub 65535 2 8) two_bodies_settled).fates
        ≡ (7, Replied 1 (0x77 ∷ [])) ∷ (8, Replied 2 (0x88 ∷ [])) ∷ [] }
{}

/// A body is sent, and no reply comes: with one round, a quiet receive has the status asked for, and the next one times
/// the body out. Its reply comes late.
#[tactic(auto, unfolding(packet_codec::specs::Reading::packet_of, packet_codec::specs::Reading::start_of, world_model::specs::Messages::to_hub))]
pub fn a_run_that_gives_up()
    ensures traffic { traffic_of (new_hub 1 16 1) one_body_late ≡
        passed.Sent (big_endian (0x200001f0 ∷ 7 ∷ [])) ∷ passed.Quiet
        ∷ passed.Sent (packet_bytes status_request) ∷ passed.Quiet
        ∷ passed.Got (big_endian (0x200001f0 ∷ 0x77 ∷ [])) ∷ [] }
    ensures fates { (run_events (new_hub 1 16 1) one_body_late).fates ≡ (7, TimedOut 1 1) ∷ [] }
    ensures lates { (run_events (new_hub 1 16 1) one_body_late).lates ≡ (1, 0x77 ∷ []) ∷ [] }
{}

/// No run answers a reply by arrival, and none sends a body under two places: the reply to place 2, which came first, is
/// no fate of the body at place 1; and a body that was offered once does not stand twice among those sent.
pub fn wrong_runs_are_refused()
    ensures by_arrival { ¬ IsBrought (new_hub 65535 2 8) two_bodies_settled (7, Replied 1 (0x88 ∷ [])) }
    ensures sent_twice { (first window rounds : ℕ) (events : List RunEvent) (traffic : List Passed) (end : Hub)
        (fates : List (ℕ × Fate)) → IsMachineRun (new_hub first window rounds) events traffic end fates
        → length end.sent ≤ length (offers_in events) }
{
    a_run_past_the_last_identifier();
    each_reply_is_that_of_its_own_body();
    nothing_else_is_sent();
}

/// When a hub hands out what waits is no part of its run. A hub that handed it out sends the same in each event, is the
/// same hub after it but for what waits, and then has the fates and late answers that the event brings. The hub that did
/// not has these and those that waited.
pub fn handing_out_changes_no_run()
    ensures next { (hub : Hub) (next : Next) → next_send hub ≡ Some next → next_send (after_handing_out hub)
        ≡ Some (record { send = next.send; hub = after_handing_out next.hub }) }
    ensures no_next { (hub : Hub) → next_send hub ≡ None → next_send (after_handing_out hub) ≡ None }
    ensures passes { (hub : Hub) (event : RunEvent) → passed_in (after_handing_out hub) event ≡ passed_in hub event }
    ensures same { (hub : Hub) (event : RunEvent)
        → after_handing_out (run_event (after_handing_out hub) event) ≡ after_handing_out (run_event hub event) }
    ensures fates { (hub : Hub) (event : RunEvent) (tag : ℕ) (fate : Fate)
        → IsAmong (tag, fate) (run_event hub event).fates
        ↔ (IsAmong (tag, fate) hub.fates ⊎ IsAmong (tag, fate) (run_event (after_handing_out hub) event).fates) }
    ensures lates { (hub : Hub) (event : RunEvent) (place : ℕ) (words : List ℕ)
        → HasLate place words (run_event hub event).lates
        ↔ (HasLate place words hub.lates ⊎ HasLate place words (run_event (after_handing_out hub) event).lates) }
{}
