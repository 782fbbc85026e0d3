//! Laws of the recovery: why a round comes to its end over a link that holds nothing back, and that every call of the hub
//! and the link keeps what is under way in it so until a place is settled. These functions do nothing when they run: their
//! clauses are what is proved.

ghost use Rattle.std.specs.Prelude.{◌≡◌, ◌⊎◌, ◌≤◌, ◌+◌, ◌*◌, ℕ, [], true, None, Some, List, length};
ghost use Rattle.ipb_base.specs.Faults.{Rose};
ghost use Rattle.world_model.specs.declared.offered.Offered.{Offered};
ghost use Rattle.world_model.specs.Hub.{Hub, give_up, is_waiting, offer, take_message, want_status};
ghost use Rattle.world_model.specs.Messages.{to_hub};
ghost use Rattle.world_model.specs.Sends.{Next, bytes_to_send, next_send};
ghost use Rattle.links.specs.Telling.{IsGot, IsQuiet, IsReceived, IsSent, Telling};
ghost use Rattle.lane_record.specs.Bounds.{HasReached};
ghost use Rattle.hub_lane.specs.PaidRounds.{IsPaid};
ghost use Rattle.hub_lane.specs.UnderWay.{CanRecover, IsUnderWay};

use crate::below::laws_of_recovery;

/// A round of the recovery comes to its end. What is under way in it stays so at each send and at each receive, unless
/// datagrams are held; a datagram that is handed out leads on, or settles a place, which ends the round. So a receive
/// is quiet while a round is under way only where datagrams are held.
pub fn a_round_goes_on_unless_datagrams_are_held()
    ensures sent { (hub : Hub) (next : Next) (before now : ℕ) (old new : Telling) → CanRecover hub old
        → next_send hub ≡ Some next → IsSent (bytes_to_send next.hub next.send) before now old new
        → IsUnderWay hub old → IsUnderWay next.hub new ⊎ Rose before now }
    ensures got { (hub : Hub) (bytes : List ℕ) (before now : ℕ) (old new : Telling) → CanRecover hub old
        → 1 ≤ hub.status_requests → 1 ≤ length hub.open_places → IsGot bytes before now old new
        → IsUnderWay hub old → let after = take_message hub (to_hub bytes) in
        Rose before now ⊎ (after.status_requests ≡ 0) ⊎ IsUnderWay after new }
    ensures quiet { (hub : Hub) (before now : ℕ) (old new : Telling) → CanRecover hub old → next_send hub ≡ None
        → IsQuiet before now old new → IsUnderWay hub old → Rose before now }
{
    laws_of_recovery();
}

/// Each round that ends without a settled place held a datagram back, so a hub that gave up so many times after so many
/// rounds has that many held. That stays so at each event of the hub and each call of the link.
pub fn give_ups_are_paid_by_datagrams_held()
    ensures begins { (rounds : ℕ) (hub : Hub) (held : ℕ) (t : Telling) → hub.status_requests ≡ 0
        → IsPaid rounds 0 hub held t }
    ensures offered { (rounds given_up : ℕ) (hub : Hub) (held : ℕ) (t : Telling) (offered : Offered)
        → IsPaid rounds given_up hub held t → IsPaid rounds given_up (offer hub offered) held t }
    ensures sent { (rounds given_up : ℕ) (hub : Hub) (next : Next) (before now : ℕ) (old new : Telling)
        → CanRecover hub old → before ≤ now → next_send hub ≡ Some next
        → IsSent (bytes_to_send next.hub next.send) before now old new → IsPaid rounds given_up hub before old
        → IsPaid rounds given_up next.hub now new }
    ensures heard { (rounds given_up : ℕ) (hub : Hub) (before now : ℕ) (old new : Telling) → CanRecover hub old
        → before ≤ now → IsReceived [] before now old new → IsPaid rounds given_up hub before old
        → IsPaid rounds given_up hub now new }
    ensures got { (rounds given_up : ℕ) (hub : Hub) (bytes : List ℕ) (before now : ℕ) (old new : Telling)
        → CanRecover hub old → before ≤ now → IsGot bytes before now old new
        → IsPaid rounds given_up hub before old
        → IsPaid rounds given_up (take_message hub (to_hub bytes)) now new }
    ensures quiet { (rounds given_up : ℕ) (hub : Hub) (before now : ℕ) (old new : Telling) → CanRecover hub old
        → before ≤ now → next_send hub ≡ None → is_waiting hub ≡ true → 1 ≤ hub.window → IsQuiet before now old new
        → IsPaid rounds given_up hub before old → IsPaid rounds given_up (want_status hub) now new }
    ensures gave_up { (rounds given_up : ℕ) (hub : Hub) (before now : ℕ) (old new : Telling) → CanRecover hub old
        → before ≤ now → next_send hub ≡ None → rounds ≤ hub.status_requests → IsQuiet before now old new
        → IsPaid rounds given_up hub before old → IsPaid rounds (given_up + 1) (give_up hub) now new }
    ensures give_ups { (rounds given_up : ℕ) (hub : Hub) (held : ℕ) (t : Telling) → IsPaid rounds given_up hub held t
        → HasReached (rounds * given_up) held }
{
    laws_of_recovery();
}
