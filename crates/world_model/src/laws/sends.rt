//! Sends one by one, and what each event leaves of the bodies.

ghost use Rattle.std.specs.Prelude.{◌≡◌, ◌<◌, ◌+◌, ℕ, Option, Some, None};
ghost use Rattle.world_model.specs.declared.offered.Offered.{Offered};
ghost use Rattle.world_model.specs.Messages.{ToHub};
ghost use Rattle.world_model.specs.Hub.{Hub, offer, take_message, hear_quiet};
ghost use Rattle.world_model.specs.Sends.{Next, next_send, pending};
ghost use Rattle.world_model.specs.World.{World, flush, sent_into};
ghost use Rattle.world_model.specs.Facts.{HasBodies, IsSendable};

/// To send all is to send one and then the rest, and where nothing is to be sent it changes nothing. Each send leaves
/// fewer pending.
pub fn sends_go_one_by_one()
    ensures step { (w : World) (next : Next) → next_send w.hub ≡ Some next
        → flush (pending w.hub) w ≡ flush (pending next.hub) (sent_into w next) }
    ensures end { (w : World) → next_send w.hub ≡ None → flush (pending w.hub) w ≡ w }
    ensures fewer { (hub : Hub) (next : Next) → next_send hub ≡ Some next → pending next.hub < pending hub }
{}

/// The bodies of a hub, sent and queued, are those that were offered: an offer makes one more of them, and no other
/// event makes more. Each can still be sent.
pub fn only_an_offer_makes_more_bodies()
    ensures offered { (most : ℕ) (hub : Hub) (offered : Offered) → IsSendable offered.body → HasBodies most hub
        → HasBodies (most + 1) (offer hub offered) }
    ensures sent { (most : ℕ) (hub : Hub) (next : Next) → next_send hub ≡ Some next → HasBodies most hub
        → HasBodies most next.hub }
    ensures message { (most : ℕ) (hub : Hub) (message : Option ToHub) → HasBodies most hub
        → HasBodies most (take_message hub message) }
    ensures quiet { (most : ℕ) (hub : Hub) → HasBodies most hub → HasBodies most (hear_quiet hub) }
{}
