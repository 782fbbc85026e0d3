//! A hub whose sends wait before its next receive is in a state of a run once they are in the air.

ghost use Rattle.std.specs.Prelude.{◌≡◌, ℕ, List, Some, None, Ok, true};
ghost use Rattle.world_model.specs.declared.datagram.Datagram.{Datagram};
ghost use Rattle.world_model.specs.declared.moves.WorldMove.{WorldMove};
ghost use Rattle.world_model.specs.declared.offered.Offered.{Offered};
ghost use Rattle.world_model.specs.Board.{Board};
ghost use Rattle.world_model.specs.Hub.{IsDrained, offer};
ghost use Rattle.world_model.specs.Sends.{Next, next_send, pending};
ghost use Rattle.world_model.specs.World.{World, start, step, sent_into, handed_out, with_hub};
ghost use Rattle.world_model.specs.Facts.{IsSendable};
ghost use Rattle.world_model.specs.History.{IsMove};
ghost use Rattle.world_model.specs.Lanes.{IsLaneState, caught_up};

/// Where a run begins there is nothing to send. An offer, a send and the handing out of fates and late answers keep
/// what the state will be; and where nothing waits, a move makes the next state of the run. Whether the sends that wait
/// go out before a body is offered, or only behind the offer, they lead to the same world.
pub fn waiting_sends_change_no_run()
    ensures begins { (window rounds : ℕ) (board : Board) (air : List Datagram)
        → IsLaneState (start window rounds board air) (start window rounds board air) }
    ensures offered { (begin w : World) (offered : Offered) → IsSendable offered.body → IsLaneState begin w
        → IsDrained w.hub → IsLaneState begin (with_hub w (offer w.hub offered)) }
    ensures same { (w : World) (offered : Offered) → (w.hub.gave_up ≡ true → pending w.hub ≡ 0)
        → IsDrained w.hub → caught_up (with_hub (caught_up w) (offer (caught_up w).hub offered))
        ≡ caught_up (with_hub w (offer w.hub offered)) }
    ensures sent { (begin w : World) (next : Next) → IsLaneState begin w → next_send w.hub ≡ Some next
        → IsLaneState begin (sent_into w next) }
    ensures fates { (begin w : World) → IsLaneState begin w → IsLaneState begin (handed_out w) }
    ensures moved { (begin w new : World) (at : ℕ) (move : WorldMove) → IsMove move → IsLaneState begin w
        → next_send w.hub ≡ None → IsDrained w.hub → step at w move ≡ Ok new
        → IsLaneState begin new }
{}
