//! A law of runs. The function does nothing when it runs: its clauses are what is proved.

ghost use Rattle.std.specs.Prelude.{◌≡◌, ◌↔◌, ℕ, List, Err};
ghost use Rattle.world_model.specs.declared.moves.WorldEnd.TheVariants.{NotThere, TooOld};
ghost use Rattle.world_model.specs.declared.moves.WorldMove.{WorldMove};
ghost use Rattle.world_model.specs.World.{World, run_moves};
ghost use Rattle.world_core.specs.Runs.{IsNotThere, IsTooOld, StopsAt};

/// A run stops exactly at the first move that is not allowed: where no datagram for that side is at the place that the
/// move names, or nobody notices that a receive is quiet; or where the datagram was sent too many first sends ago.
pub fn a_run_stops_at_the_first_move_that_is_not_allowed()
    ensures not_there { (begin : World) (moves : List WorldMove) (at : ℕ)
        → (run_moves 0 begin moves ≡ Err (NotThere at)) ↔ StopsAt begin moves at IsNotThere }
    ensures too_old { (begin : World) (moves : List WorldMove) (at : ℕ)
        → (run_moves 0 begin moves ≡ Err (TooOld at)) ↔ StopsAt begin moves at IsTooOld }
{}
