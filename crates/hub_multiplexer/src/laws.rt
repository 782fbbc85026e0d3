//! Laws of a hub. These functions do nothing when they run: their clauses are what is proved.

ghost use Rattle.std.specs.Prelude.{ℕ, List};
ghost use Rattle.hub_lane.specs.declared.answers.Asked.TheVariants as asks;
ghost use Rattle.hub_multiplexer.specs.declared.answers.AskTry.TheVariants as ask_tries;
ghost use Rattle.hub_multiplexer.specs.declared.answers.Performed.{Performed};
ghost use Rattle.hub_multiplexer.specs.Calls.{AskMeans, AskTried, HasSubmitted, MadeInTime, PerformMeans};
ghost use Rattle.hub_multiplexer.specs.OwnItems.{HasAskedAll};
ghost use Rattle.hub_multiplexer.specs.Seats.{ChangesAt, SeatState};

use lane_record::laws::coding::an_entry_is_spelled_by_numbers;

/// When a seat may submit. Where nothing was left to ask on a board, every body that was planned there for the seat's
/// client was asked. A submitted body is asked at once, and what is performed plans none, so all are asked after that.
pub fn a_seat_that_asked_all_may_submit()
    ensures tried { (board : ℕ) (old new : SeatState)
        → ChangesAt board old new (λ k. AskTried k ask_tries.Nothing) → HasAskedAll new board }
    ensures asked { (board : ℕ) (old new : SeatState)
        → ChangesAt board old new (λ k. MadeInTime k (AskMeans k asks.Nothing)) → HasAskedAll new board }
    ensures submitted { (board : ℕ) (old new : SeatState) (body : List ℕ) (seq : ℕ) → HasAskedAll old board
        → ChangesAt board old new (λ k. MadeInTime k (HasSubmitted k body seq)) → HasAskedAll new board }
    ensures performed { (board : ℕ) (old new : SeatState) (performed : Performed) → HasAskedAll old board
        → ChangesAt board old new (λ k. MadeInTime k (PerformMeans k performed)) → HasAskedAll new board }
{
    an_entry_is_spelled_by_numbers();
}
