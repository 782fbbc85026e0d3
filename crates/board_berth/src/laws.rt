//! Laws of berths. These functions do nothing when they run: their clauses are what is proved.

ghost use Rattle.std.specs.Prelude.{◌≡◌, ℕ, List};
ghost use Rattle.hub_lane.specs.declared.answers.Asked.TheVariants as asks;
ghost use Rattle.hub_multiplexer.specs.declared.answers.AskTry.TheVariants as ask_tries;
ghost use Rattle.hub_multiplexer.specs.declared.answers.Performed.{Performed};
ghost use Rattle.hub_multiplexer.specs.AnyCalls.{AskMeansAs, AskTriedAs, BegunAs, HasSubmittedAs, MadeInTimeAs};
ghost use Rattle.hub_multiplexer.specs.AnyCalls.{PerformMeansAs};
ghost use Rattle.hub_multiplexer.specs.OwnItems.{HasAskedAll};
ghost use Rattle.hub_multiplexer.specs.Seats.{ChangesAt, SeatState};
ghost use Rattle.board_berth.specs.Berths.{greetings_of};
ghost use Rattle.board_berth.specs.Manner.{berth_manner};
ghost use Rattle.board_berth.specs.Laws.{HaveRecords, HaveWholeRecords};
ghost use Rattle.board_berth.specs.Records.{Stretch, entries_from};

use crate::berth::Berth;
use hub_lane::Link;
use hub_lane::laws::{a_finished_lane_is_whole, a_lane_over_a_link_that_tells_is_true};
use lane_record::laws::coding::{a_head_is_spelled_by_numbers, an_entry_is_spelled_by_numbers};

/// The entries of a berth tell its greetings, each with its own entries: nothing of one greeting stands in another.
pub fn a_record_tells_its_greetings()
    ensures { (before : ℕ) (some other : List Stretch) → entries_from before some ≡ entries_from before other
        → some ≡ other }
{
    a_head_is_spelled_by_numbers();
    an_entry_is_spelled_by_numbers();
}

/// When a seat may submit to a hub of berths. Where nothing was left to ask in the present greeting of a board, every body
/// that was planned there for the seat's client, in whatever greeting, was asked. A submitted body is asked at once, what
/// is performed plans none, and a greeting that begins plans none, so all are asked after that.
pub fn a_seat_that_asked_all_may_submit()
    ensures tried { (board : ℕ) (old new : SeatState)
        → ChangesAt board old new (λ k. AskTriedAs berth_manner k ask_tries.Nothing) → HasAskedAll new board }
    ensures asked { (board : ℕ) (old new : SeatState)
        → ChangesAt board old new (λ k. MadeInTimeAs berth_manner k (AskMeansAs berth_manner k asks.Nothing))
        → HasAskedAll new board }
    ensures submitted { (board : ℕ) (old new : SeatState) (body : List ℕ) (seq : ℕ) → HasAskedAll old board
        → ChangesAt board old new (λ k. MadeInTimeAs berth_manner k (HasSubmittedAs berth_manner k body seq))
        → HasAskedAll new board }
    ensures performed { (board : ℕ) (old new : SeatState) (performed : Performed) → HasAskedAll old board
        → ChangesAt board old new (λ k. MadeInTimeAs berth_manner k (PerformMeansAs berth_manner k performed))
        → HasAskedAll new board }
    ensures begun { (board : ℕ) (old new : SeatState) → HasAskedAll old board
        → ChangesAt board old new (BegunAs berth_manner) → HasAskedAll new board }
{
    an_entry_is_spelled_by_numbers();
}

impl<L: Link> Berth<L> {
    /// Of each greeting, past or present, there is one legal record over its own link, as of a lane. It does nothing when
    /// it runs.
    pub fn has_records(&self)
        ensures { HaveRecords L.Link (greetings_of self.now) }
    {
        a_lane_over_a_link_that_tells_is_true();
        self.is_sound();
    }

    /// A body that was asked in a past greeting was taken there, and the record of that greeting is whole. It does
    /// nothing when it runs.
    pub fn has_whole_past(&self)
        ensures { HaveWholeRecords L.Link self.now.past }
    {
        a_finished_lane_is_whole();
        self.is_sound();
    }
}
