//! Laws of the definitions. These functions do nothing when they run: their clauses are what is proved.

ghost use Rattle.std.specs.Prelude.{◌≡◌, ℕ, ◌+◌, List, [], ◌++◌, length, Option, Some};
ghost use Rattle.std.specs.List.{slice_get};
ghost use Rattle.turn_pass.specs.Pass.{Knowledge};
ghost use Rattle.hub_lane.specs.declared.answers.BoardState.{BoardState};
ghost use Rattle.hub_multiplexer.specs.OwnItems.{planned_by};
ghost use Rattle.hub_multiplexer.specs.Seats.{SeatState};
ghost use Rattle.hub_framing.specs.Frames.{IsFrame, IsReplyFrame, RequestFrame};
ghost use Rattle.hub_session.specs.declared.got.Got.{Got};
ghost use Rattle.hub_session.specs.declared.served.Served.{Served};
ghost use Rattle.hub_session.specs.Answers.{reply_to};
ghost use Rattle.hub_session.specs.Exchanges.{Exchange, IsExchange, submissions_on};
ghost use Rattle.hub_session.specs.Decisions.{AreFramesDecidedIn, IsFrameDecidedIn};
ghost use Rattle.hub_session.specs.Serving.{Exchanged, IsServed, IsUnused};
ghost use Rattle.hub_session.specs.Codes.{replied_code, timed_out_code, unsent_code, link_lost_code, bad_packet_code};
ghost use Rattle.hub_session.specs.Codes.{no_board_code, body_too_long_code, reply_too_long_code, overfull_code};
ghost use Rattle.hub_session.specs.declared.codes.TheConstants.{REPLIED, TIMED_OUT, UNSENT, LINK_LOST, BAD_PACKET};
ghost use Rattle.hub_session.specs.declared.codes.TheConstants.{NO_BOARD, BODY_TOO_LONG, REPLY_TOO_LONG, OVERFULL};

/// The codes are these numbers.
pub fn the_numbers_of_the_codes()
    ensures replied { REPLIED ≡ replied_code }
    ensures timed_out { TIMED_OUT ≡ timed_out_code }
    ensures unsent { UNSENT ≡ unsent_code }
    ensures link_lost { LINK_LOST ≡ link_lost_code }
    ensures bad_packet { BAD_PACKET ≡ bad_packet_code }
    ensures no_board { NO_BOARD ≡ no_board_code }
    ensures body_too_long { BODY_TOO_LONG ≡ body_too_long_code }
    ensures reply_too_long { REPLY_TOO_LONG ≡ reply_too_long_code }
    ensures overfull { OVERFULL ≡ overfull_code }
{}

/// Each answer is the spelling of a reply frame.
pub fn every_answer_is_a_reply_frame()
    ensures { (boards : List BoardState) (e : Exchange) → IsFrame e.frame → IsExchange boards e
        → IsReplyFrame (reply_to boards e.frame e.got) }
{}

/// A seat that was just made may serve a connection on lanes that came to the hub without entries.
pub fn a_new_seat_is_unused()
    ensures { (k : Knowledge) → k.mine ≡ [] → k.opening.entries ≡ [] → IsUnused k }
{}

/// What the hub came to for each body of a connection was decided on a record of its lane that begins the record which
/// the seat has seen there at last. Of the client's Plans that record has those of its bodies before, and no more. So
/// it is of the frames that have an answer, written or not, and of the one whose answer was not made.
pub fn each_body_was_decided_on_a_record_that_the_seat_saw()
    ensures answered { (boards : List BoardState) (old new : SeatState) (left_before left_after : Option (List ℕ))
        (written_before written_after : Option (List ℕ)) (served : Served)
        (s : IsServed boards old new left_before left_after written_before written_after served)
        (lane : ℕ) (k after : Knowledge) → slice_get old.knows lane ≡ Some k → slice_get new.knows lane ≡ Some after
        → AreFramesDecidedIn after.seen k.number (planned_by k) boards lane
        (s.answered ++ s.unwritten) }
    ensures unanswered { (boards : List BoardState) (old new : SeatState) (left_before left_after : Option (List ℕ))
        (written_before written_after : Option (List ℕ)) (served : Served)
        (s : IsServed boards old new left_before left_after written_before written_after served)
        (lane : ℕ) (k after : Knowledge) → slice_get old.knows lane ≡ Some k → slice_get new.knows lane ≡ Some after
        → (frame : RequestFrame) (got : Got) → s.unanswered ≡ Some (record { frame = frame; reached = Exchanged got })
        → IsFrameDecidedIn after.seen k.number
        (planned_by k + length (submissions_on boards lane (s.answered ++ s.unwritten))) boards lane
        (record { frame = frame; got = got }) }
{}
