//! Laws of the answers of connections. These functions do nothing when they run: their clauses are what is proved.

ghost use Rattle.std.specs.Prelude.{◌≡◌, ℕ, ◌≤◌, List, None, IfSome};
ghost use Rattle.std.specs.List.{AllByRecursion};
ghost use Rattle.ipb_outside.specs.Pairs.{PairReport};
ghost use Rattle.board_specs.specs.declared.spec.BoardSpec.{BoardSpec};
ghost use Rattle.world_model.specs.Board.{bodies_executed};
ghost use Rattle.world_model.specs.Settings.{Limits};
ghost use Rattle.board_history.specs.Runs.{opens_with};
ghost use Rattle.board_history.specs.Links.{IsFaithful, LinkReport, board_there};
ghost use Rattle.transcript.specs.declared.line.BoardLine.{BoardLine};
ghost use Rattle.hub_session.specs.declared.served.Served.{Served};
ghost use Rattle.hub_session.specs.Codes.{replied_code, timed_out_code, unsent_code};
ghost use Rattle.session_serve.specs.Boards.{states_of};
ghost use Rattle.session_serve.specs.Serving.{AreServed, HadMemory};
ghost use Rattle.serve_command.specs.Answers.{AllTellAnswers, HasWrittenAll};
ghost use Rattle.serve_command.specs.Frames.{FramesGivenUpOnlyAfterRounds, HasLane, HasUnaskedCodes};
ghost use Rattle.serve_command.specs.Frames.{IsAnsweredAsCarried, IsAnsweredRightly, IsLostOnlyWithLink, IsPlaced};
ghost use Rattle.serve_command.specs.Frames.{NoneIsGivenUpOrLost};
ghost use Rattle.serve_command.specs.Frames.{OfEachBoard, OfEachFrame, OfEachWithCode, PlacesOfFramesDiffer};
ghost use Rattle.serve_command.specs.Frames.{PlacesOfFramesRise, place_on};
ghost use Rattle.serve_command.specs.Ruled.{AreCodedByRules};

use client_history::boards::{
    a_board_line_counts_the_bodies_of_its_connections,
    a_board_that_tells_executed_what_was_replied, a_board_waited_for_what_was_given_up,
    a_faithful_link_serves_all, a_served_board_loses_bodies_only_with_its_link,
    each_body_has_a_place_of_its_own, words_of_replies_came_over_their_link,
};

/// Where no connection ended with a fault of writing or want of memory, the line of a live board tells as many bodies
/// replied to, and as many timed out, as frames for the board were answered by these codes.
pub fn board_lines_tell_the_numbers_of_answers()
    ensures { (settings : Limits) (specs : List BoardSpec) (links : List LinkReport) (came back : List PairReport)
        (connections : List Served) (lines : List BoardLine)
        (is : AreServed settings specs links came back connections lines)
        → AllByRecursion HadMemory connections → AllByRecursion HasWrittenAll connections
        → AllTellAnswers (states_of is.boards) is.conversations 0 lines }
{
    a_board_line_counts_the_bodies_of_its_connections();
}

/// On each board the places of the frames of a connection rise, and no two frames have one place.
pub fn each_frame_has_a_place_of_its_own()
    ensures rise { (settings : Limits) (specs : List BoardSpec) (links : List LinkReport)
        (came back : List PairReport) (connections : List Served) (lines : List BoardLine)
        (is : AreServed settings specs links came back connections lines)
        → OfEachBoard (λ position spec link. PlacesOfFramesRise position is.conversations) specs links }
    ensures differ { (settings : Limits) (specs : List BoardSpec) (links : List LinkReport)
        (came back : List PairReport) (connections : List Served) (lines : List BoardLine)
        (is : AreServed settings specs links came back connections lines)
        → OfEachBoard (λ position spec link. PlacesOfFramesDiffer position is.conversations) specs links }
{
    each_body_has_a_place_of_its_own();
}

/// A frame that is answered by code 0 or 1 has a place on its board, and one that is answered by code 2 has none.
pub fn codes_tell_of_places()
    ensures replied { (settings : Limits) (specs : List BoardSpec) (links : List LinkReport)
        (came back : List PairReport) (connections : List Served) (lines : List BoardLine)
        (is : AreServed settings specs links came back connections lines) → OfEachBoard (λ position spec link.
        OfEachWithCode replied_code position (states_of is.boards) (IsPlaced position) is.conversations) specs links }
    ensures timed_out { (settings : Limits) (specs : List BoardSpec) (links : List LinkReport)
        (came back : List PairReport) (connections : List Served) (lines : List BoardLine)
        (is : AreServed settings specs links came back connections lines) → OfEachBoard (λ position spec link.
        OfEachWithCode timed_out_code position (states_of is.boards) (IsPlaced position) is.conversations) specs links }
    ensures unsent { (settings : Limits) (specs : List BoardSpec) (links : List LinkReport)
        (came back : List PairReport) (connections : List Served) (lines : List BoardLine)
        (is : AreServed settings specs links came back connections lines) → OfEachBoard (λ position spec link.
        OfEachWithCode unsent_code position (states_of is.boards) (λ e. place_on position e ≡ None) is.conversations)
        specs links }
{}

/// Where the link of a board tells, each frame that is answered by code 0 has a place where the board executed its
/// body, and the reply frame has the words of a bus with a single thread there.
pub fn code_0_answers_what_was_executed()
    ensures { (settings : Limits) (specs : List BoardSpec) (links : List LinkReport) (came back : List PairReport)
        (connections : List Served) (lines : List BoardLine)
        (is : AreServed settings specs links came back connections lines)
        → OfEachBoard (λ position spec link. IfSome (board_there link.telling)
        (λ board. OfEachWithCode replied_code position (states_of is.boards)
        (IsAnsweredRightly (opens_with spec.link) (bodies_executed board) (states_of is.boards) position) is.conversations))
        specs links }
{
    a_board_that_tells_executed_what_was_replied();
}

/// Whether the link of a board tells or not, each frame that is answered by code 0 has a place, and the words of the
/// reply frame are the body of a control packet that the link brought behind the greeting, with the identifier of the
/// place.
pub fn code_0_answers_what_the_link_brought()
    ensures { (settings : Limits) (specs : List BoardSpec) (links : List LinkReport) (came back : List PairReport)
        (connections : List Served) (lines : List BoardLine)
        (is : AreServed settings specs links came back connections lines)
        → OfEachBoard (λ position spec link. OfEachWithCode replied_code position (states_of is.boards)
        (IsAnsweredAsCarried link (states_of is.boards) position) is.conversations) specs links }
{
    words_of_replies_came_over_their_link();
}

/// A frame for a live board is answered by code 1 or 2 only after the rounds of the settings, each of which ended with
/// a quiet receive behind the greeting, and in each of which a datagram was held where the link tells: so many for each
/// of them that one connection has.
pub fn codes_1_and_2_answer_after_the_rounds()
    ensures { (settings : Limits) (specs : List BoardSpec) (links : List LinkReport) (came back : List PairReport)
        (connections : List Served) (lines : List BoardLine)
        (is : AreServed settings specs links came back connections lines)
        → OfEachBoard (λ position spec link. HasLane position (states_of is.boards)
        → FramesGivenUpOnlyAfterRounds settings link position (states_of is.boards) is.conversations) specs links }
{
    a_board_waited_for_what_was_given_up();
}

/// A frame for a board is answered by code 3 only where the link of this board failed.
pub fn code_3_answers_where_the_link_failed()
    ensures { (settings : Limits) (specs : List BoardSpec) (links : List LinkReport) (came back : List PairReport)
        (connections : List Served) (lines : List BoardLine)
        (is : AreServed settings specs links came back connections lines)
        → OfEachBoard (λ position spec link. IsLostOnlyWithLink link position (states_of is.boards) is.conversations)
        specs links }
{
    a_served_board_loses_bodies_only_with_its_link();
}

/// Where the link of a board tells, nothing was held and nothing failed, no frame for it is answered by code 1, 2 or 3.
pub fn no_frame_is_given_up_or_lost_over_a_faithful_link()
    ensures { (settings : Limits) (specs : List BoardSpec) (links : List LinkReport) (came back : List PairReport)
        (connections : List Served) (lines : List BoardLine)
        (is : AreServed settings specs links came back connections lines)
        → 1 ≤ settings.rounds → OfEachBoard (λ position spec link. IsFaithful link
        → NoneIsGivenUpOrLost position (states_of is.boards) is.conversations) specs links }
{
    a_faithful_link_serves_all();
}

/// A frame is answered by code 4 exactly where its bytes are no control packet, and by code 5 exactly where they are
/// one and there is no board at its position; a control packet for a silent board by code 2, and for one that was down
/// by code 3.
pub fn codes_for_which_the_hub_is_not_asked()
    ensures { (settings : Limits) (specs : List BoardSpec) (links : List LinkReport) (came back : List PairReport)
        (connections : List Served) (lines : List BoardLine)
        (is : AreServed settings specs links came back connections lines)
        → OfEachFrame (HasUnaskedCodes specs (states_of is.boards)) is.conversations }
{}

/// A frame for a live board is answered by code 6 exactly where its body is too long for a packet of the board, by code
/// 7 exactly where it is not and its longest reply is, and by code 8 only where connections filled the lane.
pub fn the_rules_of_planning_decide_of_codes()
    ensures { (settings : Limits) (specs : List BoardSpec) (links : List LinkReport) (came back : List PairReport)
        (connections : List Served) (lines : List BoardLine)
        (is : AreServed settings specs links came back connections lines)
        → (position : ℕ) → AreCodedByRules is.boards is.conversations position }
{}
