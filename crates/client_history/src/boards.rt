//! What follows from what is shown of boards that were served. These functions do nothing when they run: their clauses
//! are what is proved.

ghost use Rattle.std.specs.Prelude.{◌≡◌, ℕ, ◌≤◌, List, length, Some, IfSome};
ghost use Rattle.std.specs.List.{AllByRecursion, count_by, flat_map, slice_get};
ghost use Rattle.board_specs.specs.declared.spec.BoardSpec.{BoardSpec};
ghost use Rattle.world_model.specs.Board.{bodies_executed};
ghost use Rattle.world_model.specs.Settings.{Limits};
ghost use Rattle.lane_record.specs.Outcomes.{is_replied, is_sent, is_timed_out};
ghost use Rattle.script_plans.specs.declared.greeting.Greeting.TheVariants.{Live};
ghost use Rattle.transcript.specs.declared.line.BoardLine.TheVariants as board_lines;
ghost use Rattle.transcript.specs.Lines.{board_line, is_lost};
ghost use Rattle.transcript.specs.Shown.{places_told};
ghost use Rattle.board_history.specs.Parts.{IsReplied};
ghost use Rattle.board_history.specs.Runs.{greeting_of, opens_with};
ghost use Rattle.board_history.specs.Links.{IsFaithful, LinkReport, board_there};
ghost use Rattle.board_history.specs.LinkRuns.{RepliesCame, TimeOutsWaited};
ghost use Rattle.board_history.specs.Machine.{RanAsMachine};
ghost use Rattle.client_history.specs.Boards.{AreServedOver, IsServedAt, IsServedOver, ServedBoard, run_of};
ghost use Rattle.client_history.specs.Connections.{outcomes_of};
ghost use Rattle.client_history.specs.Shown.{GaveUpOnlyAfterRounds, HasLostOnlyIfFailed, IsAddedUp};
ghost use Rattle.client_history.specs.Shown.{IsNotLostUnlessFailed, IsReplyCarried, IsRightlyReplied, OfEach};
ghost use Rattle.client_history.specs.Shown.{PlacesDiffer, PlacesRise};

use board_history::laws::the_first_sends_are_the_order;

/// Of boards that were served each has its entry in the document and its link.
pub fn each_board_was_served()
    ensures { (settings : Limits) (specs : List BoardSpec) (boards : List ServedBoard) (links : List LinkReport)
        (position : ℕ) (served : ServedBoard) → AreServedOver settings specs boards links →
        slice_get boards position ≡ Some served → IsServedAt settings specs links position served }
{}

/// The places of a connection's bodies on a board rise, and no two bodies of a board have one place.
pub fn each_body_has_a_place_of_its_own()
    ensures rise { (settings : Limits) (spec : BoardSpec) (served : ServedBoard) (link : LinkReport) →
        IsServedOver settings spec served link → PlacesRise served.connections }
    ensures differ { (settings : Limits) (spec : BoardSpec) (served : ServedBoard) (link : LinkReport) →
        IsServedOver settings spec served link → PlacesDiffer served.connections }
{}

/// Over a link that tells, the board executed at most as many bodies as its line tells first sends, and each body that
/// was replied to is one of them: at its place, with the words of a bus with a single thread.
pub fn a_board_that_tells_executed_what_was_replied()
    ensures executed { (settings : Limits) (spec : BoardSpec) (served : ServedBoard) (link : LinkReport) →
        IsServedOver settings spec served link →
        IfSome (board_there link.telling)
        (λ board. length (bodies_executed board) ≤ places_told (board_line (run_of spec served))) }
    ensures replied { (settings : Limits) (spec : BoardSpec) (served : ServedBoard) (link : LinkReport) →
        IsServedOver settings spec served link → IfSome (board_there link.telling)
        (λ board. OfEach (IsRightlyReplied (opens_with spec.link) (bodies_executed board)) served.connections) }
{
    the_first_sends_are_the_order();
}

/// The line of a live board counts the bodies of all connections: how many were sent, replied to, timed out, and lost
/// with the link after they were sent. Each body that was sent is one of the others.
pub fn a_board_line_counts_the_bodies_of_its_connections()
    ensures live { (spec : BoardSpec) (served : ServedBoard) (payload : ℕ) → served.told ≡ Live payload →
        board_line (run_of spec served) ≡ board_lines.Live spec.name
        (count_by is_sent (flat_map outcomes_of served.connections))
        (count_by is_replied (flat_map outcomes_of served.connections))
        (count_by is_timed_out (flat_map outcomes_of served.connections))
        (count_by is_lost (flat_map outcomes_of served.connections)) }
    ensures sum { (spec : BoardSpec) (served : ServedBoard) → IsAddedUp (board_line (run_of spec served)) }
{}

/// Bodies are given up only after the rounds of the settings, each of which ended with a quiet receive behind the
/// greeting, and in each of which a datagram was held where the link tells: those that a board line tells timed out,
/// `window` at a time, and those of one connection that were timed out or never sent, one at a time.
pub fn a_board_waited_for_what_was_given_up()
    ensures line { (settings : Limits) (spec : BoardSpec) (served : ServedBoard) (link : LinkReport) →
        IsServedOver settings spec served link → TimeOutsWaited settings (board_line (run_of spec served)) link }
    ensures connections { (settings : Limits) (spec : BoardSpec) (served : ServedBoard) (link : LinkReport) →
        IsServedOver settings spec served link → GaveUpOnlyAfterRounds settings link served.connections }
{}

/// For each reply that a board line tells the link handed out a datagram, and one that answered the greeting, whether
/// the link tells or not.
pub fn replies_of_a_served_board_came_over_its_link()
    ensures { (settings : Limits) (spec : BoardSpec) (served : ServedBoard) (link : LinkReport) →
        IsServedOver settings spec served link → RepliesCame (board_line (run_of spec served)) link }
{}

/// Over any link, also one that does not tell, the words of each body that was replied to are the body of a control
/// packet that the link brought behind the greeting, with the identifier of its place.
pub fn words_of_replies_came_over_their_link()
    ensures { (settings : Limits) (spec : BoardSpec) (served : ServedBoard) (link : LinkReport) →
        IsServedOver settings spec served link → OfEach (IsReplyCarried link) served.connections }
{}

/// Bodies are lost with the link only where it failed.
pub fn a_served_board_loses_bodies_only_with_its_link()
    ensures line { (settings : Limits) (spec : BoardSpec) (served : ServedBoard) (link : LinkReport) →
        IsServedOver settings spec served link → HasLostOnlyIfFailed (board_line (run_of spec served)) link }
    ensures bodies { (settings : Limits) (spec : BoardSpec) (served : ServedBoard) (link : LinkReport) →
        IsServedOver settings spec served link → OfEach (IsNotLostUnlessFailed link) served.connections }
{}

/// Where the link tells, nothing was held and nothing failed, the board is live and every body was replied to.
pub fn a_faithful_link_serves_all()
    ensures live { (settings : Limits) (spec : BoardSpec) (served : ServedBoard) (link : LinkReport) →
        1 ≤ settings.rounds → IsFaithful link → IsServedOver settings spec served link →
        served.told ≡ greeting_of spec.link }
    ensures replied { (settings : Limits) (spec : BoardSpec) (served : ServedBoard) (link : LinkReport) →
        1 ≤ settings.rounds → IsFaithful link → IsServedOver settings spec served link →
        OfEach (λ s. IsReplied s.outcome) served.connections }
{}

/// Over each link of boards that were served passed what the machine of the protocol does with the bodies of the
/// connections, where a status was told over it.
pub fn each_link_of_served_boards_ran_as_the_machine()
    ensures { (settings : Limits) (specs : List BoardSpec) (boards : List ServedBoard) (links : List LinkReport) →
        AreServedOver settings specs boards links → AllByRecursion RanAsMachine links }
{}
