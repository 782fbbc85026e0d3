//! Texts and connections worked by hand. These functions do nothing when they run: their clauses are what is proved, by
//! computing the definitions.

ghost use Rattle.std.specs.Prelude.{◌≡◌, ◌++◌, ◌∷◌, [], codes};
ghost use Rattle.hub_session.specs.declared.served.SessionEnd.TheVariants.{Closed, ReadFault, WriteFault, BadFrame};
ghost use Rattle.hub_session.specs.declared.served.SessionEnd.TheVariants.{CutFrame};
ghost use Rattle.transcript.specs.declared.line.BoardLine.TheVariants.{Live, Down};
ghost use Rattle.serve_command.specs.Text.{serve_text, serve_status};
ghost use Rattle.board_specs.specs.declared.spec.BoardSpec.{BoardSpec};
ghost use Rattle.board_history.specs.Examples.{read_body, seven};
ghost use Rattle.hub_session.specs.declared.got.Got.TheVariants.{NotAsked};
ghost use Rattle.hub_session.specs.Codes.{replied_code, unsent_code, link_lost_code};
ghost use Rattle.hub_session.specs.Examples.{three_boards};
ghost use Rattle.serve_command.specs.Answers.{answers_by};
ghost use Rattle.serve_command.specs.Examples.{first_connection, given_up, greeted_link, only, quiet_link, read_at};
ghost use Rattle.serve_command.specs.Examples.{read_of, refused_exchange, second_connection, turned_round, two_connections};
ghost use Rattle.serve_command.specs.Examples.{two_rounds, write_body};
ghost use Rattle.serve_command.specs.Frames.{FramesGivenUpOnlyAfterRounds, HasUnaskedCodes, IsAnsweredAsCarried};
ghost use Rattle.serve_command.specs.Frames.{IsAnsweredRightly};
ghost use Rattle.serve_command.specs.Frames.{IsLostOnlyWithLink, NoneWithCode, PlacesOfFramesDiffer};
ghost use Rattle.serve_command.specs.Frames.{PlacesOfFramesRise, frames_given_up, places_on};
ghost use Rattle.serve_command.specs.Ruled.{HasRuledCodes};

/// One connection on one board.
pub fn one_frame()
    ensures text { serve_text (record { frames = 1; end = Closed } ∷ []) (Live (codes "b0") 1 1 0 0 ∷ [])
        ≡ codes "connection 1 frames 1 closed\nboard b0 places 1 replied 1 timeout 0 lost 0\n" }
    ensures status { serve_status (record { frames = 1; end = Closed } ∷ []) ≡ 0 }
{}

/// The line of a connection for every other way in which it ends.
pub fn other_ends()
    ensures text { serve_text (record { frames = 0; end = CutFrame } ∷ record { frames = 2; end = BadFrame }
        ∷ record { frames = 3; end = ReadFault } ∷ record { frames = 4; end = WriteFault } ∷ [])
        (Down (codes "b0") ∷ [])
        ≡ codes "connection 1 frames 0 cut frame\nconnection 2 frames 2 bad frame\n"
        ++ (codes "connection 3 frames 3 read fault\nconnection 4 frames 4 write fault\n" ++ codes "board b0 down\n") }
    ensures status { serve_status (record { frames = 1; end = Closed } ∷ record { frames = 0; end = CutFrame } ∷ [])
        ≡ 1 }
{}

/// The frames of two connections: their places on the live board, how many of each connection were given up there, and
/// how many were answered by a reply, by a silent board and by a lost link.
#[tactic(auto, unfolding(packet_codec::specs::Reading::packet_of, packet_codec::specs::Reading::start_of))]
pub fn two_connections_at_three_boards()
    ensures first_places { places_on 0 first_connection ≡ 1 ∷ 3 ∷ [] }
    ensures second_places { places_on 0 second_connection ≡ 2 ∷ [] }
    ensures first_given_up { frames_given_up 0 three_boards first_connection ≡ 1 }
    ensures second_given_up { frames_given_up 0 three_boards second_connection ≡ 0 }
    ensures replied { answers_by replied_code 0 three_boards two_connections ≡ 2 }
    ensures silent { answers_by unsent_code 1 three_boards two_connections ≡ 1 }
    ensures down { answers_by link_lost_code 2 three_boards two_connections ≡ 1 }
{}

/// A frame was given up after the two rounds of the settings and one more, each with a quiet receive behind the greeting.
#[tactic(auto, unfolding(packet_codec::specs::Reading::packet_of, packet_codec::specs::Reading::start_of, world_model::specs::Messages::to_hub))]
pub fn a_frame_is_given_up_after_three_quiet_receives()
    ensures { FramesGivenUpOnlyAfterRounds two_rounds (greeted_link 3) 0 three_boards (only given_up) }
{}

/// The board executed the read of a register that opens with 7, and the frame was answered by this word.
pub fn a_read_is_answered_rightly()
    ensures { IsAnsweredRightly seven (read_body ∷ []) three_boards 0 (read_at 1 7) }
{}

/// No two frames for a board are shown one place, and none an earlier place than the frame before it. No frame is
/// answered by a reply that the board did not give, or that no datagram brought, or to a body that it did not execute,
/// or executed elsewhere. None is given up before its rounds, or for quiet receives of the greeting, lost where the
/// link did not fail, answered as if the document had no such board, or refused as too long where it fits. And a silent
/// board is found to answer by code 2.
#[tactic(auto, unfolding(packet_codec::specs::Reading::packet_of, packet_codec::specs::Reading::start_of))]
pub fn wrong_answers_are_refused()
    ensures two_at_one_place { PlacesOfFramesDiffer 0 (only (read_at 2 7) ++ two_connections) → ⊥ }
    ensures turned_round { PlacesOfFramesRise 0 turned_round → ⊥ }
    ensures another_word { IsAnsweredRightly seven (read_body ∷ []) three_boards 0 (read_at 1 8) → ⊥ }
    ensures another_place { IsAnsweredRightly seven (write_body ∷ read_body ∷ []) three_boards 0 (read_at 1 7) → ⊥ }
    ensures never_executed { IsAnsweredRightly seven [] three_boards 0 (read_at 1 7) → ⊥ }
    ensures too_soon { FramesGivenUpOnlyAfterRounds two_rounds (greeted_link 2) 0 three_boards (only given_up) → ⊥ }
    ensures in_greeting { FramesGivenUpOnlyAfterRounds two_rounds (quiet_link 3) 0 three_boards (only given_up) → ⊥ }
    ensures no_datagram { IsAnsweredAsCarried (quiet_link 3) three_boards 0 (read_at 1 7) → ⊥ }
    ensures no_fault { IsLostOnlyWithLink (quiet_link 2) 2 three_boards (only (read_of 2 NotAsked)) → ⊥ }
    ensures there_is_a_board { (spec : BoardSpec) → HasUnaskedCodes (spec ∷ []) [] (read_of 0 NotAsked) → ⊥ }
    ensures it_fits { HasRuledCodes 100 [] three_boards read_body refused_exchange → ⊥ }
    ensures silent { NoneWithCode unsent_code 1 three_boards (only (read_of 1 NotAsked)) → ⊥ }
{}
