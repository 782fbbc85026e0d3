//! Answers worked by hand. These functions do nothing when they run: their clauses are what is proved.

ghost use Rattle.std.specs.Prelude.{◌≡◌, [], ◌∷◌};
ghost use Rattle.lane_record.specs.declared.outcome.Outcome.TheVariants as outcomes;
ghost use Rattle.hub_framing.specs.Frames.{frame_bytes};
ghost use Rattle.hub_session.specs.declared.got.BodyRefusal.TheVariants as refusals;
ghost use Rattle.hub_session.specs.declared.got.Got.TheVariants as gots;
ghost use Rattle.hub_session.specs.Answers.{answer};
ghost use Rattle.hub_session.specs.Examples.{little_read, one_word, read_at, status_request, three_boards, words};

/// A read of one word, and the reply of the board.
#[tactic(auto, unfolding(packet_codec::specs::Reading::packet_of, packet_codec::specs::Reading::start_of))]
pub fn a_read_is_answered()
    ensures request { frame_bytes (read_at 0)
        ≡ words (0x00000010 ∷ 0x00000000 ∷ 0x200000f0 ∷ 0x2000010f ∷ 0x00000004 ∷ []) }
    ensures reply { answer three_boards (read_at 0) one_word
        ≡ words (0x00000014 ∷ 0x00000000 ∷ 0x00000000 ∷ 0x200000f0 ∷ 0x20000100 ∷ 0x0000abcd ∷ []) }
{}

/// The reply is in the byte order of the request, and has its identifier.
#[tactic(auto, unfolding(packet_codec::specs::Reading::packet_of, packet_codec::specs::Reading::start_of))]
pub fn a_little_endian_read_is_answered_so()
    ensures { answer three_boards little_read one_word
        ≡ 0 ∷ 0 ∷ 0 ∷ 0x14 ∷ 0 ∷ 0 ∷ 0 ∷ 0 ∷ 0 ∷ 0 ∷ 0 ∷ 0
        ∷ 0xf0 ∷ 0x07 ∷ 0x00 ∷ 0x20 ∷ 0x00 ∷ 0x01 ∷ 0x00 ∷ 0x20 ∷ 0xcd ∷ 0xab ∷ 0x00 ∷ 0x00 ∷ [] }
{}

/// Frames for which the hub is not asked.
#[tactic(auto, unfolding(packet_codec::specs::Reading::packet_of, packet_codec::specs::Reading::start_of))]
pub fn frames_that_are_not_for_a_lane()
    ensures no_board { answer three_boards (read_at 7) gots.NotAsked
        ≡ words (0x00000008 ∷ 0x00000007 ∷ 0x00050000 ∷ []) }
    ensures silent { answer three_boards (read_at 1) gots.NotAsked ≡ words (0x00000008 ∷ 0x00000001 ∷ 0x00020000 ∷ []) }
    ensures down { answer three_boards (read_at 2) gots.NotAsked ≡ words (0x00000008 ∷ 0x00000002 ∷ 0x00030000 ∷ []) }
    ensures no_control { answer three_boards status_request gots.NotAsked
        ≡ words (0x00000008 ∷ 0x00000000 ∷ 0x00040000 ∷ []) }
{}

/// What else may become of a read.
#[tactic(auto, unfolding(packet_codec::specs::Reading::packet_of, packet_codec::specs::Reading::start_of))]
pub fn reads_without_a_reply()
    ensures timed_out { answer three_boards (read_at 0) (gots.Came (outcomes.TimedOut 1 2))
        ≡ words (0x00000008 ∷ 0x00000000 ∷ 0x00010000 ∷ []) }
    ensures unsent { answer three_boards (read_at 0) (gots.Came outcomes.Unsent)
        ≡ words (0x00000008 ∷ 0x00000000 ∷ 0x00020000 ∷ []) }
    ensures too_long { answer three_boards (read_at 0) (gots.Refused refusals.TooLong)
        ≡ words (0x00000008 ∷ 0x00000000 ∷ 0x00060000 ∷ []) }
    ensures reply_too_long { answer three_boards (read_at 0) (gots.Refused refusals.ReplyTooLong)
        ≡ words (0x00000008 ∷ 0x00000000 ∷ 0x00070000 ∷ []) }
    ensures overfull { answer three_boards (read_at 0) (gots.Refused refusals.Overfull)
        ≡ words (0x00000008 ∷ 0x00000000 ∷ 0x00080000 ∷ []) }
{}
