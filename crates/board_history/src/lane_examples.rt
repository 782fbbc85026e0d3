//! What the receives of a link brought, worked by hand. These functions do nothing when they run: their clauses are
//! what is proved.

ghost use Rattle.std.specs.Prelude.{◌≡◌, ℕ, List, [], ◌∷◌};
ghost use Rattle.board_history.specs.LaneExamples.{greeted_and_replied, replied_and_greeted, seven_read};
ghost use Rattle.board_history.specs.Receives.{HasBroughtReply, HasToldPayload, quiets_since_status};

/// A board told its status, and the reply at place 1 came behind it: the link brought the words of that reply, and no
/// receive behind the status was quiet.
pub fn a_reply_came_behind_the_status()
    ensures payload { HasToldPayload greeted_and_replied 368 }
    ensures reply { HasBroughtReply greeted_and_replied 1 seven_read }
    ensures quiets { quiets_since_status greeted_and_replied ≡ 0 }
{}

/// That link brought no other words, and no reply at place 2; and where the datagram with the reply came before the
/// status no reply was brought.
pub fn no_other_reply_came()
    ensures other_words { HasBroughtReply greeted_and_replied 1 (0x20000100 ∷ 8 ∷ []) → ⊥ }
    ensures another_place { HasBroughtReply greeted_and_replied 2 seven_read → ⊥ }
    ensures before_the_status { HasBroughtReply replied_and_greeted 1 seven_read → ⊥ }
    ensures another_payload { HasToldPayload greeted_and_replied 367 → ⊥ }
{}
