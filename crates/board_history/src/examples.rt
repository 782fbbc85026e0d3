//! Histories worked by hand, and runs that are none. These functions do nothing when they run: their clauses are what
//! is proved, by computing the definitions.

ghost use Rattle.std.specs.Prelude.{◌≡◌, ◌∷◌, [], Some};
ghost use Rattle.board_bus.specs.declared.kind.RangeKind.TheVariants.{Rw};
ghost use Rattle.board_bus.specs.Ranges.{opening_bus};
ghost use Rattle.lane_record.specs.declared.outcome.Outcome.TheVariants.{Replied, TimedOut};
ghost use Rattle.board_history.specs.Order.{order};
ghost use Rattle.board_history.specs.Parts.{AreLateRepliesOf, AreRepliesOf, HasOneOrder, IsExecutedOnce, KeepsScripts};
ghost use Rattle.board_history.specs.History.{IsHistory};
ghost use Rattle.board_history.specs.GiveUps.{GaveUpOnlyAfter};
ghost use Rattle.board_history.specs.Examples.{late_read, one_client, one_read, read_body, reads_at, seven, timed_out};
ghost use Rattle.board_history.specs.Examples.{two_clients};
ghost use Rattle.board_history.specs.InTurn.{in_turn};

/// Client 1 writes 5 to the register at address 0 and then reads it; client 2 adds 1 to it. In turn client 2's body has
/// place 3, and is answered the word before. Had it come first, the order would begin with it.
#[tactic(auto, unfolding(transaction_codec::specs::Request::request_at))]
pub fn two_clients_and_one_register()
    ensures outcomes { in_turn 1 (opening_bus (record { base = 0; size = 1; kind = Rw; init = [] } ∷ []))
        (((0x2000011f ∷ 0 ∷ 5 ∷ []) ∷ (0x2000010f ∷ 0 ∷ []) ∷ []) ∷ ((0x2000015f ∷ 0 ∷ 1 ∷ []) ∷ []) ∷ [])
        ≡ (Replied 1 (0x20000110 ∷ []) ∷ Replied 2 (0x20000100 ∷ 5 ∷ []) ∷ [])
        ∷ (Replied 3 (0x20000150 ∷ 5 ∷ []) ∷ []) ∷ [] }
    ensures order { order
        (((0x2000011f ∷ 0 ∷ 5 ∷ []) ∷ (0x2000010f ∷ 0 ∷ []) ∷ []) ∷ ((0x2000015f ∷ 0 ∷ 1 ∷ []) ∷ []) ∷ [])
        ((Replied 2 (0x20000110 ∷ []) ∷ Replied 3 (0x20000100 ∷ 5 ∷ []) ∷ [])
        ∷ (Replied 1 (0x20000150 ∷ 0 ∷ []) ∷ []) ∷ [])
        ≡ record { place = 1; body = 0x2000015f ∷ 0 ∷ 1 ∷ [] }
        ∷ record { place = 2; body = 0x2000011f ∷ 0 ∷ 5 ∷ [] }
        ∷ record { place = 3; body = 0x2000010f ∷ 0 ∷ [] } ∷ [] }
{}

/// Runs of one register that opens with 7, which clients read: no history has a place of two bodies, a place left out,
/// a script turned round, a body executed twice, a reply, in time or late, of a body that was not executed, the reply
/// of another bus, in time or late, or a late answer of a body that was replied to; and no hub is patient that times a
/// body out too soon. The last clauses are the histories that it should have been, in time and late.
pub fn wrong_runs_are_refused()
    ensures two_at_one_place { HasOneOrder two_clients ((reads_at 1 7 ∷ []) ∷ (reads_at 1 7 ∷ []) ∷ []) → ⊥ }
    ensures place_left_out { HasOneOrder one_client ((reads_at 2 7 ∷ []) ∷ []) → ⊥ }
    ensures script_turned_round { KeepsScripts ((read_body ∷ read_body ∷ []) ∷ [])
        ((reads_at 2 7 ∷ reads_at 1 7 ∷ []) ∷ []) → ⊥ }
    ensures executed_twice { IsExecutedOnce (order one_client one_read) one_read []
        (read_body ∷ read_body ∷ []) → ⊥ }
    ensures never_executed { IsExecutedOnce (order one_client one_read) one_read [] [] → ⊥ }
    ensures late_and_never_executed { IsExecutedOnce (order one_client timed_out) timed_out (late_read 7) [] → ⊥ }
    ensures another_bus { AreRepliesOf seven (order one_client ((reads_at 1 8 ∷ []) ∷ []))
        ((reads_at 1 8 ∷ []) ∷ []) → ⊥ }
    ensures late_of_another_bus { AreLateRepliesOf seven (order one_client timed_out) timed_out (late_read 8) → ⊥ }
    ensures late_and_in_time { AreLateRepliesOf seven (order one_client one_read) one_read (late_read 7) → ⊥ }
    ensures timed_out_too_soon { GaveUpOnlyAfter 4 3 2 (((TimedOut 1 2 ∷ []) ∷ []) ∷ []) → ⊥ }
    ensures right { IsHistory seven one_client one_read [] }
    ensures right_late { IsHistory seven one_client timed_out (late_read 7) }
{}
