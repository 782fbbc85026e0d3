//! The record of a berth worked by hand. This function does nothing when it runs: its clauses are what is proved, by
//! computing the definitions.

ghost use Rattle.std.specs.Prelude.{◌≡◌, ◌∷◌, []};
ghost use Rattle.board_berth.specs.Berths.{berth_record};
ghost use Rattle.board_berth.specs.Examples.{entry_with, reset_once, tells_nothing};

/// A board that was reset once. In front of the entries of each greeting that was answered stands what the board told;
/// of the one in vain nothing stands there. Each client's bodies count from 0 in each greeting.
pub fn a_board_is_reset_once()
    ensures head { (berth_record tells_nothing reset_once).head ≡ 4 ∷ 2 ∷ 3 ∷ [] }
    ensures entries { (berth_record tells_nothing reset_once).entries
        ≡ entry_with 0 5 0 (4 ∷ 2 ∷ 1500 ∷ 4 ∷ 9 ∷ 3 ∷ 0 ∷ [])
        ∷ entry_with 1 1 0 (7 ∷ []) ∷ entry_with 1 3 0 (0 ∷ []) ∷ entry_with 1 4 0 (0 ∷ 0 ∷ 1 ∷ 8 ∷ [])
        ∷ entry_with 2 5 1 (4 ∷ 2 ∷ 1500 ∷ 4 ∷ 1 ∷ 3 ∷ 0 ∷ [])
        ∷ entry_with 2 1 0 (7 ∷ []) ∷ [] }
{}
