//! Applied configurations worked by hand. These functions do nothing when they run: their clauses are what is proved, by
//! computing the definitions.

ghost use Rattle.std.specs.Prelude.{◌≡◌, [], ◌∷◌, Ok, codes};
ghost use Rattle.transaction_codec.specs.declared.request.Op.TheVariants.{Read, RmwBits, Write};
ghost use Rattle.address_table.specs.declared.kinds.Mode.TheVariants.{Single};
ghost use Rattle.address_table.specs.declared.kinds.Permission.TheVariants.{Rw};
ghost use Rattle.board_bus.specs.Cells.{cells_from, read_word};
ghost use Rattle.board_bus.specs.declared.kind.RangeKind.TheVariants as kind;
ghost use Rattle.config_store.specs.Examples.{register, small_board, value_for};
ghost use Rattle.config_store.specs.Kept.{kept_register};
ghost use Rattle.config_laws.specs.Applied.{IsApplied};
ghost use Rattle.config_laws.specs.Saved.{saved_text};
ghost use Rattle.config_laws.specs.Turns.{after_ops};

/// A word is written, then its top bit is set, and the other word stays as it is.
pub fn operations_are_done_one_after_another()
    ensures changed { let cells = cells_from 8 kind.Rw (1 ∷ 2 ∷ []) in
        read_word (after_ops cells (Write 8 (5 ∷ []) ∷ RmwBits 8 0x7fffffff 0x80000000 ∷ Read 8 1 ∷ [])) 8
        ≡ Ok 0x80000005 }
    ensures other { let cells = cells_from 8 kind.Rw (1 ∷ 2 ∷ []) in
        read_word (after_ops cells (Write 8 (5 ∷ []) ∷ RmwBits 8 0x7fffffff 0x80000000 ∷ Read 8 1 ∷ [])) 9 ≡ Ok 2 }
{}

/// The text of one value.
pub fn a_configuration_of_one_value_has_this_text()
    ensures { saved_text (small_board.0 ∷ []) (value_for (codes "b0") (codes "a.top") 1 ∷ [])
        ≡ codes "[state.b0]\n\"a.top\" = 0x00000001\n" }
{}

/// The value that is given for a register is shown, and no other.
pub fn a_given_value_is_shown_and_no_other()
    ensures given { IsApplied (small_board.0 ∷ []) (value_for (codes "b0") (codes "a.top") 1 ∷ [])
        (kept_register (codes "b0") (register (codes "a.top") 8 0x80000000 Rw Single))
        (value_for (codes "b0") (codes "a.top") 1) }
    ensures other { ¬ IsApplied (small_board.0 ∷ []) (value_for (codes "b0") (codes "a.top") 1 ∷ [])
        (kept_register (codes "b0") (register (codes "a.top") 8 0x80000000 Rw Single))
        (value_for (codes "b0") (codes "a.top") 0) }
{}
