//! Configurations worked by hand. These functions do nothing when they run: their clauses are what is proved, by
//! computing the definitions.

ghost use Rattle.std.specs.Prelude.{◌≡◌, [], ◌∷◌, Some, codes, map, pos};
ghost use Rattle.toml.specs.Data.{table, member, no_members, integer, string};
ghost use Rattle.toml.specs.Parse.{parse_document};
ghost use Rattle.transcript.specs.declared.line.LateAnswer.TheVariants as late_answer;
ghost use Rattle.transcript.specs.declared.line.OpResult.TheVariants.{Value, TimedOut, Late};
ghost use Rattle.config_store.specs.declared.refusal.StoreWhy.TheVariants.{
  Shape,
  Overlap,
  UnknownBoard,
  UnknownName,
  NotKept,
  BitsOutside,
};
ghost use Rattle.config_store.specs.Examples.{
  board,
  dashed_table,
  overlapping_table,
  read_line,
  small_board,
  small_table,
  value_for,
};
ghost use Rattle.config_store.specs.Kept.{registers_kept, kept_of};
ghost use Rattle.config_store.specs.Lines.{save_lines, apply_lines};
ghost use Rattle.config_store.specs.Refusals.{applying_faults, keeping_faults};
ghost use Rattle.config_store.specs.States.{shape_faults, state_entries};
ghost use Rattle.config_store.specs.Text.{state_text};

/// Of a register and its top bit the top bit is kept; a register that is only read is not.
pub fn a_register_with_a_field_is_not_kept()
    ensures { map (λ e. e.0) (registers_kept small_table) ≡ codes "a.top" ∷ [] }
{}

/// `a.b` is below `a`, also where `a-b` stands between; `ab.c` is not.
pub fn names_are_parted_by_dots()
    ensures { map (λ e. e.0) (registers_kept dashed_table) ≡ codes "a-b" ∷ codes "a.b" ∷ codes "ab.c" ∷ [] }
{}

/// Of kept registers that share a bit the later is told.
pub fn the_later_of_two_that_overlap_is_told()
    ensures { keeping_faults (board (codes "b1") overlapping_table ∷ []) ≡ (codes "b1", codes "y", Overlap) ∷ [] }
{}

/// A field is written, and then read.
pub fn a_field_is_written_and_read()
    ensures save { save_lines (kept_of (small_board ∷ [])) ≡ codes "read b0:a.top" ∷ [] }
    ensures apply { apply_lines (value_for (codes "b0") (codes "a.top") 1 ∷ []) (kept_of (small_board ∷ []))
        ≡ codes "write b0:a.top 1" ∷ codes "dispatch" ∷ codes "read b0:a.top" ∷ [] }
{}

/// The text of the read, and of those whose register did not answer in time: a late answer is no value of the text.
pub fn a_text_has_values_and_comments()
    ensures value { state_text (small_board.0 ∷ []) (read_line (codes "b0") (codes "a.top") (Value (1 ∷ [])) ∷ [])
        ≡ codes "[state.b0]\n\"a.top\" = 0x00000001\n" }
    ensures comment { state_text (small_board.0 ∷ []) (read_line (codes "b0") (codes "a.top") (TimedOut 2) ∷ [])
        ≡ codes "[state.b0]\n# \"a.top\" timeout after 2 rounds, execution unknown\n" }
    ensures late { state_text (small_board.0 ∷ [])
        (read_line (codes "b0") (codes "a.top") (Late 2 (late_answer.Value (1 ∷ []))) ∷ [])
        ≡ codes "[state.b0]\n# \"a.top\" timeout after 2 rounds, answered late: = 0x00000001\n" }
    ensures none { state_text (small_board.0 ∷ []) [] ≡ codes "[state.b0]\n" }
{}

/// Values that are not written, each with the rule that it breaks; of two the one that breaks the lower rule is told first.
pub fn rules_on_values()
    ensures kept { applying_faults (small_board ∷ []) (value_for (codes "b0") (codes "a.top") 1 ∷ []) ≡ [] }
    ensures outside { applying_faults (small_board ∷ []) (value_for (codes "b0") (codes "a.top") 2 ∷ [])
        ≡ (codes "b0", codes "a.top", BitsOutside) ∷ [] }
    ensures above { applying_faults (small_board ∷ []) (value_for (codes "b0") (codes "a") 1 ∷ [])
        ≡ (codes "b0", codes "a", NotKept) ∷ [] }
    ensures name { applying_faults (small_board ∷ []) (value_for (codes "b0") (codes "b") 1 ∷ [])
        ≡ (codes "b0", codes "b", UnknownName) ∷ [] }
    ensures other_board { applying_faults (small_board ∷ []) (value_for (codes "b9") (codes "a.top") 1 ∷ [])
        ≡ (codes "b9", codes "a.top", UnknownBoard) ∷ [] }
    ensures lowest { applying_faults (small_board ∷ [])
        (value_for (codes "b0") (codes "zz") 1 ∷ value_for (codes "b9") (codes "a.top") 1 ∷ [])
        ≡ (codes "b9", codes "a.top", UnknownBoard) ∷ (codes "b0", codes "zz", UnknownName) ∷ [] }
{}

/// A state, and what is none: a name without quotes is a table in a table.
pub fn values_of_a_document()
    ensures entries { state_entries (table (member (codes "b0") (table
        (member (codes "a.top") (integer (pos 1)) no_members)) no_members))
        ≡ value_for (codes "b0") (codes "a.top") 1 ∷ [] }
    ensures unquoted { shape_faults (table (member (codes "b0") (table
        (member (codes "a") (table (member (codes "top") (integer (pos 1)) no_members)) no_members)) no_members))
        ≡ (codes "b0", codes "a", Shape) ∷ [] }
    ensures no_table { shape_faults (table (member (codes "b0") (integer (pos 1)) no_members))
        ≡ (codes "b0", [], Shape) ∷ [] }
    ensures no_tables { shape_faults (string (codes "b0")) ≡ ([], [], Shape) ∷ [] }
{}

/// The texts are TOML: a value is a key with its dots and a number, a comment is nothing, and a board without a value is
/// an empty table.
pub fn texts_are_read_back()
    ensures value { parse_document (codes "[state.b0]\n\"a.top\" = 0x00000001\n")
        ≡ Some (member (codes "state") (table (member (codes "b0") (table
        (member (codes "a.top") (integer (pos 1)) no_members)) no_members)) no_members) }
    ensures comment { parse_document (codes "[state.b0]\n# \"a.top\" timeout after 2 rounds, execution unknown\n")
        ≡ Some (member (codes "state") (table (member (codes "b0") (table no_members) no_members)) no_members) }
{}
