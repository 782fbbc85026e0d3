//! Laws of the definitions. These functions do nothing when they run: their clauses are what is proved.

ghost use Rattle.std.specs.Prelude.{◌≡◌, ◌≢◌, ◌↔◌, ℕ, ◌<◌, ◌^◌, [], ◌∷◌, ◌++◌, List, true};
ghost use Rattle.std.specs.Prelude.{bit_and, codes, Ok, Some};
ghost use Rattle.std.specs.List.{AllByRecursion, AllZip, Contains, filter_map, slice_get};
ghost use Rattle.board_specs.specs.declared.spec.BoardSpec.{BoardSpec};
ghost use Rattle.masked_fields.specs.Field.{field};
ghost use Rattle.std.specs.FinMap.{get};
ghost use Rattle.address_table.specs.Rules.{is_id};
ghost use Rattle.node_tree.specs.Maps.{AreValidTables, Name, RegisterMap, TableMap};
ghost use Rattle.node_tree.specs.Names.{IsIndexOf};
ghost use Rattle.node_tree.specs.Overlaps.{overlap, overlapping};
ghost use Rattle.node_tree.specs.declared.register.Register.{Register as Reg};
ghost use Rattle.script_lang.specs.Operations.{fits_mask, meaning};
ghost use Rattle.script_lang.specs.OwnNames.{HaveOwnNames};
ghost use Rattle.script_steps.specs.declared.operation.Step.TheVariants.{Do, Dispatch};
ghost use Rattle.script_lang.specs.Scripts.{script_faults, steps_from};
ghost use Rattle.script_steps.specs.declared.operation.Step.{Step};
ghost use Rattle.config_store.specs.declared.state.StateEntry.{StateEntry as EntryValue};
ghost use Rattle.config_store.specs.Kept.{IndexedBoard, IsKept, indexed_boards, registers_kept, kept_of};
ghost use Rattle.config_store.specs.Lines.{apply_lines, read_text, save_lines, write_text};
ghost use Rattle.config_store.specs.Meanings.{
  HasWord,
  HaveWordNames,
  IsBoardWord,
  IsOneWord,
  Reads,
  Writes,
  read_of,
  write_of,
};
ghost use Rattle.config_store.specs.Overlaps.{name_of, overlapping_names};
ghost use Rattle.config_store.specs.Refusals.{IsLowest, applying_faults, entry_faults, keeping_faults, value_rules};
ghost use Rattle.config_store.specs.States.{StoreFault};
ghost use Rattle.config_store.specs.Order.{AreInOrder};
ghost use Rattle.config_store.specs.Puts.{AreApartFrom, CanAllBePut, CanBePut, put_all};

/// The kept registers of a table are those of its registers that are one word, are read and written, and have no other
/// name below theirs.
pub fn a_register_is_kept_by_what_it_is()
    ensures { (index : RegisterMap) (name : Name) (r : Reg)
        → Contains (registers_kept index) (name, r) ↔ IsKept index name r }
{}

/// Kept registers of a table overlap where they share a bit of a word.
pub fn kept_registers_overlap_in_a_bit_of_a_word()
    ensures { (index : RegisterMap) (name other : Name) (r s : Reg)
        → IsKept index name r
        → IsKept index other s
        → (overlap (name, r) (other, s) ≡ true) ↔ ((r.address ≡ s.address) × (bit_and r.mask s.mask ≢ 0)) }
{}

/// Values that are put under masks leave the fields under other masks as they are, in whatever order they are put, and
/// each of them is read back where no later mask shares a bit with its own.
pub fn values_under_masks_that_are_apart_stay_apart()
    ensures others { (word mask : ℕ) (puts : List (ℕ × ℕ)) → word < 2 ^ 32 → mask < 2 ^ 32
        → AreApartFrom mask puts → field (put_all word puts) mask ≡ field word mask }
    ensures own { (word : ℕ) (before after : List (ℕ × ℕ)) (put : ℕ × ℕ) → word < 2 ^ 32
        → CanAllBePut before → CanBePut put → AreApartFrom put.0 after
        → field (put_all word (before ++ put ∷ after)) put.0 ≡ put.1 }
{}

/// Where each name is one word of a line, the line that reads a kept register asks for its word, the line that writes a
/// value puts it into the register's field, and the line between them is a dispatch.
pub fn lines_mean_what_they_say()
    ensures read { (boards : List BoardSpec) (indexes : List RegisterMap) (i line : ℕ) (b : IndexedBoard) (name : Name)
        (r : Reg)
        → HaveOwnNames boards → slice_get (indexed_boards boards indexes) i ≡ Some b → IsBoardWord b.0.name → IsOneWord name
        → IsKept b.1 name r
        → meaning boards indexes line (read_text b.0.name name) ≡ Ok (Some (Do (read_of line i name r))) }
    ensures write { (boards : List BoardSpec) (indexes : List RegisterMap) (i line : ℕ) (b : IndexedBoard) (name : Name)
        (r : Reg) (value : ℕ)
        → HaveOwnNames boards → slice_get (indexed_boards boards indexes) i ≡ Some b → IsBoardWord b.0.name → IsOneWord name
        → IsKept b.1 name r → value < 2 ^ 32 → fits_mask r.mask value ≡ true
        → meaning boards indexes line (write_text b.0.name name value)
        ≡ Ok (Some (Do (write_of line i name r value))) }
    ensures between { (boards : List BoardSpec) (indexes : List RegisterMap) (line : ℕ)
        → meaning boards indexes line (codes "dispatch") ≡ Ok (Some Dispatch) }
{}

/// Where no rule is broken, compiling the script that saves, and the one that applies values in order, finds no fault.
pub fn the_scripts_have_no_fault()
    ensures save { (boards : List BoardSpec) (indexes : List RegisterMap)
        → HaveOwnNames boards → HaveWordNames (indexed_boards boards indexes)
        → keeping_faults (indexed_boards boards indexes) ≡ []
        → script_faults boards indexes (save_lines (kept_of (indexed_boards boards indexes)) ∷ []) ≡ [] }
    ensures apply { (boards : List BoardSpec) (indexes : List RegisterMap) (entries : List EntryValue)
        → HaveOwnNames boards → HaveWordNames (indexed_boards boards indexes)
        → applying_faults (indexed_boards boards indexes) entries ≡ []
        → AreInOrder entries → AllByRecursion HasWord entries
        → script_faults boards indexes (apply_lines entries (kept_of (indexed_boards boards indexes)) ∷ []) ≡ [] }
{}

/// Where no rule is broken, the script that saves reads each kept register, and the one that applies writes each value,
/// awaits the writes, and then reads each kept register, all in their order.
pub fn the_scripts_write_and_read()
    ensures save { (boards : List BoardSpec) (indexes : List RegisterMap)
        → HaveOwnNames boards → HaveWordNames (indexed_boards boards indexes)
        → AllZip (Reads (indexed_boards boards indexes)) (kept_of (indexed_boards boards indexes))
        (steps_from boards indexes 1 (save_lines (kept_of (indexed_boards boards indexes)))) }
    ensures apply { (boards : List BoardSpec) (indexes : List RegisterMap) (entries : List EntryValue)
        → HaveOwnNames boards → HaveWordNames (indexed_boards boards indexes)
        → entry_faults (indexed_boards boards indexes) entries ≡ [] → AllByRecursion HasWord entries
        → (writes : List Step) × (reads : List Step) × AllZip (Writes (indexed_boards boards indexes)) entries writes
        × AllZip (Reads (indexed_boards boards indexes)) (kept_of (indexed_boards boards indexes)) reads
        × (steps_from boards indexes 1 (apply_lines entries (kept_of (indexed_boards boards indexes)))
        ≡ writes ++ Dispatch ∷ reads) }
{}

/// Of values that break rules the lowest rule that any of them breaks is told, at the first value that breaks it.
pub fn the_lowest_rule_is_told()
    ensures { (boards : List IndexedBoard) (entries : List EntryValue) (fault : StoreFault)
        → (slice_get (entry_faults boards entries) 0 ≡ Some fault) ↔ IsLowest value_rules boards entries fault }
{}

/// The names that overlap earlier ones are those of the second registers of the pairs that a listing shows.
pub fn overlapping_names_are_those_of_pairs()
    ensures { (es : List (Name × Reg)) → filter_map (name_of es) (overlapping [] es) ≡ overlapping_names [] es }
{}

/// The names of the registers of a table are words of a line, and an id is the name of a board before a colon.
pub fn names_are_words_of_lines()
    ensures registers { (tables : TableMap) (root : Name) (index : RegisterMap) (name : Name) (r : Reg)
        → AreValidTables tables → IsIndexOf tables root index → get index name ≡ Some r → IsOneWord name }
    ensures boards { (name : Name) → is_id name ≡ true → IsBoardWord name }
{}
