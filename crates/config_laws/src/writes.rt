//! Laws of single writes to registers. These functions do nothing when they run: their clauses are what is proved.

ghost use Rattle.std.specs.Prelude.{◌≡◌, ◌⊎◌, ℕ, ◌<◌, ◌^◌, ◌∷◌, ◌++◌, [], List, None, Ok};
ghost use Rattle.std.specs.List.{AllByRecursion};
ghost use Rattle.masked_fields.specs.Field.{FitsMask, field, put_field};
ghost use Rattle.board_bus.specs.Cells.{CellMap, read_word};
ghost use Rattle.board_bus.specs.Transactions.{outcome};
ghost use Rattle.node_tree.specs.declared.register.Register.{Register as Reg};
ghost use Rattle.script_lang.specs.Operations.{write_op};
ghost use Rattle.config_store.specs.Puts.{AreApartFrom, put_all};
ghost use Rattle.config_laws.specs.Writes.{AreDone, CanBeWritten, ValueFor, after_writes, puts_at};

use board_bus::laws::a_written_word_is_read;
use config_store::laws::values_under_masks_that_are_apart_stay_apart;
use masked_fields::laws::{a_field_gives_back_what_was_put, the_full_mask_is_the_word};

/// A value that is written to a register, where the write was done, is put into the field of the word that was there,
/// and the word at every other address is read as before, whether the write was done or not.
pub fn a_write_puts_its_field()
    ensures here { (cells : CellMap) (r : Reg) (value word : ℕ) → r.mask < 2 ^ 32 → FitsMask r.mask value →
        value < 2 ^ 32 → word < 2 ^ 32 → read_word cells r.address ≡ Ok word →
        (outcome cells (write_op r (value ∷ []))).fault ≡ None →
        read_word (outcome cells (write_op r (value ∷ []))).cells r.address ≡ Ok (put_field word r.mask value) }
    ensures elsewhere { (cells : CellMap) (r : Reg) (value other : ℕ) → (other < r.address) ⊎ (r.address < other) →
        read_word (outcome cells (write_op r (value ∷ []))).cells other ≡ read_word cells other }
{
    a_written_word_is_read();
    the_full_mask_is_the_word();
}

/// After values were written to registers one after another, and each write was done, the word at an address is the one
/// that was there, with the values of the writes to this address put under their masks, in order.
pub fn writes_put_their_fields()
    ensures { (cells : CellMap) (writes : List ValueFor) (address word : ℕ) → AllByRecursion CanBeWritten writes →
        AreDone cells writes → word < 2 ^ 32 → read_word cells address ≡ Ok word →
        read_word (after_writes cells writes) address ≡ Ok (put_all word (puts_at address writes)) }
{
    a_write_puts_its_field();
    a_field_gives_back_what_was_put();
}

/// So a value that was written is the field of its register where no later write to its address shares a bit with it, and
/// the field of a register that shares no bit with any write is the one that was there before.
pub fn written_values_stand_and_other_fields_stay()
    ensures own { (cells : CellMap) (before after : List ValueFor) (write : ValueFor) (word : ℕ) →
        let writes = before ++ write ∷ after in let r = write.register in
        AllByRecursion CanBeWritten writes → AreDone cells writes → AreApartFrom r.mask (puts_at r.address after) →
        word < 2 ^ 32 → read_word cells r.address ≡ Ok word →
        (now : ℕ) × (read_word (after_writes cells writes) r.address ≡ Ok now) × (field now r.mask ≡ write.value) }
    ensures others { (cells : CellMap) (writes : List ValueFor) (r : Reg) (word : ℕ) →
        AllByRecursion CanBeWritten writes → AreDone cells writes → AreApartFrom r.mask (puts_at r.address writes) →
        r.mask < 2 ^ 32 → word < 2 ^ 32 → read_word cells r.address ≡ Ok word → (now : ℕ)
        × (read_word (after_writes cells writes) r.address ≡ Ok now) × (field now r.mask ≡ field word r.mask) }
{
    writes_put_their_fields();
    values_under_masks_that_are_apart_stay_apart();
}
