//! What the rule of a turn means, for any passes of any threads at any moment. These functions do nothing when they
//! run: their clauses are what is proved.

ghost use Rattle.std.specs.Prelude.{◌≡◌, ◌≢◌, ◌↔◌, ℕ, Option, Some, [], ◌∷◌, slice_index};
ghost use mathlib.Core.Option.{some};
ghost use Rattle.atomic_table.specs.Table.{State};
ghost use Rattle.turn_pass.specs.Record.{Record, Begins, made_by, past};
ghost use Rattle.turn_pass.specs.Rule.{IsPass, Turning, View};
ghost use Rattle.turn_pass.specs.Rule.Stage.{Idle};

use crate::chronicle::Chronicle;

/// Two passes that hold the value at one moment are one pass.
pub fn one_pass_holds_at_most<V: Chronicle>()
    ensures { (start : Record) (s : State (Option V) View) → Turning V.entries start s
        → (n m : ℕ) (v w : View) → IsPass s.views n v → IsPass s.views m w → v.stage ≢ Idle → w.stage ≢ Idle
        → n ≡ m }
{}

/// The value is in the slot exactly where word 0 is 0, so an exchange is in vain only while another pass holds.
pub fn an_exchange_finds_the_value_or_a_holder<V: Chronicle>()
    ensures found { (start : Record) (s : State (Option V) View) → Turning V.entries start s
        → slice_index s.words 0 ≡ 0 → (value : V) × (s.homes ≡ some (Some value) ∷ []) }
    ensures vain { (start : Record) (s : State (Option V) View) → Turning V.entries start s
        → slice_index s.words 0 ≢ 0 → (n : ℕ) × (v : View) × IsPass s.views n v × (v.stage ≢ Idle) }
{}

/// There is one record that begins with what each pass has seen, and whose entries past the opening with the number of
/// a pass are those that this pass calls its own.
pub fn all_passes_know_one_record<V: Chronicle>()
    ensures { (start : Record) (s : State (Option V) View) → Turning V.entries start s
        → (history : Record) × ((n : ℕ) (v : View) → IsPass s.views n v
        → Begins v.knows.seen history × (v.knows.mine ≡ made_by n (past start history))) }
{}
