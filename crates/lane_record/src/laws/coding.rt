//! What is spelled can be read back.

ghost use Rattle.std.specs.Prelude.{◌≡◌, ◌↔◌, Some, List};
ghost use Rattle.ipb_base.specs.Lists.{IsPrefix};
ghost use Rattle.turn_pass.specs.Record.{Begins};
ghost use Rattle.lane_record.specs.declared.item.Item.{Item};
ghost use Rattle.lane_record.specs.declared.item.TheConstants as constants;
ghost use Rattle.lane_record.specs.Coding.{ASK, Head, PLAN, SEAL, TOOK, head_numbers, item_from, record_of, as_recorded};

/// The numbers of an entry and its content spell that entry and no other.
pub fn an_entry_is_spelled_by_numbers()
    ensures read { (item : Item) → item_from (as_recorded item) ≡ Some item }
    ensures one { (item other : Item) → as_recorded item ≡ as_recorded other → item ≡ other }
    ensures kinds { (constants.PLAN ≡ PLAN) × (constants.SEAL ≡ SEAL) × (constants.ASK ≡ ASK)
        × (constants.TOOK ≡ TOOK) }
{}

/// The numbers of a head spell that head and no other.
pub fn a_head_is_spelled_by_numbers()
    ensures { (head other : Head) → head_numbers head ≡ head_numbers other → head ≡ other }
{}

/// Of two records one begins the other if they have the same head and its entries, contents included, are the first
/// ones of the other. Nothing else begins a record.
pub fn one_record_begins_another()
    ensures begins { (old new : Head) (before after : List Item) → new ≡ old → IsPrefix before after
        → Begins (record_of old before) (record_of new after) }
    ensures only { (old new : Head) (before after : List Item) → Begins (record_of old before) (record_of new after)
        → (new ≡ old) × IsPrefix before after }
{}
