//! How the record that clients leave comes about, entry by entry. These functions do nothing when they run: their
//! clauses are what is proved.

ghost use Rattle.std.specs.Prelude.{◌≡◌, ℕ, ◌+◌, ◌≤◌, List, [], ◌∷◌, ◌++◌, length, None};
ghost use Rattle.ipb_base.specs.Lists.{IsPrefix};
ghost use Rattle.lane_record.specs.declared.item.Item.{Item};
ghost use Rattle.lane_record.specs.Items.{plan_in};
ghost use Rattle.lane_record.specs.NextEntry.{plan_of};
ghost use Rattle.board_history.specs.Records.{IsPartlyPlanned};
ghost use Rattle.lane_record.specs.Dispatches.{all_plans_from, plans_from};

/// The Plan of one more body of a client stands behind those of the bodies before it.
pub fn one_more_entry_stands_behind()
    ensures plan { (client seq : ℕ) (bodies : List (List ℕ)) (body : List ℕ) →
        plans_from client seq (bodies ++ body ∷ [])
        ≡ plans_from client seq bodies ++ plan_of client (seq + length bodies) body ∷ [] }
{}

/// A record is partly planned while Plans are entered client by client, and stays so while other entries of these
/// clients come behind them.
pub fn a_record_is_partly_planned_on_its_way()
    ensures plans { (bodies : List (List (List ℕ))) → IsPartlyPlanned bodies (all_plans_from 1 bodies) }
    ensures front { (bodies : List (List (List ℕ))) (front items : List Item) → IsPrefix front items →
        IsPartlyPlanned bodies items → IsPartlyPlanned bodies front }
    ensures more { (bodies : List (List (List ℕ))) (items : List Item) (x : Item) → plan_in x.what ≡ None →
        x.client ≤ length bodies → IsPartlyPlanned bodies items → IsPartlyPlanned bodies (items ++ x ∷ []) }
{}
