//! Laws of the definitions, and worked examples of them. These functions do nothing when they run: their clauses are
//! what is proved.
ghost use Rattle.std.specs.Prelude.{◌≡◌, ◌↔◌, ◌⊎◌, ◌+◌, List, [], ◌∷◌, ◌++◌, Some, None, codes, true, false};
ghost use Rattle.address_table.specs.declared.nodes.Node.{Node, out-Node};
ghost use Rattle.address_table.specs.declared.kinds.Mode.TheVariants.{Single, Block, Port, Hierarchical};
ghost use Rattle.node_tree.specs.declared.limits.TheConstants.{MAX_NODES, MAX_IDS};
ghost use Rattle.node_tree.specs.declared.refusal.CompileWhy.{CompileWhy as Why};
ghost use Rattle.node_tree.specs.declared.refusal.CompileWhy.TheVariants.{Duplicate};
ghost use Rattle.node_tree.specs.declared.refusal.CompileRefusal.{CompileRefusal};
ghost use Rattle.node_tree.specs.declared.refusal.CompileRefusal.TheVariants.{At};
ghost use Rattle.node_tree.specs.declared.register.Register.{Register as Reg};
ghost use Rattle.node_tree.specs.Addresses.{last_address};
ghost use Rattle.node_tree.specs.Examples.{full_register};
ghost use Rattle.node_tree.specs.Limits.{most_nodes, most_ids};
ghost use Rattle.node_tree.specs.Maps.{Name, TableMap, RegisterMap};
ghost use Rattle.node_tree.specs.Names.{RootNames, IsIndexOf, name_below, name_at, address_at, last_index};
ghost use Rattle.node_tree.specs.Overlaps.{is_dotted_prefix};
ghost use Rattle.node_tree.specs.Refusals.{KeepsRules, IsRefusal};
ghost use Rattle.node_tree.specs.Repeats.{AreSiblings, HasId, IsRepeated};
ghost use Rattle.node_tree.specs.Same.{SameTables};
ghost use Rattle.node_tree.specs.Walk.{first_fault, root_walk, Lists, HasLevel};

/// Tables that keep the rules are not refused.
pub fn tables_that_keep_the_rules_are_not_refused()
    ensures { (tables : TableMap) (root name path : Name) (why : Why)
        → KeepsRules tables root
        → IsRefusal tables root (At name path why)
        → ⊥ }
{}

/// Tables that are refused are refused in one way.
pub fn a_refusal_is_the_only_one()
    ensures { (tables : TableMap) (root name other path place : Name) (why rule : Why)
        → IsRefusal tables root (At name path why)
        → IsRefusal tables root (At other place rule)
        → (name ≡ other) × (path ≡ place) × (why ≡ rule) }
{}

/// Tables and a root have one index.
pub fn an_index_is_determined_by_tables_and_root()
    ensures { (tables : TableMap) (root : Name) (index other : RegisterMap)
        → IsIndexOf tables root index
        → IsIndexOf tables root other
        → index ≡ other }
{}

/// Tables that have the same nodes are compiled into the same index, and refused in the same way.
pub fn tables_that_are_the_same_compile_alike()
    ensures index { (tables others : TableMap) (root : Name) (index : RegisterMap)
        → SameTables tables others
        → IsIndexOf tables root index ↔ IsIndexOf others root index }
    ensures kept { (tables others : TableMap) (root : Name)
        → SameTables tables others
        → KeepsRules tables root ↔ KeepsRules others root }
    ensures refused { (tables others : TableMap) (root : Name) (refusal : CompileRefusal)
        → SameTables tables others
        → IsRefusal tables root refusal ↔ IsRefusal others root refusal }
{}

/// The walk lists what the root names, as long as no name has more than `MAX_IDS` ids.
pub fn a_walk_lists_what_the_root_names()
    ensures only { (tables : TableMap) (root name : Name) (r : Reg)
        → Lists (root_walk tables root) name r
        → RootNames tables root name r }
    ensures all { (tables : TableMap) (root name : Name) (r : Reg)
        → RootNames tables root name r
        → Lists (root_walk tables root) name r ⊎ HasLevel (root_walk tables root) (most_ids + 1) }
{}

/// Where the first faulty node is told as a duplicate, an earlier sibling has its id.
pub fn a_duplicate_has_an_earlier_sibling()
    ensures { (tables : TableMap) (root path : Name)
        → first_fault 0 (root_walk tables root) ≡ Some (path, Duplicate)
        → IsRepeated tables root path }
{}

/// Where the rules are kept no two siblings have one id, however deep they stand.
pub fn siblings_have_ids_of_their_own()
    ensures { (tables : TableMap) (root above : Name) (before : List Node) (n : Node) (after : List Node)
        → KeepsRules tables root
        → AreSiblings tables root above (before ++ n ∷ after)
        → HasId (out-Node n).id before
        → ⊥ }
{}

/// The limits of an index.
pub fn limits()
    ensures nodes { MAX_NODES ≡ most_nodes }
    ensures ids { MAX_IDS ≡ most_ids }
{}

/// A block takes one address for each of its words, and every other register one.
pub fn last_addresses()
    ensures single { last_address (full_register 7 Single 1) ≡ 7 }
    ensures block { last_address (full_register 0x100 Block 600) ≡ 0x357 }
    ensures block_at_the_end { last_address (full_register 0xfffffff0 Block 16) ≡ 0xffffffff }
    ensures port { last_address (full_register 7 Port 600) ≡ 7 }
    ensures hierarchical { last_address (full_register 7 Hierarchical 1) ≡ 7 }
{}

/// A name has a dot before each id but the first.
pub fn ids_are_joined_by_dots()
    ensures top { name_below [] (codes "a") ≡ codes "a" }
    ensures below { name_below (codes "a.b") (codes "c") ≡ codes "a.b.c" }
{}

/// A node with a count has its index in brackets behind its id, without leading zeros, and as often its stride added to
/// its address; one without a count has neither.
pub fn indexes_stand_behind_ids()
    ensures first { (n : Node) → (out-Node n).id ≡ codes "ch" → (out-Node n).count ≡ Some 12
        → name_at [] n 0 ≡ codes "ch[0]" }
    ensures two_digits { (n : Node) → (out-Node n).id ≡ codes "ch" → (out-Node n).count ≡ Some 12
        → name_at (codes "a[3]") n 11 ≡ codes "a[3].ch[11]" }
    ensures no_count { (n : Node) → (out-Node n).id ≡ codes "ch" → (out-Node n).count ≡ None
        → name_at (codes "a[3]") n 0 ≡ codes "a[3].ch" }
    ensures last { (n : Node) → (out-Node n).count ≡ Some 12 → last_index n ≡ 11 }
    ensures address { (n : Node) → (out-Node n).address ≡ 0x100 → (out-Node n).stride ≡ 0x10
        → address_at 0x1000 n 11 ≡ 0x11b0 }
{}

/// A name is above those that begin with it and a dot, and not above those that only begin with it.
pub fn a_name_is_above_its_children()
    ensures child { is_dotted_prefix (codes "a") (codes "a.b") ≡ true }
    ensures longer_id { is_dotted_prefix (codes "a") (codes "ab") ≡ false }
    ensures itself { is_dotted_prefix (codes "a") (codes "a") ≡ false }
{}
