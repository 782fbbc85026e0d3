//! Laws of the definitions, and worked examples of them. These functions do nothing when they run: their clauses are
//! what is proved.
ghost use Rattle.std.specs.Prelude.{◌≡◌, ℕ, pos, [], ◌∷◌, Some, None, codes, true, false};
ghost use Rattle.toml.specs.Data.{Data, string, integer, boolean};
ghost use Rattle.address_table.specs.declared.kinds.Mode.TheVariants.{Single, Block, Port, Hierarchical};
ghost use Rattle.address_table.specs.declared.kinds.Permission.TheVariants.{R, W, Rw};
ghost use Rattle.address_table.specs.declared.limits.TheConstants.{MAX_ID_BYTES, MAX_WORDS, MAX_INDEXES};
ghost use Rattle.address_table.specs.Examples.{node_with, array_of, key_with, says};
ghost use Rattle.address_table.specs.Kinds.{permission_named, mode_named};
ghost use Rattle.address_table.specs.Limits.{longest_id, most_words, most_indexes};
ghost use Rattle.ipb_base.specs.Digits.{number_in_text};
ghost use Rattle.address_table.specs.declared.refusal.TableWhy.TheVariants.{Shape, UnknownKey, MissingId, BadMode};
ghost use Rattle.address_table.specs.declared.refusal.TableWhy.TheVariants.{BadNumber, BadCount};
ghost use Rattle.address_table.specs.Rules.{is_id, node_fault};
ghost use Rattle.address_table.specs.Tables.{IsTable, SameTable, table_fault};
ghost use Rattle.address_table.specs.declared.nodes.Table.{Table};

/// A value that is written so that it is a table has no fault, so it is not refused.
#[tactic(auto, using(crate::proofs::Faults::no_fault))]
pub fn a_table_has_no_fault()
    ensures { (format : ℕ) (value : Data) (t : Table) → IsTable format value t → table_fault format value ≡ None }
{}

/// A value is written so that it is one table at most, whatever the formats.
pub fn a_value_is_one_table()
    ensures { (format other : ℕ) (value : Data) (t u : Table)
        → IsTable format value t
        → IsTable other value u
        → SameTable t u }
{}

/// Whatever is a table in format 1 is that table in format 2.
pub fn what_format_1_reads_format_2_reads()
    ensures { (value : Data) (t : Table) → IsTable 1 value t → IsTable 2 value t }
{}

/// Numbers in texts: both bases, both cases, the largest number, and texts that are no number.
#[tactic(auto, unfolding(ipb_base::specs::Digits::digit_value))]
pub fn numbers_in_texts()
    ensures decimal { number_in_text (codes "4294967295") ≡ Some 4294967295 }
    ensures hexadecimal { number_in_text (codes "0xfF") ≡ Some 255 }
    ensures leading_zeros { number_in_text (codes "0000000010") ≡ Some 10 }
    ensures past_32_bits { number_in_text (codes "4294967296") ≡ None }
    ensures too_many_digits { number_in_text (codes "00000000010") ≡ None }
    ensures too_many_hexadecimal_digits { number_in_text (codes "0x000000001") ≡ None }
    ensures no_digits { number_in_text (codes "0x") ≡ None }
    ensures empty { number_in_text [] ≡ None }
    ensures signed { number_in_text (codes "-1") ≡ None }
    ensures upper_case_prefix { number_in_text (codes "0XF") ≡ None }
{}

/// The limits of an id, of a block or a port, and of an array of nodes.
pub fn limits()
    ensures id { MAX_ID_BYTES ≡ longest_id }
    ensures words { MAX_WORDS ≡ most_words }
    ensures indexes { MAX_INDEXES ≡ most_indexes }
{}

/// The words for permissions, and no others.
pub fn words_for_permissions()
    ensures r { permission_named (codes "r") ≡ Some R }
    ensures read { permission_named (codes "read") ≡ Some R }
    ensures w { permission_named (codes "w") ≡ Some W }
    ensures write { permission_named (codes "write") ≡ Some W }
    ensures rw { permission_named (codes "rw") ≡ Some Rw }
    ensures wr { permission_named (codes "wr") ≡ Some Rw }
    ensures readwrite { permission_named (codes "readwrite") ≡ Some Rw }
    ensures writeread { permission_named (codes "writeread") ≡ Some Rw }
    ensures upper_case { permission_named (codes "R") ≡ None }
    ensures empty { permission_named [] ≡ None }
{}

/// The words for modes, and no others.
pub fn words_for_modes()
    ensures single { mode_named (codes "single") ≡ Some Single }
    ensures block { mode_named (codes "block") ≡ Some Block }
    ensures incremental { mode_named (codes "incremental") ≡ Some Block }
    ensures inc { mode_named (codes "inc") ≡ Some Block }
    ensures port { mode_named (codes "port") ≡ Some Port }
    ensures non_incremental { mode_named (codes "non-incremental") ≡ Some Port }
    ensures non_inc { mode_named (codes "non-inc") ≡ Some Port }
    ensures hierarchical { mode_named (codes "hierarchical") ≡ Some Hierarchical }
    ensures unknown { mode_named (codes "fifo") ≡ None }
    ensures empty { mode_named [] ≡ None }
{}

/// An id has letters, digits, `_` and `-`, and no dot.
pub fn ids()
    ensures letters { is_id (codes "Ch-0_b") ≡ true }
    ensures dotted { is_id (codes "a.b") ≡ false }
    ensures empty { is_id [] ≡ false }
{}

/// Of the rules that one node breaks the first in their order is told.
#[tactic(auto, unfolding(crate::specs::Rules::broken_rule, crate::specs::Rules::has_shape, crate::specs::Rules::has_texts, crate::specs::Rules::has_count, ipb_base::specs::Digits::digit_value))]
pub fn first_rule_is_told()
    ensures kept { node_fault 1 (node_with (says (codes "id") (codes "x") ∷ [])) ≡ None }
    ensures no_table { node_fault 1 (string (codes "x")) ≡ Some Shape }
    ensures shape_first { let id = key_with (codes "id") (boolean true) in
        let unknown = key_with (codes "xyz") (boolean true) in
        node_fault 1 (node_with (id ∷ unknown ∷ [])) ≡ Some Shape }
    ensures unknown_key_before_missing_id { let unknown = key_with (codes "xyz") (boolean true) in
        node_fault 1 (node_with (unknown ∷ [])) ≡ Some UnknownKey }
    ensures missing_id_before_bad_mode { let mode = says (codes "mode") (codes "fifo") in
        node_fault 1 (node_with (mode ∷ [])) ≡ Some MissingId }
    ensures partial_mask_on_a_port { let id = says (codes "id") (codes "x") in
        let mask = says (codes "mask") (codes "0xff") in
        node_fault 1 (node_with (id ∷ mask ∷ says (codes "mode") (codes "port") ∷ [])) ≡ Some BadMode }
    ensures module_beside_nodes { let id = says (codes "id") (codes "x") in
        let beside = says (codes "module") (codes "m") in
        node_fault 1 (node_with (id ∷ beside ∷ key_with (codes "nodes") (array_of []) ∷ [])) ≡ Some Shape }
{}

/// A faulty child is told before a faulty node that follows its parent, by the positions that lead to it.
#[tactic(auto, unfolding(crate::specs::Rules::broken_rule, crate::specs::Rules::has_shape, crate::specs::Rules::has_texts, crate::specs::Rules::has_count, ipb_base::specs::Digits::digit_value))]
pub fn first_node_is_told()
    ensures child_first { let child = node_with (says (codes "id") (codes "y") ∷ []) in
        let nodes = key_with (codes "nodes") (array_of (child ∷ boolean true ∷ [])) in
        let parent = node_with (says (codes "id") (codes "x") ∷ nodes ∷ []) in
        table_fault 1 (array_of (parent ∷ boolean true ∷ [])) ≡ Some (0 ∷ 1 ∷ [], Shape) }
    ensures parent_first { let parent = node_with (key_with (codes "nodes") (array_of (boolean true ∷ [])) ∷ []) in
        table_fault 1 (array_of (parent ∷ [])) ≡ Some (0 ∷ [], MissingId) }
    ensures no_array { table_fault 1 (boolean true) ≡ Some ([], Shape) }
    ensures empty { table_fault 1 (array_of []) ≡ None }
{}

/// The keys of an array of nodes: both belong to format 2, `count` is from 1 to 65,536, `stride` at least 1 and beside
/// `count` alone, and a stride that is no number is told as that.
#[tactic(auto, unfolding(crate::specs::Rules::broken_rule, crate::specs::Rules::has_shape, crate::specs::Rules::has_texts, crate::specs::Rules::has_count, ipb_base::specs::Digits::digit_value))]
pub fn rules_of_counts()
    ensures kept { let count = key_with (codes "count") (integer (pos 2)) in
        let stride = says (codes "stride") (codes "0x10") in
        node_fault 2 (node_with (says (codes "id") (codes "x") ∷ count ∷ stride ∷ [])) ≡ None }
    ensures most { let count = key_with (codes "count") (integer (pos 65536)) in
        node_fault 2 (node_with (says (codes "id") (codes "x") ∷ count ∷ [])) ≡ None }
    ensures in_format_1 { let count = key_with (codes "count") (integer (pos 2)) in
        node_fault 1 (node_with (says (codes "id") (codes "x") ∷ count ∷ [])) ≡ Some UnknownKey }
    ensures stride_in_format_1 { let stride = key_with (codes "stride") (integer (pos 2)) in
        node_fault 1 (node_with (says (codes "id") (codes "x") ∷ stride ∷ [])) ≡ Some UnknownKey }
    ensures zero { let count = key_with (codes "count") (integer (pos 0)) in
        node_fault 2 (node_with (says (codes "id") (codes "x") ∷ count ∷ [])) ≡ Some BadCount }
    ensures too_many { let count = key_with (codes "count") (integer (pos 65537)) in
        node_fault 2 (node_with (says (codes "id") (codes "x") ∷ count ∷ [])) ≡ Some BadCount }
    ensures no_stride { let count = key_with (codes "count") (integer (pos 2)) in
        let stride = key_with (codes "stride") (integer (pos 0)) in
        node_fault 2 (node_with (says (codes "id") (codes "x") ∷ count ∷ stride ∷ [])) ≡ Some BadCount }
    ensures stride_alone { let stride = key_with (codes "stride") (integer (pos 1)) in
        node_fault 2 (node_with (says (codes "id") (codes "x") ∷ stride ∷ [])) ≡ Some BadCount }
    ensures count_is_no_number { let count = says (codes "count") (codes "two") in
        node_fault 2 (node_with (says (codes "id") (codes "x") ∷ count ∷ [])) ≡ Some BadNumber }
    ensures stride_is_no_number { let stride = says (codes "stride") (codes "x") in
        node_fault 2 (node_with (says (codes "id") (codes "x") ∷ stride ∷ [])) ≡ Some BadNumber }
{}
