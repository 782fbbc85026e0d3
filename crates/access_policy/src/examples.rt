//! Worked examples of the definitions. These functions do nothing when they run: their clauses are what is proved.
#![tactic(auto, unfolding(crate::specs::Spelling::pattern_of, crate::specs::Spelling::indexed_in, crate::specs::Names::in_brackets, crate::specs::Names::item_with_index, ipb_base::specs::Digits::digit_value))]

ghost use Rattle.std.specs.Prelude.{◌≡◌, true, false, [], ◌∷◌, codes, Some, None};
ghost use Rattle.address_table.specs.declared.kinds.Permission.TheVariants.{R, W, Rw};
ghost use Rattle.script_steps.specs.declared.operation.Decision.TheVariants.{Allowed, Denied};
ghost use Rattle.access_policy.specs.Decisions.{decision};
ghost use Rattle.access_policy.specs.Examples.{one_kept, one_shown, rule, rule_for, text_matches};
ghost use Rattle.access_policy.specs.Spelling.{pattern_of, rule_text};
ghost use Rattle.access_policy.specs.declared.policy.BoardPattern.TheVariants.{Named};
ghost use Rattle.access_policy.specs.declared.policy.Effect.TheVariants.{Allow, Deny};
ghost use Rattle.access_policy.specs.declared.policy.ItemPattern.TheVariants.{Any, Id, Indexed, AnyIndex};

/// One register may not be written, and all else is allowed: the register may be read.
pub fn a_register_that_may_not_be_written()
    ensures written { decision one_kept 1 (codes "b0") (codes "a") W ≡ Denied 1 }
    ensures read { decision one_kept 1 (codes "b0") (codes "a") R ≡ Allowed }
    ensures other { decision one_kept 1 (codes "b0") (codes "sys.id") R ≡ Allowed }
{}

/// One branch may be read; of all else no rule speaks.
pub fn a_branch_that_may_be_read()
    ensures other { decision one_shown 1 (codes "b0") (codes "a") W ≡ Denied 0 }
    ensures read { decision one_shown 1 (codes "b0") (codes "sys.id") R ≡ Allowed }
    ensures written { decision one_shown 1 (codes "b0") (codes "sys.id") W ≡ Denied 0 }
{}

/// A policy without rules denies everything.
pub fn no_rules_deny_everything()
    ensures { decision [] 1 (codes "b0") (codes "a") R ≡ Denied 0 }
{}

/// A rule for both accesses decides reading and writing, and a read-modify-write needs both: the rule for reading
/// denies before that for writing.
pub fn a_read_modify_write_needs_both()
    ensures one_rule { decision (rule Deny Rw (codes "b0:a") ∷ []) 1 (codes "b0") (codes "a") R ≡ Denied 1 }
    ensures writing { decision one_kept 1 (codes "b0") (codes "a") Rw ≡ Denied 1 }
    ensures reading_first { decision (rule Deny W (codes "*:*") ∷ rule Deny R (codes "*:*") ∷ [])
        1 (codes "b0") (codes "a") Rw ≡ Denied 2 }
    ensures both { decision (rule Allow W (codes "*:*") ∷ rule Allow R (codes "*:*") ∷ [])
        1 (codes "b0") (codes "a") Rw ≡ Allowed }
    ensures half { decision (rule Allow R (codes "*:*") ∷ []) 1 (codes "b0") (codes "a") Rw ≡ Denied 0 }
{}

/// A rule for one client says nothing of the others.
pub fn a_rule_for_one_client()
    ensures its_own { decision (rule_for (Some 2) Allow Rw (codes "*:**") ∷ [])
        2 (codes "b0") (codes "a") W ≡ Allowed }
    ensures another { decision (rule_for (Some 2) Allow Rw (codes "*:**") ∷ [])
        1 (codes "b0") (codes "a") W ≡ Denied 0 }
{}

/// The earlier of two rules decides.
pub fn the_order_of_rules_decides()
    ensures denied { decision (rule Deny R (codes "b0:*") ∷ rule Allow R (codes "b0:a") ∷ [])
        1 (codes "b0") (codes "a") R ≡ Denied 1 }
    ensures allowed { decision (rule Allow R (codes "b0:a") ∷ rule Deny R (codes "b0:*") ∷ [])
        1 (codes "b0") (codes "a") R ≡ Allowed }
{}

/// A rule for a name says nothing of another name, whichever address that has.
pub fn names_decide_and_not_addresses()
    ensures { decision (rule Deny Rw (codes "b0:a") ∷ rule Allow Rw (codes "*:**") ∷ [])
        1 (codes "b0") (codes "a_again") W ≡ Allowed }
{}

/// Each board and each register.
pub fn everything_is_matched()
    ensures short { text_matches (codes "*:**") (codes "b0") (codes "a") ≡ true }
    ensures long { text_matches (codes "*:**") (codes "b1") (codes "sys.ch[3].gain") ≡ true }
{}

/// The registers of one board whose names are one id.
pub fn one_id_is_matched()
    ensures id { text_matches (codes "b0:*") (codes "b0") (codes "a") ≡ true }
    ensures index { text_matches (codes "b0:*") (codes "b0") (codes "ch[3]") ≡ true }
    ensures two_ids { text_matches (codes "b0:*") (codes "b0") (codes "sys.id") ≡ false }
    ensures board { text_matches (codes "b0:*") (codes "b1") (codes "a") ≡ false }
{}

/// The children of a branch, or all that is below it, but never the branch itself.
pub fn what_is_below_a_branch_is_matched()
    ensures child { text_matches (codes "b0:sys.*") (codes "b0") (codes "sys.id") ≡ true }
    ensures grandchild { text_matches (codes "b0:sys.*") (codes "b0") (codes "sys.clk.id") ≡ false }
    ensures itself { text_matches (codes "b0:sys.*") (codes "b0") (codes "sys") ≡ false }
    ensures below { text_matches (codes "b0:sys.**") (codes "b0") (codes "sys.clk.id") ≡ true }
    ensures not_itself { text_matches (codes "b0:sys.**") (codes "b0") (codes "sys") ≡ false }
{}

/// Indexes are compared as numbers, and an id without one has none.
pub fn indexes_are_matched()
    ensures this { text_matches (codes "b0:ch[1]") (codes "b0") (codes "ch[1]") ≡ true }
    ensures longer { text_matches (codes "b0:ch[1]") (codes "b0") (codes "ch[12]") ≡ false }
    ensures without { text_matches (codes "b0:ch[1]") (codes "b0") (codes "ch") ≡ false }
    ensures any { text_matches (codes "b0:ch[*]") (codes "b0") (codes "ch[12]") ≡ true }
    ensures any_without { text_matches (codes "b0:ch[*]") (codes "b0") (codes "ch") ≡ false }
    ensures plain { text_matches (codes "b0:ch") (codes "b0") (codes "ch") ≡ true }
    ensures plain_indexed { text_matches (codes "b0:ch") (codes "b0") (codes "ch[1]") ≡ false }
    ensures middle { text_matches (codes "b0:ch[*].gain") (codes "b0") (codes "ch[7].gain") ≡ true }
    ensures behind { text_matches (codes "*:ch[0].**") (codes "b1") (codes "ch[0].adc.gain") ≡ true }
    ensures last { text_matches (codes "*:*.id") (codes "b1") (codes "sys.id") ≡ true }
{}

/// Patterns and what they are read as.
pub fn patterns_are_read()
    ensures items { pattern_of (codes "b0:ch[3].*.x[*].id") ≡ Some (record {
      board = Named (codes "b0");
      items = Indexed (codes "ch") 3 ∷ Any ∷ AnyIndex (codes "x") ∷ Id (codes "id") ∷ [];
      rest = false;
    }) }
    ensures rest { pattern_of (codes "b0:**") ≡ Some (record { board = Named (codes "b0"); items = []; rest = true }) }
{}

/// Texts that are no patterns.
pub fn texts_that_are_no_patterns()
    ensures colon { pattern_of (codes "b0") ≡ None }
    ensures items { pattern_of (codes "b0:") ≡ None }
    ensures board { pattern_of (codes "b*:a") ≡ None }
    ensures empty { pattern_of (codes "b0:a..b") ≡ None }
    ensures middle { pattern_of (codes "b0:**.a") ≡ None }
    ensures part { pattern_of (codes "b0:a*") ≡ None }
    ensures zero { pattern_of (codes "b0:a[01]") ≡ None }
    ensures large { pattern_of (codes "b0:a[65536]") ≡ None }
    ensures unclosed { pattern_of (codes "b0:a[1") ≡ None }
    ensures behind { pattern_of (codes "b0:a[1]b") ≡ None }
    ensures any { pattern_of (codes "b0:*[1]") ≡ None }
{}

/// Rules in one line.
pub fn rules_are_written()
    ensures denied { rule_text (rule Deny W (codes "b0:a")) ≡ codes "deny w b0:a" }
    ensures allowed { rule_text (rule_for (Some 2) Allow Rw (codes "*:**")) ≡ codes "allow rw *:** client 2" }
    ensures index { rule_text (rule Deny R (codes "b0:ch[3].x[*]")) ≡ codes "deny r b0:ch[3].x[*]" }
{}
