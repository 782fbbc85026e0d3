//! Laws of the definitions. These functions do nothing when they run: their clauses are what is proved.

ghost use Rattle.std.specs.Prelude.{◌≡◌, ◌≤◌, ◌↔◌, ◌+◌, ℕ, Bool, true, false, List, [], ◌∷◌, ◌++◌, length, Some};
ghost use Rattle.std.specs.List.{AllByRecursion, list_any};
ghost use Rattle.ipb_base.specs.Numbers.{most_clients};
ghost use Rattle.address_table.specs.declared.kinds.Permission.{Permission};
ghost use Rattle.script_lang.specs.Operations.{allows};
ghost use Rattle.script_lang.specs.declared.refusal.TheConstants.{MAX_CLIENTS};
ghost use Rattle.script_steps.specs.declared.operation.Decision.TheVariants.{Denied};
ghost use Rattle.script_steps.specs.declared.operation.Step.{Step};
ghost use Rattle.script_steps.specs.declared.operation.Verb.{Verb};
ghost use Rattle.access_policy.specs.Decisions as decide;
ghost use Rattle.access_policy.specs.Names.{IsNameItem, NameItem, items_of, name_text};
ghost use Rattle.access_policy.specs.Patterns.{AreItems, items_match};
ghost use Rattle.access_policy.specs.Spelling.{IsPattern, pattern_of, pattern_text};
ghost use Rattle.access_policy.specs.declared.limits.TheConstants.{MAX_INDEX, MAX_RULES};
ghost use Rattle.access_policy.specs.declared.policy.Access.{Access};
ghost use Rattle.access_policy.specs.declared.policy.ItemPattern.{ItemPattern};
ghost use Rattle.access_policy.specs.declared.policy.Pattern.{Pattern};
ghost use Rattle.access_policy.specs.declared.policy.Rule.{Rule};

/// The limits of a policy; a session has no client of a greater number than its rules may name.
pub fn limits_of_a_policy()
    ensures rules { MAX_RULES ≡ 1024 }
    ensures index { MAX_INDEX ≡ 65535 }
    ensures client { MAX_CLIENTS ≡ most_clients }
{}

/// An operation needs of a policy what it needs of the permission of a register.
pub fn an_operation_needs_the_same_of_a_register()
    ensures { (permission : Permission) (verb : Verb)
        → allows permission verb ≡ decide.has_all permission (decide.needs_of verb) }
{}

/// The first rule that speaks of an access decides it, whatever follows; where no rule speaks of it, it is denied by
/// rule 0.
pub fn the_first_rule_that_speaks_decides()
    ensures first { (before : List Rule) (rule : Rule) (after : List Rule) (client : ℕ) (board : List ℕ)
        (items : List NameItem) (access : Access)
        → list_any (decide.speaks_of access client board items) before ≡ false
        → decide.speaks_of access client board items rule ≡ true
        → decide.access_decision (before ++ rule ∷ after) client board items access
        ≡ decide.said (length before + 1) rule.effect }
    ensures none { (policy : List Rule) (client : ℕ) (board : List ℕ) (items : List NameItem) (access : Access)
        → list_any (decide.speaks_of access client board items) policy ≡ false
        → decide.access_decision policy client board items access ≡ Denied 0 }
{}

/// What is denied names a rule by its number in the policy, at most as many as there are, or 0.
pub fn a_denial_names_a_rule_of_the_policy()
    ensures register { (policy : List Rule) (client : ℕ) (board : List ℕ) (name : List ℕ) (needs : Permission) (rule : ℕ)
        → decide.decision policy client board name needs ≡ Denied rule → rule ≤ length policy }
    ensures step { (policy : List Rule) (client : ℕ) (boards : List (List ℕ)) (step : Step) (rule : ℕ)
        → decide.step_decision policy client boards step ≡ Denied rule → rule ≤ length policy }
{}

/// A name is read as the ids and indexes that it is written from.
pub fn a_name_is_its_ids()
    ensures { (item : NameItem) (items : List NameItem) → AllByRecursion IsNameItem (item ∷ items)
        → items_of (name_text (item ∷ items)) ≡ item ∷ items }
{}

/// The items of a pattern match the front of a name item by item, and `**` what is left, if there is some.
pub fn items_match_the_front_of_a_name()
    ensures { (patterns : List ItemPattern) (rest : Bool) (items : List NameItem)
        → (items_match patterns rest items ≡ true) ↔ AreItems patterns rest items }
{}

/// A pattern that was read is written as it stood.
pub fn a_pattern_is_written_as_it_stood()
    ensures { (text : List ℕ) (pattern : Pattern) → pattern_of text ≡ Some pattern → pattern_text pattern ≡ text }
{}

/// What was read is a pattern that can be written, and each of these is read back from its text: so a text is that of
/// one pattern at most, and a pattern has one text.
pub fn a_pattern_is_read_back_from_its_text()
    ensures kept { (text : List ℕ) (pattern : Pattern) → pattern_of text ≡ Some pattern → IsPattern pattern }
    ensures back { (pattern : Pattern) → IsPattern pattern → pattern_of (pattern_text pattern) ≡ Some pattern }
{}
