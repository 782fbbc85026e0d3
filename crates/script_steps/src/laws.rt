//! Laws of the definitions. These functions do nothing when they run: their clauses are what is proved.

ghost use Rattle.std.specs.Prelude.{◌≡◌, List, length, map};
ghost use Rattle.std.specs.List.{AllByRecursion};
ghost use Rattle.ipb_base.specs.Numbers.{most_block_words, most_operations};
ghost use Rattle.script_steps.specs.Executable.{AreExecutable};
ghost use Rattle.script_steps.specs.Judging.{judged_operation};
ghost use Rattle.script_steps.specs.Packing.{AreWithinLimits, CanBePacked, HaveFewPieces};
ghost use Rattle.script_steps.specs.RuledScripts.{AreRuled};
ghost use Rattle.script_steps.specs.Rulings.{asked_operations, steps_under_policy};
ghost use Rattle.script_steps.specs.declared.limits.TheConstants.{MAX_BLOCK_WORDS, MAX_OPERATIONS};
ghost use Rattle.script_steps.specs.declared.operation.Decision.{Decision};
ghost use Rattle.script_steps.specs.declared.operation.Step.{Step};

/// How much the scripts of a session may ask.
pub fn limits_of_scripts()
    ensures operations { MAX_OPERATIONS ≡ most_operations }
    ensures block_words { MAX_BLOCK_WORDS ≡ most_block_words }
{}

/// Under a policy steps ask for no more than before: where they could be executed and packed, in few pieces and within
/// the limits of a session, they still can; and there are as many of them.
pub fn what_is_denied_asks_for_less()
    ensures executable { (steps : List Step) (decisions : List Decision)
        → AreExecutable steps → AreExecutable (steps_under_policy steps decisions) }
    ensures packed { (steps : List Step) (decisions : List Decision)
        → AllByRecursion CanBePacked steps → AllByRecursion CanBePacked (steps_under_policy steps decisions) }
    ensures few { (steps : List Step) (decisions : List Decision)
        → HaveFewPieces steps → HaveFewPieces (steps_under_policy steps decisions) }
    ensures limits { (scripts now : List (List Step)) → AreRuled scripts now
        → AreWithinLimits scripts → AreWithinLimits now }
    ensures count { (steps : List Step) (decisions : List Decision) → length (steps_under_policy steps decisions) ≡ length steps }
{}

/// Under a policy that judges steps one by one a client asks for the same operations, in the same order. Each is denied
/// by the rule that the policy names for its step, unless a rule denied it before.
pub fn what_is_denied_is_still_asked_for()
    ensures { (judge : Step → Decision) (steps : List Step)
        → asked_operations (steps_under_policy steps (map judge steps)) ≡ map (judged_operation judge) (asked_operations steps) }
{}
