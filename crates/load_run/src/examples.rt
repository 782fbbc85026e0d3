//! Generated sessions and their summaries worked by hand. These functions do nothing when they run: their clauses are
//! what is proved, by computing the definitions.

ghost use Rattle.std.specs.Prelude.{◌≡◌, ◌∷◌, [], codes};
ghost use Rattle.script_steps.specs.declared.operation.Step.TheVariants.{Dispatch};
ghost use Rattle.load_run.specs.Examples.{adds_one, summary_in_turn};
ghost use Rattle.load_run.specs.Generated.{steps};
ghost use Rattle.load_run.specs.Summary.{summary_text};

/// The scripts of one, two and five operations: the fifth belongs to the first client again, and stands in its third
/// line.
pub fn scripts_of_few_operations()
    ensures one { steps 1 ≡ (adds_one 1 ∷ Dispatch ∷ []) ∷ [] ∷ [] ∷ [] ∷ [] }
    ensures two { steps 2 ≡ (adds_one 1 ∷ Dispatch ∷ []) ∷ (adds_one 1 ∷ Dispatch ∷ []) ∷ [] ∷ [] ∷ [] }
    ensures five { steps 5 ≡ (adds_one 1 ∷ Dispatch ∷ adds_one 3 ∷ Dispatch ∷ []) ∷ (adds_one 1 ∷ Dispatch ∷ [])
        ∷ (adds_one 1 ∷ Dispatch ∷ []) ∷ (adds_one 1 ∷ Dispatch ∷ []) ∷ [] }
{}

/// Their summaries, where the clients run one after another and nothing is lost.
pub fn summaries_of_few_operations()
    ensures one { summary_text (summary_in_turn 1) ≡ codes "load 1\ndone 1\nwas total 0\nplaces 1\n" }
    ensures five { summary_text (summary_in_turn 5) ≡ codes "load 5\ndone 5\nwas total 10\nplaces 5\n" }
{}
