//! Laws of what `check` owes. These functions do nothing when they run: their clauses are what is proved.

ghost use Rattle.std.specs.Prelude.{◌≡◌, ℕ, List};
ghost use Rattle.command_terms.specs.Outside.{GivenBack};
ghost use Rattle.command_terms.specs.Terms.{AreTerms, Owes};
ghost use Rattle.ipbus_program.specs.CheckTerms.{check_terms};

use session_input::laws::bytes_have_one_answer_to_check;

/// What `check` owes are the terms of a command.
pub fn the_terms_of_check()
    ensures { (root : List ℕ) → AreTerms (check_terms root) }
{
    bytes_have_one_answer_to_check();
}

/// It owes one status and one text to bytes.
pub fn one_listing_is_owed()
    ensures { (bytes root : List ℕ) (given others : GivenBack) (s t : ℕ) (a b : List ℕ) →
        Owes (check_terms root) bytes given s a → Owes (check_terms root) bytes others t b → (s ≡ t) × (a ≡ b) }
{
    the_terms_of_check();
    bytes_have_one_answer_to_check();
}
