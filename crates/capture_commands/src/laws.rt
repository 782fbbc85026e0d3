//! Laws of the definitions. These functions do nothing when they run: their clauses are what is proved.

ghost use Rattle.std.specs.Prelude.{◌≡◌, ◌≤◌, ℕ, List, length};
ghost use Rattle.command_terms.specs.Outside.{GivenBack};
ghost use Rattle.command_terms.specs.Terms.{AreTerms, Owes};
ghost use Rattle.capture_commands.specs.declared.refusal.TheConstants.{MAX_CAPTURE};
ghost use Rattle.capture_commands.specs.Numbers.{capture_bytes};
ghost use Rattle.capture_commands.specs.Terms.{describe_terms, undescribe_terms};
ghost use Rattle.capture_commands.specs.Texts.{IsDescribed, IsUndescribed};

use capture_reader::laws::{
    a_capture_has_one_description, a_text_has_one_first_fault, a_text_is_of_one_capture,
};

/// The number that a user sees is that of the definitions.
pub fn the_most_bytes_of_a_capture()
    ensures { MAX_CAPTURE ≡ capture_bytes }
{}

/// The terms of `describe` are those of a command.
pub fn the_terms_of_describe()
    ensures { AreTerms describe_terms }
{
    a_text_has_one_first_fault();
}

/// The terms of `undescribe` are those of a command.
pub fn the_terms_of_undescribe()
    ensures { AreTerms undescribe_terms }
{}

/// An input has one answer: one status and one text.
pub fn an_input_has_one_answer()
    ensures described { (bytes : List ℕ) (given others : GivenBack) (s t : ℕ) (a b : List ℕ)
        → Owes describe_terms bytes given s a → Owes describe_terms bytes others t b → (s ≡ t) × (a ≡ b) }
    ensures undescribed { (bytes : List ℕ) (given others : GivenBack) (s t : ℕ) (a b : List ℕ)
        → Owes undescribe_terms bytes given s a → Owes undescribe_terms bytes others t b → (s ≡ t) × (a ≡ b) }
{
    a_text_is_of_one_capture();
    a_text_has_one_first_fault();
    a_capture_has_one_description();
}

/// Each command undoes the other, where what that made is not too long for it.
pub fn each_command_undoes_the_other()
    ensures undescribed { (bytes text : List ℕ) (status : ℕ) → IsDescribed bytes status text
        → length text ≤ capture_bytes → IsUndescribed text status bytes }
    ensures described { (bytes text : List ℕ) (status : ℕ) → IsUndescribed bytes status text
        → length text ≤ capture_bytes → IsDescribed text status bytes }
{}
