//! Laws of what `serve` owes. This function does nothing when it runs: its clause is what is proved.

ghost use Rattle.std.specs.Prelude.{ℕ};
ghost use Rattle.command_terms.specs.Terms.{AreTerms};
ghost use Rattle.serve_command.specs.Terms.{serve_terms};

use session_input::laws::bytes_have_one_answer_to_serve;

/// What `serve` owes are the terms of a command.
pub fn the_terms_of_serve()
    ensures { (count : ℕ) → AreTerms (serve_terms count) }
{
    bytes_have_one_answer_to_serve();
}
