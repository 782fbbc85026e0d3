//! Laws of what `record` owes. This function does nothing when it runs: its clause is what is proved.

ghost use Rattle.command_terms.specs.Terms.{AreTerms};
ghost use Rattle.record_command.specs.Terms.{record_terms};

use session_input::laws::bytes_have_one_answer_to_record;

/// What `record` owes are the terms of a command.
pub fn the_terms_of_record()
    ensures { AreTerms record_terms }
{
    bytes_have_one_answer_to_record();
}
