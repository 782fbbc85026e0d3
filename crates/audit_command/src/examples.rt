//! Worked examples of inputs that are refused. These functions do nothing when they run: their clauses are what is
//! proved.

ghost use Rattle.std.specs.Prelude.{codes};
ghost use Rattle.audit_command.specs.Terms.{audit_terms};

/// Where the first line is no length, or tells more bytes than follow.
pub fn inputs_without_a_length()
    ensures empty { audit_terms.Refuses (codes "") (codes "refused: document - NoLength\n") }
    ensures no_line_feed { audit_terms.Refuses (codes "12") (codes "refused: document - NoLength\n") }
    ensures no_digits { audit_terms.Refuses (codes "\n") (codes "refused: document - NoLength\n") }
    ensures hexadecimal { audit_terms.Refuses (codes "0x0\n") (codes "refused: document - NoLength\n") }
    ensures nine_digits { audit_terms.Refuses (codes "000000000\n") (codes "refused: document - NoLength\n") }
    ensures too_few_bytes { audit_terms.Refuses (codes "5\nabcd") (codes "refused: document - NoLength\n") }
{}

/// A document that is too long is refused as that, however few bytes follow.
pub fn a_length_that_is_too_long()
    ensures { audit_terms.Refuses (codes "16777217\n") (codes "refused: document - TooLong\n") }
{}
