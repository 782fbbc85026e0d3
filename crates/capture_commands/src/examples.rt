//! Worked examples of what the commands owe. These functions do nothing when they run: their clauses are what is proved.

ghost use Rattle.std.specs.Prelude.{codes};
ghost use Rattle.capture_commands.specs.Terms.{describe_terms, undescribe_terms};
ghost use Rattle.capture_commands.specs.Texts.{IsDescribed, IsUndescribed};
ghost use Rattle.command_terms.specs.Numbers.{done_status};

use capture_reader::examples::{a_first_line_that_is_refused, no_bytes, one_word_is_read};

/// A datagram of no bytes.
pub fn no_bytes_are_described()
    ensures described { IsDescribed (codes "first 1\n> -\n") done_status (codes "first 1\n> raw -\nproved 0\n") }
    ensures undescribed { IsUndescribed (codes "first 1\n> raw -\nproved 0\n") done_status (codes "first 1\n> -\n") }
{
    no_bytes();
}

/// Line 1 has no identifier 0.
pub fn an_identifier_0_is_refused()
    ensures { describe_terms.Refuses (codes "first 0\n") (codes "refused: capture 1 First\n") }
{
    a_first_line_that_is_refused();
}

/// A description in which more is proved than its datagrams prove.
pub fn a_description_that_proves_too_much()
    ensures { undescribe_terms.Refuses (codes "first 1\n> status request\n< status 1500 16 1\n> control 1 big\n  0 read 0x00000004 1\n< control 1 big\n  0 read 0 1 0x0000abcd\nproved 2\n")
        (codes "refused: description - NotDescription\n") }
{
    one_word_is_read();
}
