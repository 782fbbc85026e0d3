//! Laws of the definitions. These functions do nothing when they run: their clauses are what is proved.

ghost use Rattle.std.specs.Prelude.{◌≡◌, ℕ, List};
ghost use Rattle.board_specs.specs.declared.spec.BoardSpec.{BoardSpec};
ghost use Rattle.ipb_base.specs.Numbers.{ip_udp_bytes};
ghost use Rattle.script_steps.specs.declared.operation.Step.{Step};
ghost use Rattle.transcript_reader.specs.declared.shown.Shown.{Shown};
ghost use Rattle.transcript_reader.specs.Faults.{IsFaultAt};
ghost use Rattle.transcript_reader.specs.Shown.{HaveNames, IsShownBy};

use crate::greeting::IP_UDP_BYTES;

/// The bytes of the headers that an MTU counts.
pub fn the_numbers_of_a_greeting()
    ensures { IP_UDP_BYTES ≡ ip_udp_bytes }
{}

/// A text shows one thing of a session, where no name has a line feed.
pub fn a_text_shows_one_thing()
    ensures { (boards : List BoardSpec) (scripts : List (List Step)) (text : List ℕ) (one other : Shown)
        → HaveNames boards scripts → IsShownBy boards scripts text one → IsShownBy boards scripts text other
        → one ≡ other }
{}

/// A text that is a transcript of a session is at fault at no line.
pub fn a_transcript_has_no_fault()
    ensures { (boards : List BoardSpec) (scripts : List (List Step)) (text : List ℕ) (shown : Shown) (line : ℕ)
        → HaveNames boards scripts → IsShownBy boards scripts text shown → ¬ IsFaultAt boards scripts text line }
{}
