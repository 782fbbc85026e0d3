//! Laws of the definitions. These functions do nothing when they run: their clauses are what is proved.

ghost use Rattle.std.specs.Prelude.{◌≡◌, ◌++◌, ℕ, List, ◌<◌, ◌^◌};
ghost use Rattle.ipb_base.specs.Numbers.{greatest_mtu};
ghost use Rattle.capture_reader.specs.declared.capture.Caught.{Caught};
ghost use Rattle.capture_reader.specs.declared.capture.Capture.{Capture};
ghost use Rattle.capture_reader.specs.declared.refusal.CaptureWhy.{CaptureWhy};
ghost use Rattle.capture_reader.specs.CaptureText.{IsCapture, capture_text};
ghost use Rattle.capture_reader.specs.Faults.{IsFirstFault};
ghost use Rattle.capture_reader.specs.Proved.{IsProved};
ghost use Rattle.capture_reader.specs.Rows.{Row, IsOfRow};
ghost use Rattle.capture_reader.specs.Description.{IsDescription};

use crate::capture::MAX_DATAGRAM;

/// The most bytes of a datagram are those of the greatest MTU.
pub fn the_longest_datagram()
    ensures { MAX_DATAGRAM ≡ greatest_mtu }
{}

/// A text is that of at most one capture. (A capture has one text, since `capture_text` is a function.)
pub fn a_text_is_of_one_capture()
    ensures { (one other : Capture) → IsCapture one → IsCapture other → capture_text one ≡ capture_text other
        → one ≡ other }
{}

/// The text of a capture has no faulty line, and every other text at most one first fault.
pub fn a_text_has_one_first_fault()
    ensures none { (capture : Capture) (line : ℕ) (why : CaptureWhy) → IsCapture capture
        → ¬ IsFirstFault (capture_text capture) line why }
    ensures one { (text : List ℕ) (line line' : ℕ) (why why' : CaptureWhy) → IsFirstFault text line why
        → IsFirstFault text line' why' → (line ≡ line') × (why ≡ why') }
{}

/// A datagram is of at most one row.
pub fn a_datagram_is_of_one_row()
    ensures { (item : Caught) (one other : Row) → IsOfRow item one → IsOfRow item other → one ≡ other }
{}

/// A capture proves one place.
pub fn a_capture_proves_one_place()
    ensures { (capture : Capture) (one other : ℕ) → IsProved capture one → IsProved capture other → one ≡ other }
{}

/// A capture has one description, and no other capture shares it.
pub fn a_capture_has_one_description()
    ensures one { (capture : Capture) (text other : List ℕ) → IsDescription capture text → IsDescription capture other
        → text ≡ other }
    ensures shared { (text : List ℕ) (one other : Capture) → IsCapture one → IsCapture other → IsDescription one text
        → IsDescription other text → one ≡ other }
{}
