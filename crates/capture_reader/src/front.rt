//! Reading a word at the front of a text.

ghost use Rattle.ipb_base.specs.Fronts.{Finds, behind};

/// The text behind a word, where the text begins with it.
pub(crate) fn behind<'a>(word: &[u8], text: &'a [u8]) -> Option<&'a [u8]>
    ensures { Finds (λ rest. rest.now) result (behind word.now text.now) }
{
    text.strip_prefix(word)
}
