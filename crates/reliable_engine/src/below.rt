//! What the crates below promise, as the proofs here use it.

ghost use Rattle.world_model.specs.Below.{ReadsBack};

use packet_codec::laws::reading_is_the_grammar;

/// Packets and their headers are read as they are spelled. It does nothing when it runs.
pub(crate) fn packets_are_read_back()
    ensures { ReadsBack }
{
    reading_is_the_grammar();
}
