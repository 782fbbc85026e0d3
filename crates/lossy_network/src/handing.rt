//! A datagram that is handed out.

ghost use Rattle.std.specs.Prelude.{◌≡◌, ◌++◌, ◌∷◌, [], OnOk, OnErr};
ghost use Rattle.reliable_engine.specs.Traffic.{Got};

use ipb_base::NoMemory;
use links::TrafficLog;

/// Puts a datagram into `into`, which is empty, and adds it to what passed. Where memory ran out it does neither.
pub(crate) fn hand_over(
    passed: &mut TrafficLog,
    bytes: &[u8],
    into: &mut Vec<u8>,
) -> Result<(), NoMemory>
    requires empty { into.old.items ≡ [] }
    ensures passed { OnOk result (passed.new ≡ passed.old ++ Got bytes.now ∷ []) }
    ensures unchanged { OnErr result (passed.new ≡ passed.old) }
    ensures bytes { OnOk result (into.new.items ≡ bytes.now) }
    ensures none { OnErr result (into.new.items ≡ []) }
{
    into.extend_from_slice(bytes)?;
    passed.add_got(bytes);
    Ok(())
}
