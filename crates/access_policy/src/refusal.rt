//! Why a value is no policy.

ghost use Rattle.std.specs.Prelude.{◌≡◌};

use ipb_base::{NoMemory, Text};
use std::alloc::{AllocError, AllocFailed};

/// Why a policy was not read: its first fault.
#[derive(Drop)]
pub enum PolicyRefusal {
    /// A value is not what stands under its key, a rule has no such key, or a key that it needs is left out. The path
    /// leads from the array of rules to the place of the fault: positions from 0 and keys, with a dot between them. It
    /// is empty where the value is no array or has more than `MAX_RULES` rules.
    Shape { path: Text },
    /// There was not enough memory.
    NoMemory,
}

impl From<NoMemory> for PolicyRefusal {
    ghost use Rattle.access_policy.specs.declared.refusal.PolicyRefusal.TheVariants.{NoMemory as no_memory};

    ghost from_gives = { λ _ e. e ≡ no_memory };

    fn from(_error: NoMemory) -> PolicyRefusal {
        PolicyRefusal::NoMemory
    }
}

impl From<AllocError> for PolicyRefusal {
    ghost use Rattle.access_policy.specs.declared.refusal.PolicyRefusal.TheVariants.{NoMemory as no_memory};

    ghost from_gives = { λ _ e. e ≡ no_memory };

    fn from(_error: AllocError) -> PolicyRefusal {
        PolicyRefusal::NoMemory
    }
}

impl<T: Drop> From<AllocFailed<T>> for PolicyRefusal {
    ghost use Rattle.access_policy.specs.declared.refusal.PolicyRefusal.TheVariants.{NoMemory as no_memory};

    ghost from_gives = { λ _ e. e ≡ no_memory };

    fn from(_error: AllocFailed<T>) -> PolicyRefusal {
        PolicyRefusal::NoMemory
    }
}
