//! Why a command on configurations refuses an input.

ghost use Rattle.std.specs.Prelude.{◌≡◌};

use config_store::{StoreRefusal, StoreWhy};
use ipb_base::{NoMemory, Text};
use session_input::{Refusal, Unread};
use std::alloc::{AllocError, AllocFailed};

/// Why an input is refused: the first rule that it breaks (profile). The rules on the configuration are tried behind
/// those on the document, its tables and the ranges of its boards, and before those on its scripts.
#[derive(Drop)]
pub enum ConfigRefusal {
    /// A rule on session documents.
    OfSession(Refusal),
    /// A rule on the configuration, by the names of the board and the register. The register's name is empty where a
    /// board as a whole is meant, and both are where no board is.
    OfState {
        board: Text,
        name: Text,
        why: StoreWhy,
    },
}

/// Why an input gives nothing.
#[derive(Drop)]
pub enum ConfigUnread {
    Refused(ConfigRefusal),
    /// There was not enough memory.
    NoMemory,
}

impl From<Unread> for ConfigUnread {
    ghost use Rattle.config_input.specs.Deserved.{of_session};

    ghost from_gives = { λ unread e. e ≡ of_session unread };

    fn from(unread: Unread) -> ConfigUnread {
        match unread {
            Unread::Refused(refusal) => ConfigUnread::Refused(ConfigRefusal::OfSession(refusal)),
            Unread::NoMemory => ConfigUnread::NoMemory,
        }
    }
}

impl From<StoreRefusal> for ConfigUnread {
    ghost use Rattle.config_input.specs.Deserved.{of_store};

    ghost from_gives = { λ refusal e. e ≡ of_store refusal };

    fn from(refusal: StoreRefusal) -> ConfigUnread {
        match refusal {
            StoreRefusal::At { board, name, why } => {
                ConfigUnread::Refused(ConfigRefusal::OfState { board, name, why })
            }
            StoreRefusal::NoMemory => ConfigUnread::NoMemory,
        }
    }
}

impl From<NoMemory> for ConfigUnread {
    ghost use Rattle.config_input.specs.declared.refusal.ConfigUnread.TheVariants.{NoMemory as no_memory};

    ghost from_gives = { λ _ e. e ≡ no_memory };

    fn from(_error: NoMemory) -> ConfigUnread {
        ConfigUnread::NoMemory
    }
}

impl From<AllocError> for ConfigUnread {
    ghost use Rattle.config_input.specs.declared.refusal.ConfigUnread.TheVariants.{NoMemory as no_memory};

    ghost from_gives = { λ _ e. e ≡ no_memory };

    fn from(_error: AllocError) -> ConfigUnread {
        ConfigUnread::NoMemory
    }
}

impl<T: Drop> From<AllocFailed<T>> for ConfigUnread {
    ghost use Rattle.config_input.specs.declared.refusal.ConfigUnread.TheVariants.{NoMemory as no_memory};

    ghost from_gives = { λ _ e. e ≡ no_memory };

    fn from(_error: AllocFailed<T>) -> ConfigUnread {
        ConfigUnread::NoMemory
    }
}
