//! Why `audit` refuses an input.

use ipb_base::NoMemory;
use session_input::{Refusal, Unread};

/// The most bytes of an input: its first line, a session document and a transcript (profile).
pub const MAX_AUDIT: usize = 134_217_728;

/// The most digits of the first line, which tells how long the document is (profile).
pub const MAX_LENGTH_DIGITS: usize = 8;

/// Why an input is refused: the first rule that it breaks (profile). That the input or its document is too long comes
/// first, then that it has no length, and then the rules on the document.
#[derive(Drop)]
pub enum AuditRefusal {
    /// The first line is not one of 1 to 8 decimal digits, or fewer bytes follow than it tells.
    NoLength,
    /// A rule on session documents. `TooLong` is told of the whole input too.
    OfSession(Refusal),
}

/// Why an input gives nothing.
#[derive(Drop)]
pub enum AuditUnread {
    Refused(AuditRefusal),
    /// There was not enough memory.
    NoMemory,
}

impl From<AuditRefusal> for AuditUnread {
    ghost use Rattle.std.specs.Prelude.{◌≡◌};
    ghost use Rattle.audit_command.specs.declared.refusal.AuditUnread.TheVariants.{Refused as refused};

    ghost from_gives = { λ refusal e. e ≡ refused refusal };

    fn from(refusal: AuditRefusal) -> AuditUnread {
        AuditUnread::Refused(refusal)
    }
}

impl From<Unread> for AuditUnread {
    ghost use Rattle.std.specs.Prelude.{◌≡◌};
    ghost use Rattle.audit_command.specs.Input.{of_session};

    ghost from_gives = { λ unread e. e ≡ of_session unread };

    fn from(unread: Unread) -> AuditUnread {
        match unread {
            Unread::Refused(refusal) => AuditUnread::Refused(AuditRefusal::OfSession(refusal)),
            Unread::NoMemory => AuditUnread::NoMemory,
        }
    }
}

impl From<NoMemory> for AuditUnread {
    ghost use Rattle.std.specs.Prelude.{◌≡◌};
    ghost use Rattle.audit_command.specs.declared.refusal.AuditUnread.TheVariants.{NoMemory as no_memory};

    ghost from_gives = { λ _ e. e ≡ no_memory };

    fn from(_error: NoMemory) -> AuditUnread {
        AuditUnread::NoMemory
    }
}
