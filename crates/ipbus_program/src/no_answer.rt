//! Why there is no answer to an input.

use command_terms::{DOOR_FAULT, NO_MEMORY, RACK_FAULT, READ_FAULT};
use ipb_base::NoMemory;
use session_run::RunFault;
use session_serve::ServeFault;

/// Why there is none.
#[derive(Clone, Copy)]
pub(crate) enum NoAnswer {
    ReadFault,
    RackFault,
    DoorFault,
    NoMemory,
}

impl NoAnswer {
    ghost use Rattle.std.specs.Prelude.{◌≡◌};
    ghost use Rattle.ipbus_program.specs.Steps.{status_of};

    /// The status of a call that has no answer.
    pub(crate) fn status(self) -> u8
        ensures { result ≡ status_of self }
    {
        match self {
            NoAnswer::ReadFault => READ_FAULT,
            NoAnswer::RackFault => RACK_FAULT,
            NoAnswer::DoorFault => DOOR_FAULT,
            NoAnswer::NoMemory => NO_MEMORY,
        }
    }
}

impl From<NoMemory> for NoAnswer {
    ghost use Rattle.std.specs.Prelude.{◌≡◌};
    ghost use Rattle.ipbus_program.specs.declared.no_answer.NoAnswer.TheVariants.{NoMemory as out_of_memory};

    ghost from_gives = { λ _ e. e ≡ out_of_memory };

    fn from(_error: NoMemory) -> NoAnswer {
        NoAnswer::NoMemory
    }
}

impl From<RunFault> for NoAnswer {
    ghost use Rattle.std.specs.Prelude.{◌≡◌};
    ghost use Rattle.ipbus_program.specs.Steps.{no_answer_of};

    ghost from_gives = { λ fault e. e ≡ no_answer_of fault };

    fn from(fault: RunFault) -> NoAnswer {
        match fault {
            RunFault::Rack => NoAnswer::RackFault,
            RunFault::NoMemory => NoAnswer::NoMemory,
        }
    }
}

impl From<ServeFault> for NoAnswer {
    ghost use Rattle.std.specs.Prelude.{◌≡◌};
    ghost use Rattle.ipbus_program.specs.Steps.{no_answer_served};

    ghost from_gives = { λ fault e. e ≡ no_answer_served fault };

    fn from(fault: ServeFault) -> NoAnswer {
        match fault {
            ServeFault::Rack => NoAnswer::RackFault,
            ServeFault::Door => NoAnswer::DoorFault,
            ServeFault::NoMemory => NoAnswer::NoMemory,
        }
    }
}
