//! What serving came to.

use hub_session::Served;
use ipb_base::NoMemory;
use links::RackFault;
use transcript::BoardLine;

/// What became of the connections, in the order of acceptance, and of the boards, in their order.
#[derive(Drop)]
pub struct ServeReport {
    pub connections: Vec<Served>,
    pub boards: Vec<BoardLine>,
}

/// Why there is no report.
#[derive(Clone, Copy, PartialEq, Eq)]
pub enum ServeFault {
    /// A link could not be made. The rack counted it.
    Rack,
    /// The door failed. It counted it.
    Door,
    /// Memory ran out while connections were served.
    NoMemory,
}

impl From<NoMemory> for ServeFault {
    ghost use Rattle.std.specs.Prelude.{◌≡◌};
    ghost use Rattle.session_serve.specs.declared.report.ServeFault.TheVariants.{NoMemory as no_memory};

    ghost from_gives = { λ _ fault. fault ≡ no_memory };

    fn from(_error: NoMemory) -> ServeFault {
        ServeFault::NoMemory
    }
}

impl From<RackFault> for ServeFault {
    ghost use Rattle.std.specs.Prelude.{◌≡◌};
    ghost use Rattle.session_serve.specs.Faults.{serve_fault};

    ghost from_gives = { λ fault result. result ≡ serve_fault fault };

    fn from(fault: RackFault) -> ServeFault {
        match fault {
            RackFault::Failed => ServeFault::Rack,
            RackFault::NoMemory => ServeFault::NoMemory,
        }
    }
}
