//! What the turns of clients tell of a run.

use ipbus_program::{Gate, Outcome};
use net_edges::{Progress, Taken};

/// A gate that is always open. It tells the progress of a run, where there is one, what clients ask for and take.
#[derive(Drop)]
pub(crate) struct Turns<'a> {
    pub(crate) progress: Option<&'a Progress>,
}

impl Gate for Turns<'_> {
    fn planned(&self, client: u32, dispatches: u64, bodies: u64, operations: u64) {
        if let Some(progress) = self.progress {
            progress.planned(client, dispatches, bodies, operations);
        }
    }

    fn between(&self, client: u32, bodies: u64, operations: u32) {
        if let Some(progress) = self.progress {
            progress.asked(client, bodies, operations);
        }
    }

    fn took(&self, client: u32, lane: usize, outcome: &Outcome) {
        if let Some(progress) = self.progress {
            progress.took(client, lane, taken(outcome));
        }
    }

    fn answered(&self, client: u32) {
        if let Some(progress) = self.progress {
            progress.answered(client);
        }
    }
}

/// What a client took of a packet, as far as the progress of a run goes by it.
fn taken(outcome: &Outcome) -> Taken {
    match outcome {
        Outcome::Replied { .. } => Taken::Reply,
        Outcome::TimedOut { .. } => Taken::Timeout,
        Outcome::Unsent | Outcome::LinkLost { .. } => Taken::Other,
    }
}
