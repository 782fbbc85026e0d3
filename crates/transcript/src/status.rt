//! Whether all of a run was done.

ghost use Rattle.std.specs.Prelude.{◌≡◌, map};
ghost use Rattle.transcript.specs.Results as of_results;
ghost use Rattle.transcript.specs.Lines as spec;

use crate::line::{OpLine, OpResult};

/// Whether an operation was executed without a fault.
pub(crate) fn is_good(came_to: &OpResult) -> bool
    ensures { result ≡ of_results.is_good came_to.now }
{
    matches!(
        came_to,
        OpResult::Value(_) | OpResult::Done | OpResult::Was(_)
    )
}

fn are_good(lines: &[OpLine]) -> bool
    ensures { result ≡ spec.are_good lines.now }
{
    for line in lines {
        if !is_good(&line.result) {
            return false;
        }
    }
    true
}

/// Whether every line is a value, `done` or `was`: the status of a run is 0 then, and else 1 (profile).
pub fn all_good(clients: &[Vec<OpLine>]) -> bool
    ensures { result ≡ spec.all_good (map (λ client. client.items) clients.now) }
{
    for lines in clients {
        if !are_good(lines.as_slice()) {
            return false;
        }
    }
    true
}
