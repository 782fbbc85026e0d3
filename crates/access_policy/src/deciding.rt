//! What a policy says of one use of a register.

ghost use Rattle.std.specs.Prelude.{◌≡◌};
ghost use Rattle.access_policy.specs.Decisions as spec;
ghost use Rattle.access_policy.specs.Names.{items_of};

use crate::matching::{board_matches, name_matches};
use crate::policy::{Access, Effect, Policy, Rule};
use address_table::Permission;
use script_steps::{Decision, Verb};

/// What a policy says of a client that needs this of the register of a name on the board of a name (profile): `Rw` needs
/// to read and to write. It takes no memory.
pub fn decide(policy: &Policy, client: u32, board: &str, name: &str, needs: Permission) -> Decision
    ensures { result ≡ spec.decision policy.now client board.now name.now needs }
{
    match needs {
        Permission::R => decide_access(policy, client, board, name, Access::Reading),
        Permission::W => decide_access(policy, client, board, name, Access::Writing),
        Permission::Rw => both(
            decide_access(policy, client, board, name, Access::Reading),
            decide_access(policy, client, board, name, Access::Writing),
        ),
    }
}

/// What denies first, of reading and then writing.
fn both(reading: Decision, writing: Decision) -> Decision
    ensures { result ≡ spec.both reading writing }
{
    match reading {
        Decision::Allowed => writing,
        Decision::Denied { rule } => Decision::Denied { rule },
    }
}

/// What an operation needs.
pub(crate) fn needs_of(verb: Verb) -> Permission
    ensures { result ≡ spec.needs_of verb }
{
    match verb {
        Verb::Read | Verb::ReadBlock => Permission::R,
        Verb::Write | Verb::WriteBlock => Permission::W,
        Verb::RmwBits | Verb::RmwSum => Permission::Rw,
    }
}

/// Whether a permission has an access.
pub(crate) fn has_access(permission: Permission, access: Access) -> bool
    ensures { result ≡ spec.has_access permission access }
{
    match access {
        Access::Reading => permission != Permission::W,
        Access::Writing => permission != Permission::R,
    }
}

/// Whether a rule for a client, or for each client, is for this one.
pub(crate) fn client_matches(of: Option<u32>, client: u32) -> bool
    ensures { result ≡ spec.client_matches of client }
{
    match of {
        Some(number) => number == client,
        None => true,
    }
}

/// What the rule of a number says.
pub(crate) fn said(number: u32, effect: Effect) -> Decision
    ensures { result ≡ spec.said number effect }
{
    match effect {
        Effect::Allow => Decision::Allowed,
        Effect::Deny => Decision::Denied { rule: number },
    }
}

/// Whether a rule speaks of an access.
fn speaks_of(rule: &Rule, access: Access, client: u32, board: &str, name: &str) -> bool
    ensures { result ≡ spec.speaks_of access client board.now (items_of name.now) rule.now }
{
    if !has_access(rule.access, access) || !client_matches(rule.client, client) {
        return false;
    }
    let pattern = &rule.pattern;
    board_matches(&pattern.board, board)
        && name_matches(pattern.items.as_slice(), pattern.rest, name)
}

/// What the first rule says that speaks of an access.
fn decide_access(policy: &Policy, client: u32, board: &str, name: &str, access: Access) -> Decision
    ensures { result ≡ spec.access_decision policy.now client board.now (items_of name.now) access }
{
    for (i, rule) in policy.as_slice().iter().enumerate() {
        if speaks_of(rule, access, client, board, name) {
            return said(i as u32 + 1, rule.effect);
        }
    }
    Decision::Denied { rule: 0 }
}
