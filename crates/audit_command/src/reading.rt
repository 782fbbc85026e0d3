//! An input read for an audit.

ghost use Rattle.std.specs.Prelude.{◌≤◌, IfOk, IfErr, OnOk, length};
ghost use Rattle.std.specs.List.{AllByRecursion};
ghost use Rattle.script_lang.specs.Limits.{IsWithin};
ghost use Rattle.script_lang.specs.declared.script_refusal.TheConstants.{MAX_LINES};
ghost use Rattle.script_steps.specs.Packing.{CanBePacked, HaveFewPieces};
ghost use Rattle.session_input.specs.Deserved as input;
ghost use Rattle.session_input.specs.Deserved.{AreSteps, DeservesUnread, IsRunnable, StandsForSession};
ghost use Rattle.session_input.specs.Numbers.{document_bytes};
ghost use Rattle.run_audit.specs.Verdicts.{CanBeAudited};
ghost use Rattle.audit_command.specs.Boards.{AreSimulated, BreaksInAudit};
ghost use Rattle.audit_command.specs.Input as spec;

use crate::boards::check_boards;
use crate::parts::{Parts, parts_of};
use crate::refusal::AuditUnread;
use access_policy::Policy;
use script_lang::Session;
use script_steps::Steps;
use script_steps::laws::what_is_denied_asks_for_less;
use session_input::laws::what_can_be_run_can_be_executed;
use session_input::{
    Runnable, Stated, Unread, compiled, indexes_of, parse_input, read_document, under_policy,
};
use std::alloc::Global;

/// A session and a transcript that is to be judged by it.
#[derive(Drop)]
pub struct Audited<'a> {
    pub session: Session,
    /// The steps of each client under the policy of the session.
    pub steps: Vec<Steps>,
    pub transcript: &'a [u8],
}

/// Reads an input to audit it (profile): the session that its document stands for, the steps of its scripts under its
/// policy, and the transcript behind it; or else the first rule that is broken.
pub fn read_for_audit(alloc: Global, bytes: &[u8]) -> Result<Audited<'_>, AuditUnread>
    ensures input { IfOk result (λ read. spec.IsInput bytes.now read.session read.steps.items read.transcript.now) }
    ensures refused { IfErr result (spec.Tells (spec.Deserves bytes.now)) }
    ensures can { IfOk result (λ read. CanBeAudited read.session read.steps.items) }
{
    let Parts {
        document,
        transcript,
    } = parts_of(bytes)?;
    let Runnable { session, steps } = read_session(alloc, document)?;
    Ok(Audited {
        session,
        steps,
        transcript,
    })
}

/// Reads the document of an input.
fn read_session(alloc: Global, document: &[u8]) -> Result<Runnable, Unread>
    ensures runnable { IfOk result (λ read. IsRunnable document.now read.session read.steps.items) }
    ensures simulated { IfOk result (λ read. AreSimulated read.session.boards) }
    ensures can { IfOk result (λ read. CanBeAudited read.session read.steps.items) }
    ensures refused { IfErr result (input.Tells (input.Deserves BreaksInAudit document.now)) }
{
    what_can_be_run_can_be_executed();
    let Stated { session, policy } = stated(alloc, document)?;
    let steps = audited_steps(alloc, &session, policy)?;
    Ok(Runnable { session, steps })
}

/// The session that a document stands for, and its policy.
fn stated(alloc: Global, document: &[u8]) -> Result<Stated, Unread>
    ensures fits { OnOk result (length document.now ≤ document_bytes) }
    ensures stands { IfOk result (λ read. StandsForSession document.now read.session read.policy) }
    ensures within { IfOk result (λ read. IsWithin read.session) }
    ensures refused { IfErr result (input.Tells (DeservesUnread document.now)) }
{
    let table = parse_input(alloc, document)?;
    read_document(alloc, table)
}

/// The steps of a session of simulated boards that can be run, under a policy where there is one.
fn audited_steps(
    alloc: Global,
    session: &Session,
    policy: Option<Policy>,
) -> Result<Vec<Steps>, Unread>
    requires { IsWithin session.now }
    ensures runs { IfOk result (λ steps. AreSteps session.now policy steps.items) }
    ensures simulated { OnOk result (AreSimulated session.now.boards) }
    ensures refused { IfErr result (input.Tells (BreaksInAudit session.now policy)) }
    ensures packed { IfOk result (λ steps. AllByRecursion (AllByRecursion CanBePacked) steps.items) }
    ensures few { IfOk result (λ steps. AllByRecursion HaveFewPieces steps.items) }
    ensures short { IfOk result (λ all. AllByRecursion (λ steps. length steps ≤ MAX_LINES) all.items) }
{
    what_is_denied_asks_for_less();
    let boards = session.boards.as_slice();
    let indexes = indexes_of(alloc, &session.tables, boards)?;
    check_boards(alloc, boards)?;
    let steps = compiled(alloc, session, &indexes)?;
    Ok(under_policy(alloc, session, policy, steps)?)
}
