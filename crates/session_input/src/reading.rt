//! A document read for a command.

ghost use Rattle.std.specs.Prelude.{◌≡◌, ◌≤◌, ℕ, List, [], Option, None, IfOk, IfErr, OnOk, length, option_map};
ghost use Rattle.std.specs.List.{AllByRecursion};
ghost use Rattle.toml.specs.Data.{Data, Members};
ghost use Rattle.toml.specs.View.{table_view, view};
ghost use Rattle.access_policy.specs.Decisions.{names_of, ruled_scripts};
ghost use Rattle.script_lang.specs.Document.{IsSession, IsToml, TellsFault, TellsNotToml, faults};
ghost use Rattle.script_lang.specs.Limits.{IsWithin};
ghost use Rattle.script_steps.specs.Packing.{AreWithinLimits, CanBePacked, HaveFewPieces};
ghost use Rattle.script_lang.specs.declared.refusal.TheConstants.{MAX_CLIENTS};
ghost use Rattle.script_lang.specs.declared.script_refusal.TheConstants.{MAX_LINES};
ghost use Rattle.script_lang.specs.Scripts.{script_faults, steps_of as meant_steps};
ghost use Rattle.session_input.specs.Deserved as spec;
ghost use Rattle.session_input.specs.Numbers.{document_bytes};

use crate::checking::{check_buses, index_of, indexes_of};
use crate::refusal::{MAX_DOCUMENT, Refusal, Unread};
use access_policy::{Policy, PolicyRefusal, read_policy, rule_scripts};
use address_table::TableRefusal;
use ipb_base::NoMemory;
use node_tree::Index;
use script_lang::{
    ScriptRefusal, Session, SessionRefusal, compile_scripts, parse_document, read_session_table,
    take_key,
};
use script_steps::Steps;
use script_steps::laws::what_is_denied_asks_for_less;
use std::alloc::Global;
use toml::{Table, Value};

/// A session that can be run, and the steps of its clients in order, as its policy leaves them.
#[derive(Drop)]
pub struct Runnable {
    pub session: Session,
    pub steps: Vec<Steps>,
}

/// A session, and its policy where the document has one.
#[derive(Drop)]
pub struct Stated {
    pub session: Session,
    pub policy: Option<Policy>,
}

/// Reads a document to run it (profile): the session that the bytes stand for and the steps of its scripts under its
/// policy, or else the first rule that is broken.
pub fn read_for_run(alloc: Global, bytes: &[u8]) -> Result<Runnable, Unread>
    ensures runnable { IfOk result (λ read. spec.IsRunnable bytes.now read.session read.steps.items) }
    ensures refused { IfErr result (spec.Tells (spec.Deserves spec.BreaksInRun bytes.now)) }
    ensures within { IfOk result (λ read. IsWithin read.session) }
    // Each operation of the steps can be packed, whatever packets its board takes, and no client has too many.
    ensures packed { IfOk result (λ read. AllByRecursion (AllByRecursion CanBePacked) read.steps.items) }
    ensures few { IfOk result (λ read. AllByRecursion HaveFewPieces read.steps.items) }
    ensures limits { IfOk result (λ read. AreWithinLimits read.steps.items) }
    ensures short { IfOk result (λ read. AllByRecursion (λ steps. length steps ≤ MAX_LINES) read.steps.items) }
{
    let stated = read(alloc, bytes)?;
    with_steps(alloc, stated)
}

/// Reads a document to serve its boards (profile): the session that the bytes stand for, which has no policy and could
/// be run, or else the first rule that is broken.
pub fn read_for_serve(alloc: Global, bytes: &[u8]) -> Result<Session, Unread>
    ensures servable { IfOk result (spec.IsServable bytes.now) }
    ensures refused { IfErr result (spec.Tells (spec.Deserves spec.BreaksInServe bytes.now)) }
    ensures within { IfOk result IsWithin }
{
    let served = read(alloc, bytes)?;
    if served.policy.is_some() {
        return Err(Unread::Refused(Refusal::NoServe));
    }
    match with_steps(alloc, served) {
        Ok(Runnable { session, .. }) => Ok(session),
        Err(unread) => Err(unread),
    }
}

/// Reads a document to list the registers of a table (profile): the index of the table of this name, or else the first
/// rule that is broken. No range and no script is looked at, and of the policy only its form.
pub fn read_for_check(alloc: Global, bytes: &[u8], table: &str) -> Result<Index, Unread>
    ensures listed { IfOk result (spec.IsListed bytes.now table.now) }
    ensures refused { IfErr result (spec.Tells (spec.Deserves (spec.BreaksInCheck table.now) bytes.now)) }
{
    let listed = read(alloc, bytes)?;
    index_of(alloc, &listed.session.tables, table)
}

/// The session that bytes stand for, and its policy.
pub(crate) fn read(alloc: Global, bytes: &[u8]) -> Result<Stated, Unread>
    ensures fits { OnOk result (length bytes.now ≤ document_bytes) }
    ensures stands { IfOk result (λ read. spec.StandsForSession bytes.now read.session read.policy) }
    ensures within { IfOk result (λ read. IsWithin read.session) }
    ensures refused { IfErr result (spec.Tells (spec.DeservesUnread bytes.now)) }
{
    let document = parse_input(alloc, bytes)?;
    read_document(alloc, document)
}

/// The table that an input writes which is to be a document (TOML). Refused are bytes that are too many, and bytes that
/// are no TOML.
pub fn parse_input(alloc: Global, bytes: &[u8]) -> Result<Table, Unread>
    ensures fits { OnOk result (length bytes.now ≤ document_bytes) }
    ensures document { IfOk result (λ document. IsToml bytes.now (table_view document)) }
    ensures refused { IfErr result (spec.Tells (spec.IsNoText bytes.now)) }
{
    if bytes.len() > MAX_DOCUMENT {
        return Err(Unread::Refused(Refusal::TooLong));
    }
    match parse_document(alloc, bytes) {
        Ok(document) => Ok(document),
        Err(refusal) => Err(refused(refusal)),
    }
}

/// The session that a parsed document stands for, and its policy (profile), or else the first rule that the document
/// breaks. The key of the policy is taken out of the table, so that nothing is copied.
pub fn read_document(alloc: Global, document: Table) -> Result<Stated, Unread>
    ensures session { IfOk result (λ read. IsSession (spec.session_part (table_view document)) read.session) }
    ensures policy { IfOk result (λ read. spec.HasPolicy (table_view document) read.policy) }
    ensures within { IfOk result (λ read. IsWithin read.session) }
    ensures refused { IfErr result (spec.Tells (spec.BreaksDocument (table_view document))) }
{
    let mut rest = document;
    let policy = take_key(&mut rest, "policy");
    read_parts(alloc, rest, &policy)
}

/// The session that a table stands for, and the policy that a value beside it stands for.
fn read_parts(alloc: Global, table: Table, value: &Option<Value>) -> Result<Stated, Unread>
    ensures session { IfOk result (λ read. IsSession (table_view table) read.session) }
    ensures policy { IfOk result (λ read. spec.IsPolicyOf (option_map view value.now) read.policy) }
    ensures within { IfOk result (λ read. IsWithin read.session) }
    ensures refused { IfErr result
        (spec.Tells (spec.BreaksParts (table_view table) (option_map view value.now))) }
{
    let session = session_of(alloc, table)?;
    let policy = policy_of(alloc, value)?;
    Ok(Stated { session, policy })
}

/// The session that a table stands for.
fn session_of(alloc: Global, table: Table) -> Result<Session, Unread>
    ensures found { IfOk result (IsSession (table_view table)) }
    ensures within { IfOk result IsWithin }
    ensures refused { (value : Option Data) → IfErr result (spec.Tells (spec.BreaksParts (table_view table) value)) }
{
    match read_session_table(alloc, table) {
        Ok(session) => Ok(session),
        Err(refusal) => Err(refused(refusal)),
    }
}

/// The policy that a value stands for, and none where there is no value.
fn policy_of(alloc: Global, value: &Option<Value>) -> Result<Option<Policy>, Unread>
    ensures policy { IfOk result (spec.IsPolicyOf (option_map view value.now)) }
    ensures refused { (rest : Members) → faults rest ≡ []
        → IfErr result (spec.Tells (spec.BreaksParts rest (option_map view value.now))) }
{
    let Some(value) = value else {
        return Ok(None);
    };
    match read_policy(alloc, value) {
        Ok(policy) => Ok(Some(policy)),
        Err(PolicyRefusal::Shape { path }) => Err(Unread::Refused(Refusal::Policy { path })),
        Err(PolicyRefusal::NoMemory) => Err(Unread::NoMemory),
    }
}

/// A document's refusal as an input's.
fn refused(refusal: SessionRefusal) -> Unread
    ensures not_toml { (bytes : List ℕ) → length bytes ≤ document_bytes → TellsNotToml bytes refusal
        → spec.Tells (spec.IsNoText bytes) result }
    ensures faulty { (rest : Members) (value : Option Data) → TellsFault (faults rest) refusal
        → spec.Tells (spec.BreaksParts rest value) result }
{
    match refusal {
        SessionRefusal::Document { path, why } => Unread::Refused(Refusal::Document { path, why }),
        SessionRefusal::Table { table, refusal } => match refusal {
            TableRefusal::At { path, why } => {
                Unread::Refused(Refusal::Table { table, path, why })
            }
            TableRefusal::NoMemory => Unread::NoMemory,
        },
        SessionRefusal::NoMemory => Unread::NoMemory,
    }
}

/// What is read, with the steps of the scripts under the policy, where the session can be run.
pub(crate) fn with_steps(alloc: Global, stated: Stated) -> Result<Runnable, Unread>
    requires { IsWithin stated.session }
    ensures session { IfOk result (λ read. read.session ≡ stated.session) }
    ensures runs { IfOk result (λ read. spec.AreSteps stated.session stated.policy read.steps.items) }
    ensures refused { IfErr result (spec.Tells (spec.BreaksInRun stated.session stated.policy)) }
    ensures packed { IfOk result (λ read. AllByRecursion (AllByRecursion CanBePacked) read.steps.items) }
    ensures few { IfOk result (λ read. AllByRecursion HaveFewPieces read.steps.items) }
    ensures limits { IfOk result (λ read. AreWithinLimits read.steps.items) }
    ensures short { IfOk result (λ read. AllByRecursion (λ steps. length steps ≤ MAX_LINES) read.steps.items) }
{
    let Stated { session, policy } = stated;
    match ruled_steps(alloc, &session, policy) {
        Ok(steps) => Ok(Runnable { session, steps }),
        Err(unread) => Err(unread),
    }
}

/// The steps of a session that can be run, under a policy where there is one.
fn ruled_steps(
    alloc: Global,
    session: &Session,
    policy: Option<Policy>,
) -> Result<Vec<Steps>, Unread>
    requires { IsWithin session.now }
    ensures runs { IfOk result (λ steps. spec.AreSteps session.now policy steps.items) }
    ensures refused { IfErr result (spec.Tells (spec.BreaksInRun session.now policy)) }
    ensures packed { IfOk result (λ steps. AllByRecursion (AllByRecursion CanBePacked) steps.items) }
    ensures few { IfOk result (λ steps. AllByRecursion HaveFewPieces steps.items) }
    ensures limits { IfOk result (λ steps. AreWithinLimits steps.items) }
    ensures short { IfOk result (λ all. AllByRecursion (λ steps. length steps ≤ MAX_LINES) all.items) }
{
    what_is_denied_asks_for_less();
    let steps = steps_of(alloc, session)?;
    Ok(under_policy(alloc, session, policy, steps)?)
}

/// The steps of a session's clients under a policy, where there is one (profile).
pub fn under_policy(
    alloc: Global,
    session: &Session,
    policy: Option<Policy>,
    steps: Vec<Steps>,
) -> Result<Vec<Steps>, NoMemory>
    requires { length steps.items ≤ MAX_CLIENTS }
    ensures { IfOk result (λ now. now.items ≡ ruled_scripts policy (names_of session.now.boards) steps.items) }
{
    let Some(policy) = policy else {
        return Ok(steps);
    };
    let mut ruled = steps;
    match rule_scripts(alloc, &policy, session, &mut ruled) {
        Ok(()) => Ok(ruled),
        Err(NoMemory) => Err(NoMemory),
    }
}

/// The steps of a session that can be run.
fn steps_of(alloc: Global, session: &Session) -> Result<Vec<Steps>, Unread>
    requires { IsWithin session.now }
    ensures runs { IfOk result (λ steps. spec.AreSteps session.now None steps.items) }
    ensures refused { IfErr result (spec.Tells (spec.BreaksInRun session.now None)) }
    ensures packed { IfOk result (λ steps. AllByRecursion (AllByRecursion CanBePacked) steps.items) }
    ensures few { IfOk result (λ steps. AllByRecursion HaveFewPieces steps.items) }
    ensures limits { IfOk result (λ steps. AreWithinLimits steps.items) }
    ensures short { IfOk result (λ all. AllByRecursion (λ steps. length steps ≤ MAX_LINES) all.items) }
{
    let boards = session.boards.as_slice();
    let indexes = indexes_of(alloc, &session.tables, boards)?;
    check_buses(alloc, boards)?;
    compiled(alloc, session, &indexes)
}

/// The steps of the scripts of a session (profile), by an index for each board, or else the first faulty line.
pub fn compiled(alloc: Global, session: &Session, indexes: &[Index]) -> Result<Vec<Steps>, Unread>
    requires { IsWithin session.now }
    ensures meant { IfOk result (λ steps. steps.items
        ≡ meant_steps session.now.boards indexes.now session.now.scripts) }
    ensures faultless { OnOk result (script_faults session.now.boards indexes.now session.now.scripts ≡ []) }
    ensures refused { IfErr result
        (spec.Tells (spec.TellsLine (script_faults session.now.boards indexes.now session.now.scripts))) }
    ensures packed { IfOk result (λ steps. AllByRecursion (AllByRecursion CanBePacked) steps.items) }
    ensures few { IfOk result (λ steps. AllByRecursion HaveFewPieces steps.items) }
    ensures limits { IfOk result (λ steps. AreWithinLimits steps.items) }
    ensures short { IfOk result (λ all. AllByRecursion (λ steps. length steps ≤ MAX_LINES) all.items) }
{
    match compile_scripts(alloc, session, indexes) {
        Ok(steps) => Ok(steps),
        Err(ScriptRefusal::At { client, line, why }) => {
            Err(Unread::Refused(Refusal::Script { client, line, why }))
        }
        Err(ScriptRefusal::NoMemory) => Err(Unread::NoMemory),
    }
}
