//! A document read for a command on configurations.

ghost use Rattle.std.specs.Prelude.{◌≡◌, ◌≤◌, [], IfOk, IfErr, OnOk, length, option_map};
ghost use Rattle.std.specs.List.{AllByRecursion};
ghost use Rattle.toml.specs.View.{table_view, view};
ghost use Rattle.script_lang.specs.Limits.{IsWithin};
ghost use Rattle.script_lang.specs.declared.script_refusal.TheConstants.{MAX_LINES};
ghost use Rattle.script_steps.specs.Packing.{AreWithinLimits, CanBePacked, HaveFewPieces};
ghost use Rattle.session_input.specs.Deserved as input;
ghost use Rattle.session_input.specs.Deserved.{HaveBuses};
ghost use Rattle.config_store.specs.Order.{AreInOrder};
ghost use Rattle.config_store.specs.Refusals.{TellsFirst};
ghost use Rattle.config_input.specs.Deserved as spec;
ghost use Rattle.config_input.specs.Work as work;
ghost use Rattle.config_input.specs.Words.{IsOfDocument};

use crate::laws::values_of_a_state_are_words;
use crate::planning::planned;
use crate::refusal::ConfigUnread;
use access_policy::Policy;
use config_laws::sessions::the_boards_of_a_session_have_words_and_fields;
use config_store::laws::the_scripts_have_no_fault;
use config_store::{State, StoreRefusal, apply_lines, missing_state, read_state, save_lines};
use node_tree::Index;
use script_lang::laws::the_boards_of_a_session_have_their_own_names;
use script_lang::{Session, take_key};
use session_input::{
    Runnable, Stated, Unread, check_buses, indexes_of, parse_input, read_document,
};
use std::alloc::Global;
use toml::{Table, Value};

/// Reads a document to save the configuration of its boards (profile): the session that the bytes stand for, and the
/// steps that read every kept register, as client 1 under its policy; or else the first rule that is broken.
pub fn read_for_save(alloc: Global, bytes: &[u8]) -> Result<Runnable, ConfigUnread>
    ensures savable { IfOk result (λ read. spec.IsSavable bytes.now read.session read.steps.items) }
    ensures refused { IfErr result (spec.Tells (spec.BreaksInSave bytes.now)) }
    ensures within { IfOk result (λ read. IsWithin read.session) }
    // There is one client. Each operation of its steps can be packed, whatever packets its board takes, and there are not
    // too many.
    ensures alone { IfOk result (λ read. length read.steps.items ≡ 1) }
    ensures packed { IfOk result (λ read. AllByRecursion (AllByRecursion CanBePacked) read.steps.items) }
    ensures few { IfOk result (λ read. AllByRecursion HaveFewPieces read.steps.items) }
    ensures limits { IfOk result (λ read. AreWithinLimits read.steps.items) }
    ensures short { IfOk result (λ read. AllByRecursion (λ steps. length steps ≤ MAX_LINES) read.steps.items) }
{
    let document = parse_input(alloc, bytes)?;
    save_document(alloc, document)
}

/// Reads a document to apply the values under its key `state` (profile): the session that the rest of the bytes stands
/// for, and the steps that write each value and then read every kept register, as client 1 under its policy; or else the
/// first rule that is broken.
pub fn read_for_apply(alloc: Global, bytes: &[u8]) -> Result<Runnable, ConfigUnread>
    ensures applicable { IfOk result (λ read. spec.IsApplicable bytes.now read.session read.steps.items) }
    ensures refused { IfErr result (spec.Tells (spec.BreaksInApply bytes.now)) }
    ensures within { IfOk result (λ read. IsWithin read.session) }
    ensures alone { IfOk result (λ read. length read.steps.items ≡ 1) }
    ensures packed { IfOk result (λ read. AllByRecursion (AllByRecursion CanBePacked) read.steps.items) }
    ensures few { IfOk result (λ read. AllByRecursion HaveFewPieces read.steps.items) }
    ensures limits { IfOk result (λ read. AreWithinLimits read.steps.items) }
    ensures short { IfOk result (λ read. AllByRecursion (λ steps. length steps ≤ MAX_LINES) read.steps.items) }
{
    let document = parse_input(alloc, bytes)?;
    apply_document(alloc, document)
}

/// Reads what `save` needs from a parsed document.
fn save_document(alloc: Global, document: Table) -> Result<Runnable, ConfigUnread>
    ensures asked { IfOk result (λ read. spec.IsAskedBy work.save_command (table_view document)
        read.session read.steps.items) }
    ensures refused { IfErr result (spec.Tells (spec.BreaksCommand work.save_command (table_view document))) }
    ensures within { IfOk result (λ read. IsWithin read.session) }
    ensures alone { IfOk result (λ read. length read.steps.items ≡ 1) }
    ensures packed { IfOk result (λ read. AllByRecursion (AllByRecursion CanBePacked) read.steps.items) }
    ensures few { IfOk result (λ read. AllByRecursion HaveFewPieces read.steps.items) }
    ensures limits { IfOk result (λ read. AreWithinLimits read.steps.items) }
    ensures short { IfOk result (λ read. AllByRecursion (λ steps. length steps ≤ MAX_LINES) read.steps.items) }
{
    let Stated { session, policy } = read_document(alloc, document)?;
    save_session(alloc, session, policy)
}

/// Reads what `apply` needs from a parsed document. The key of the values is taken out of the table, so that nothing is
/// copied.
fn apply_document(alloc: Global, document: Table) -> Result<Runnable, ConfigUnread>
    ensures asked { IfOk result (λ read. spec.IsAskedBy work.apply_command (table_view document)
        read.session read.steps.items) }
    ensures refused { IfErr result (spec.Tells (spec.BreaksCommand work.apply_command (table_view document))) }
    ensures within { IfOk result (λ read. IsWithin read.session) }
    ensures alone { IfOk result (λ read. length read.steps.items ≡ 1) }
    ensures packed { IfOk result (λ read. AllByRecursion (AllByRecursion CanBePacked) read.steps.items) }
    ensures few { IfOk result (λ read. AllByRecursion HaveFewPieces read.steps.items) }
    ensures limits { IfOk result (λ read. AreWithinLimits read.steps.items) }
    ensures short { IfOk result (λ read. AllByRecursion (λ steps. length steps ≤ MAX_LINES) read.steps.items) }
{
    let mut rest = document;
    let value = take_key(&mut rest, "state");
    let Stated { session, policy } = read_document(alloc, rest)?;
    apply_session(alloc, session, policy, &value)
}

/// Makes what `save` runs from a session and its policy.
fn save_session(
    alloc: Global,
    session: Session,
    policy: Option<Policy>,
) -> Result<Runnable, ConfigUnread>
    requires within { IsWithin session }
    requires document { IsOfDocument session }
    ensures session { IfOk result (λ read. read.session ≡ session) }
    ensures asked { IfOk result (λ read. spec.IsAsked work.saving session policy read.steps.items) }
    ensures refused { IfErr result (spec.Tells (spec.BreaksInWork work.saving session)) }
    ensures alone { IfOk result (λ read. length read.steps.items ≡ 1) }
    ensures packed { IfOk result (λ read. AllByRecursion (AllByRecursion CanBePacked) read.steps.items) }
    ensures few { IfOk result (λ read. AllByRecursion HaveFewPieces read.steps.items) }
    ensures limits { IfOk result (λ read. AreWithinLimits read.steps.items) }
    ensures short { IfOk result (λ read. AllByRecursion (λ steps. length steps ≤ MAX_LINES) read.steps.items) }
{
    the_scripts_have_no_fault();
    the_boards_of_a_session_have_their_own_names();
    the_boards_of_a_session_have_words_and_fields();
    let indexes = board_indexes(alloc, &session)?;
    let lines = save_lines(alloc, &session, &indexes)?;
    planned(alloc, session, policy, &indexes, lines)
}

/// Makes what `apply` runs from a session, its policy, and the value of the state where there is one.
fn apply_session(
    alloc: Global,
    session: Session,
    policy: Option<Policy>,
    value: &Option<Value>,
) -> Result<Runnable, ConfigUnread>
    requires within { IsWithin session }
    requires document { IsOfDocument session }
    ensures session { IfOk result (λ read. read.session ≡ session) }
    ensures asked { IfOk result (λ read. spec.IsAsked (work.applying (option_map view value.now)) session policy
        read.steps.items) }
    ensures refused { IfErr result (spec.Tells
        (spec.BreaksInWork (work.applying (option_map view value.now)) session)) }
    ensures alone { IfOk result (λ read. length read.steps.items ≡ 1) }
    ensures packed { IfOk result (λ read. AllByRecursion (AllByRecursion CanBePacked) read.steps.items) }
    ensures few { IfOk result (λ read. AllByRecursion HaveFewPieces read.steps.items) }
    ensures limits { IfOk result (λ read. AreWithinLimits read.steps.items) }
    ensures short { IfOk result (λ read. AllByRecursion (λ steps. length steps ≤ MAX_LINES) read.steps.items) }
{
    the_scripts_have_no_fault();
    the_boards_of_a_session_have_their_own_names();
    the_boards_of_a_session_have_words_and_fields();
    values_of_a_state_are_words();
    let indexes = board_indexes(alloc, &session)?;
    let state = state_of(alloc, value)?;
    let lines = apply_lines(alloc, &session, &indexes, &state)?;
    planned(alloc, session, policy, &indexes, lines)
}

/// The index of each board's table, where the boards' ranges are buses too.
fn board_indexes(alloc: Global, session: &Session) -> Result<Vec<Index>, Unread>
    ensures boards { IfOk result (λ indexes. HaveBuses session.now indexes.items) }
    ensures refused { IfErr result (input.Tells (spec.BreaksBoards session.now)) }
{
    let boards = session.boards.as_slice();
    let indexes = indexes_of(alloc, &session.tables, boards)?;
    check_buses(alloc, boards)?;
    Ok(indexes)
}

/// The values of a state.
fn state_of(alloc: Global, value: &Option<Value>) -> Result<State, StoreRefusal>
    ensures read { IfOk result (λ state. state ≡ work.entries_in (option_map view value.now)) }
    ensures ordered { IfOk result AreInOrder }
    ensures accepted { OnOk result (work.state_faults (option_map view value.now) ≡ []) }
    ensures refused { IfErr result (TellsFirst (work.state_faults (option_map view value.now))) }
{
    match value {
        Some(value) => read_state(alloc, value),
        None => Err(missing_state(alloc)),
    }
}
