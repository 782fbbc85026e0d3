//! The whole of a document.

ghost use Rattle.std.specs.Prelude.{◌≡◌, List, [], ◌∷◌, Err, IfOk, IfErr, OnOk, MatchResult, map};
ghost use Rattle.std.specs.List.{list_any};
ghost use Rattle.std.specs.Str.{bytes_eq};
ghost use Rattle.toml.specs.View.{table_view};
ghost use Rattle.script_lang.specs.Document as spec;
ghost use Rattle.script_lang.specs.Limits.{IsWithin};
ghost use Rattle.script_lang.specs.Paths.{path as path_text};
ghost use Rattle.script_lang.specs.Reading.{AreTables, TellsFirst};
ghost use Rattle.script_lang.specs.Sessions.{boards_of, format_of, tables_of};
ghost use Rattle.script_lang.specs.Walk.{Way as SpecWay};
ghost use Rattle.script_lang.specs.declared.refusal.DocWhy.TheVariants as whys;
ghost use Rattle.script_lang.specs.declared.refusal.SessionRefusal.TheVariants.{NoMemory as no_memory};
ghost use Rattle.script_lang.specs.declared.refusal.SessionRefusal.TheVariants as refusals;
ghost use Rattle.script_lang.specs.declared.session.Session.{Session as Sess};

use crate::boards::{boards, settings};
use crate::fields::items_at;
use crate::keys::Form;
use crate::refusal::{DocWhy, MAX_BOARDS, MAX_CLIENTS, SessionRefusal};
use crate::scripts::scripts;
use crate::session::{Boards, Session};
use crate::steps::Misfit;
use crate::tables::tables;
use crate::walk::check_table;
use board_specs::BoardSpec;
use ipb_base::{NoMemory, Text};
use node_tree::Tables;
use std::alloc::Global;
use toml::Table;

/// Reads a session document: TOML in UTF-8 (profile). The answer is the session that the bytes stand for, or else the
/// first fault of the document.
pub fn read_session(alloc: Global, bytes: &[u8]) -> Result<Session, SessionRefusal>
    ensures stands { IfOk result (spec.StandsFor bytes.now) }
    ensures only { (session : Sess) → spec.StandsFor bytes.now session
        → MatchResult result (λ read. spec.SameSession read session) (λ refusal. refusal ≡ no_memory) }
    ensures refused { IfErr result (spec.IsRefusal bytes.now) }
    // Each number is in its range, so that a session that was read meets what compiling it and running it ask for.
    ensures within { IfOk result IsWithin }
{
    match parse_document(alloc, bytes) {
        Ok(document) => read_session_table(alloc, document),
        Err(refusal) => Err(refusal),
    }
}

/// The document of a TOML text in UTF-8 (profile). The answer is the table that the bytes write, or else `NotToml`.
pub fn parse_document(alloc: Global, bytes: &[u8]) -> Result<Table, SessionRefusal>
    ensures document { IfOk result (λ document. spec.IsToml bytes.now (table_view document)) }
    ensures refused { IfErr result (spec.TellsNotToml bytes.now) }
{
    match toml::table_from_slice(alloc, bytes) {
        Ok(document) => Ok(document),
        Err(error) => {
            if error.is_memory() {
                Err(SessionRefusal::NoMemory)
            } else {
                Err(refused_whole(alloc, DocWhy::NotToml))
            }
        }
    }
}

/// Reads a session document that was parsed (profile). The answer is the session that it stands for, or else its first
/// fault. The lines of the scripts are moved out of the table, so that none is copied.
pub fn read_session_table(alloc: Global, document: Table) -> Result<Session, SessionRefusal>
    ensures found { IfOk result (spec.IsSession (table_view document)) }
    ensures only { (session : Sess) → spec.IsSession (table_view document) session
        → MatchResult result (λ read. spec.SameSession read session) (λ refusal. refusal ≡ no_memory) }
    ensures refused { IfErr result (spec.TellsFault (spec.faults (table_view document))) }
    ensures within { IfOk result IsWithin }
{
    session(alloc, document)
}

/// A refusal of the document as a whole.
fn refused_whole(alloc: Global, why: DocWhy) -> SessionRefusal
    ensures { result ≡ refusals.Document [] why }
{
    SessionRefusal::Document {
        path: Text::from_string(String::new(alloc)),
        why,
    }
}

/// The session that a parsed document stands for. What may refuse the document only borrows it.
fn session(alloc: Global, document: Table) -> Result<Session, SessionRefusal>
    ensures found { IfOk result (spec.IsSession (table_view document)) }
    ensures first { IfErr result (spec.TellsFault (spec.faults (table_view document))) }
{
    let settings = settings(&document);
    match tables_and_boards(alloc, &document) {
        Ok((tables, boards)) => match scripts(alloc, document) {
            Ok(scripts) => Ok(Session {
                settings,
                tables,
                boards,
                scripts,
            }),
            Err(NoMemory) => Err(SessionRefusal::NoMemory),
        },
        Err(refusal) => Err(refusal),
    }
}

/// The tables and the boards of a document, or its first fault.
fn tables_and_boards(alloc: Global, document: &Table) -> Result<(Tables, Boards), SessionRefusal>
    ensures none { OnOk result (spec.faults (table_view document.now) ≡ []) }
    ensures tables { let ms = table_view document.now in
        IfOk result (λ both. AreTables (format_of ms) (tables_of ms) both.0) }
    ensures boards { IfOk result (λ both. both.1 ≡ boards_of (table_view document.now)) }
    ensures first { IfErr result (spec.TellsFault (spec.faults (table_view document.now))) }
{
    check_shape(alloc, document)?;
    check_counts(alloc, document)?;
    let boards = boards(alloc, document)?;
    check_names(alloc, boards.as_slice())?;
    match tables(alloc, document) {
        Ok(tables) => Ok((tables, boards)),
        Err(refusal) => Err(refusal),
    }
}

/// The kinds and the rules of all values.
fn check_shape(alloc: Global, document: &Table) -> Result<(), SessionRefusal>
    ensures none { OnOk result (spec.misfits (table_view document.now) ≡ []) }
    ensures first { IfErr result (spec.TellsFault (spec.misfits (table_view document.now))) }
{
    match check_table(alloc, Form::Document, document) {
        Ok(()) => Ok(()),
        Err(misfit) => Err(refused_shape(alloc, misfit)),
    }
}

fn refused_shape(alloc: Global, misfit: Misfit) -> SessionRefusal
    ensures { (ways : List SpecWay) → TellsFirst ways misfit
        → spec.TellsFault (map (λ way. spec.in_document (path_text way) whys.Shape) ways) result }
{
    match misfit {
        Misfit::At(way) => match way.path(alloc) {
            Ok(path) => SessionRefusal::Document {
                path,
                why: DocWhy::Shape,
            },
            Err(_) => SessionRefusal::NoMemory,
        },
        Misfit::NoMemory => SessionRefusal::NoMemory,
    }
}

/// How many boards and clients there are.
fn check_counts(alloc: Global, document: &Table) -> Result<(), SessionRefusal>
    ensures none { OnOk result (spec.size_faults (table_view document.now) ≡ []) }
    ensures first { IfErr result (spec.TellsFault (spec.size_faults (table_view document.now))) }
{
    let boards = items_at(document, "board").len();
    let clients = items_at(document, "client").len();
    if boards == 0 {
        return Err(refused_whole(alloc, DocWhy::NoBoards));
    }
    if boards > MAX_BOARDS {
        return Err(refused_whole(alloc, DocWhy::ManyBoards));
    }
    if clients > MAX_CLIENTS {
        return Err(refused_whole(alloc, DocWhy::ManyClients));
    }
    Ok(())
}

/// No board has the name of an earlier one.
fn check_names(alloc: Global, boards: &[BoardSpec]) -> Result<(), SessionRefusal>
    ensures none { OnOk result (spec.duplicates [] 0 boards.now ≡ []) }
    ensures first { IfErr result (spec.TellsFault (spec.duplicates [] 0 boards.now)) }
{
    for (i, board) in boards.iter().enumerate() {
        if has_name_of(&boards[..i], board) {
            return Err(refused_name(alloc, i as u64));
        }
    }
    Ok(())
}

/// Whether some board has the name of another.
fn has_name_of(boards: &[BoardSpec], named: &BoardSpec) -> bool
    ensures { result ≡ list_any (λ other. bytes_eq other.name named.now.name) boards.now }
{
    for other in boards {
        if other.name.as_slice() == named.name.as_slice() {
            return true;
        }
    }
    false
}

/// A refusal of the name of a board.
fn refused_name(alloc: Global, board: u64) -> SessionRefusal
    ensures { spec.TellsFault (spec.duplicate_at board ∷ []) result }
{
    match format!(in alloc; "board.{board}.name") {
        Ok(path) => SessionRefusal::Document {
            path: Text::from_string(path),
            why: DocWhy::DuplicateBoard,
        },
        Err(_) => SessionRefusal::NoMemory,
    }
}
