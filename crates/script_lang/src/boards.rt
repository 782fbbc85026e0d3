//! The settings and the boards of a document.

ghost use Rattle.std.specs.Prelude.{◌≡◌, IfOk, map, codes};
ghost use Rattle.toml.specs.View.{view, table_view};
ghost use Rattle.script_lang.specs.Fields.{number_at as number_there, numbers_in, tables_in};
ghost use Rattle.script_lang.specs.Keys.{sim_keys};
ghost use Rattle.script_lang.specs.Sessions as spec;

use crate::fields::{has_key, is_udp, items_at, number_at, text_at};
use crate::keys::Form;
use crate::session::Boards;
use crate::texts::{endpoint, range_kind_named};
use address_table::number;
use board_bus::{Range, RangeKind};
use board_specs::{BoardSpec, Fates, LinkSpec, Ranges};
use ipb_base::{NoMemory, Text, Words};
use packet_ids::Id;
use std::alloc::Global;
use toml::{Table, Value};
use world_model::Settings;

/// The settings of a document.
pub(crate) fn settings(document: &Table) -> Settings
    ensures { result ≡ spec.settings_of (table_view document.now) }
{
    let rounds = number_at(Form::Document, document, "rounds") as u8;
    let window = number_at(Form::Document, document, "window") as u8;
    Settings::new(rounds, window).unwrap()
}

/// The numbers of an array.
fn numbers(alloc: Global, items: &[Value]) -> Result<Words, NoMemory>
    ensures { IfOk result (λ words. words ≡ numbers_in (map view items.now)) }
{
    let mut words = Vec::with_capacity(alloc, items.len())?;
    for item in items {
        if let Some(word) = number(item) {
            words.push(word)?;
        }
    }
    Ok(Words::from_vec(words))
}

fn range(alloc: Global, members: &Table) -> Result<Range, NoMemory>
    ensures { IfOk result (λ range. range ≡ spec.range_of (table_view members.now)) }
{
    Ok(Range {
        base: number_at(Form::Range, members, "base"),
        size: number_at(Form::Range, members, "size"),
        kind: range_kind_named(text_at(members, "kind")).unwrap_or(RangeKind::Rw),
        init: numbers(alloc, items_at(members, "init"))?,
    })
}

fn ranges(alloc: Global, items: &[Value]) -> Result<Ranges, NoMemory>
    ensures { IfOk result (λ ranges. ranges ≡ tables_in spec.range_of (map view items.now)) }
{
    let mut ranges = Vec::with_capacity(alloc, items.len())?;
    for item in items {
        if let Some(members) = item.as_table() {
            ranges.push(range(alloc, members)?)?;
        }
    }
    Ok(Ranges::from_vec(ranges))
}

fn fates(alloc: Global, members: &Table) -> Result<Fates, NoMemory>
    ensures { IfOk result (λ fates. fates ≡ spec.fates_of (table_view members.now)) }
{
    if has_key(members, "noise") {
        return Ok(Fates::Noise(u64::from(number_at(Form::NoisyBoard, members, "noise"))));
    }
    Ok(Fates::Text(Text::copy_of(alloc, text_at(members, "fates"))?))
}

/// The identifier that a simulated board expects first.
fn first(members: &Table) -> Id
    ensures { result ≡ number_there sim_keys (codes "first") (table_view members.now) }
{
    let first = number_at(Form::SimBoard, members, "first") as u16;
    Id::new(first).unwrap()
}

fn sim(alloc: Global, members: &Table) -> Result<LinkSpec, NoMemory>
    ensures { IfOk result (λ link. link ≡ spec.sim_of (table_view members.now)) }
{
    Ok(LinkSpec::Sim {
        mtu: number_at(Form::SimBoard, members, "mtu"),
        buffers: number_at(Form::SimBoard, members, "buffers"),
        first: first(members),
        ranges: ranges(alloc, items_at(members, "ranges"))?,
        fates: fates(alloc, members)?,
    })
}

fn udp(members: &Table) -> LinkSpec
    ensures { result ≡ spec.udp_of (table_view members.now) }
{
    let text = text_at(members, "address");
    let (address, port) = endpoint(text.as_bytes()).unwrap_or(([0; 4], 0));
    LinkSpec::Udp {
        address,
        port,
        wait: number_at(Form::UdpBoard, members, "wait"),
    }
}

fn link(alloc: Global, members: &Table) -> Result<LinkSpec, NoMemory>
    ensures { let ms = table_view members.now in
        IfOk result (λ link. link ≡ spec.link_of ms) }
{
    if is_udp(members) {
        return Ok(udp(members));
    }
    sim(alloc, members)
}

fn board(alloc: Global, members: &Table) -> Result<BoardSpec, NoMemory>
    ensures { IfOk result (λ board. board ≡ spec.board_of (table_view members.now)) }
{
    Ok(BoardSpec {
        name: Text::copy_of(alloc, text_at(members, "name"))?,
        table: Text::copy_of(alloc, text_at(members, "table"))?,
        link: link(alloc, members)?,
    })
}

/// The boards of a document.
pub(crate) fn boards(alloc: Global, document: &Table) -> Result<Boards, NoMemory>
    ensures { IfOk result (λ boards. boards ≡ spec.boards_of (table_view document.now)) }
{
    each_board(alloc, items_at(document, "board"))
}

fn each_board(alloc: Global, items: &[Value]) -> Result<Boards, NoMemory>
    ensures { IfOk result (λ boards. boards ≡ tables_in spec.board_of (map view items.now)) }
{
    let mut boards = Vec::with_capacity(alloc, items.len())?;
    for item in items {
        if let Some(members) = item.as_table() {
            boards.push(board(alloc, members)?)?;
        }
    }
    Ok(Boards::from_vec(boards))
}
