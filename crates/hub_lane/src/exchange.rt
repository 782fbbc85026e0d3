//! A hub over any link: what it sends, what it hears, and what that settles.

ghost use Rattle.std.specs.Prelude.{◌≡◌, ◌≤◌, ◌<◌, ◌+◌, ◌^◌, ℕ, true, false, [], None, Some, length, OnOk, OnErr, IfOk};
ghost use Rattle.std.specs.Prelude.{IfErr, IfSome, Err};
ghost use Rattle.packet_ids.specs.Identifier.{identifier_at};
ghost use Rattle.reliable_engine.specs.Answers.{body_count};
ghost use Rattle.world_model.specs.Messages.{Reply as ReplyTo, StatusReply, to_hub};
ghost use Rattle.world_model.specs.Hub.{IsDrained, hear_reply, hear_status, is_waiting, places, take_message};
ghost use Rattle.world_model.specs.Sends.{bytes_to_send, next_send};
ghost use Rattle.world_model.specs.Facts.{AreSendable, IsWindow};
ghost use Rattle.world_model.specs.Settings.{Limits};
ghost use Rattle.hub_lane.specs.Lanes.{IsReady};
ghost use Rattle.links.specs.declared.link.TheConstants.{MAX_DATAGRAM};
ghost use Rattle.links.specs.Messages.{IsWritable};
ghost use Rattle.links.specs.Telling.{IfTelling};
ghost use Rattle.hub_lane.specs.Carrying.{HasPut};
ghost use Rattle.hub_lane.specs.Exchange.{FailsUnheard, Hears, Settles, SettlesNothing, TellsExchange, TellsReceive};
ghost use Rattle.hub_lane.specs.Hearing.{IsHeardAs, hub_after};
ghost use Rattle.hub_lane.specs.Links.{CountsFaults, KeepsCounting, ReceivesNothing, ReceivesOnce};
ghost use Rattle.hub_lane.specs.Run.{IsUnheard, RunsTo, ending_by, passed_of};
ghost use Rattle.hub_lane.specs.Run as ends;
ghost use Rattle.hub_lane.specs.Sends.{HasSent, all_sent};
ghost use Rattle.hub_lane.specs.Rounds.{PaysOn, PaysRounds, RoundFor, Sends};
ghost use Rattle.hub_lane.specs.Standing.{GoesOn, IsRunning, StaysUnanswered, Stops};

use crate::answers::Pumped;
use crate::below::{laws_of_rounds, laws_of_runs, laws_of_ways};
use crate::outcomes::settle;
use crate::run_log::RunLog;
use ipb_base::{NoMemory, Words};
use lane_tables::OutcomeTable;
use links::laws::{
    a_send_leaves_the_fates, each_event_leads_to_a_state_of_a_run, what_is_wanted_can_be_written,
};
use links::{Link, LinkFault, Message, Received, append_sending, read_for_hub};
use packet_ids::{Id, place_of};
use reliable_engine::laws::draining_ends;
use reliable_engine::{Engine, Sending};
use status_packet::Status;
use std::alloc::Global;
use world_model::laws::links::a_link_forgets_nothing;
use world_model::laws::sends::only_an_offer_makes_more_bodies;

/// Sends all that the hub wants, receives once, and puts what that settled among the outcomes and the late answers.
/// Where the link or memory fails, some sends were taken from the hub, and nothing is settled.
pub(crate) fn exchange<L: Link>(
    first: Id,
    hub: &mut Engine,
    link: &mut L,
    buffer: &mut Vec<u8>,
    run: &mut RunLog,
    outcomes: &mut OutcomeTable,
    give_ups: &mut u64,
) -> Result<Pumped, LinkFault>
    requires ready { IsReady (length outcomes.old.items) hub.old }
    requires waits { is_waiting hub.old ≡ true }
    requires first { first ≡ hub.old.first }
    requires few { length outcomes.old.items ≤ 2 ^ 62 }
    requires few_give_ups { give_ups.old < 2 ^ 63 }
    ensures settled { IfOk result (λ pumped. Settles pumped buffer.new.items hub.old hub.new
        outcomes.old outcomes.new give_ups.old give_ups.new) }
    ensures unsettled { OnErr result
        (SettlesNothing hub.old hub.new outcomes.old outcomes.new give_ups.old give_ups.new) }
    ensures running { OnOk result ((limits : Limits)
        → IfSome (L.telling link.old) (IsRunning limits hub.old outcomes.old.items outcomes.old.lates)
        → IfSome (L.telling link.new) (IsRunning limits hub.new outcomes.new.items outcomes.new.lates)) }
    ensures pays { OnOk result ((limits : Limits) (mtu : ℕ)
        → IfSome (L.telling link.old) (IsRunning limits hub.old outcomes.old.items outcomes.old.lates)
        → IfSome (L.telling link.old) (PaysRounds mtu hub.old.rounds give_ups.old hub.old (L.held link.old))
        → IfSome (L.telling link.new) (PaysRounds mtu hub.old.rounds give_ups.new hub.new (L.held link.new))) }
    ensures told { IfOk result (λ pumped.
        TellsExchange L.Link pumped buffer.new.items hub.old hub.new link.old link.new) }
    ensures stopped { OnErr result (Stops (L.telling link.old) hub.old (L.telling link.new) hub.new) }
    ensures failed { result ≡ Err LinkFault.Failed → FailsUnheard L.Link hub.old hub.new link.old link.new }
    ensures counts { KeepsCounting L.Link link.old link.new }
    ensures received { IfOk result (λ pumped. ReceivesOnce L.Link pumped buffer.new.items link.old link.new) }
    ensures faults { CountsFaults L.Link result link.old link.new }
    ensures ran { IfOk result (λ pumped. RunsTo ends.GoesOn [] hub.old
        (hub_after pumped buffer.new.items (all_sent hub.old)) run.old run.new (L.traffic link.old)
        (L.traffic link.new)) }
    ensures cut { IfErr result (λ fault. RunsTo (ending_by fault) [] hub.old hub.new run.old run.new
        (L.traffic link.old) (L.traffic link.new)) }
{
    a_send_leaves_the_fates();
    each_event_leads_to_a_state_of_a_run();
    only_an_offer_makes_more_bodies();
    laws_of_runs();
    let alloc = *buffer.allocator();
    send_all(hub, link, buffer, run)?;
    let pumped = receive(alloc, first, hub, link, buffer)?;
    run.add_received(pumped, buffer);
    settle(hub, outcomes, give_ups, pumped);
    Ok(pumped)
}

/// Sends all that the hub wants, each written into `buffer`. Where the link refuses a send, it was taken from the hub
/// all the same.
pub(crate) fn send_all<L: Link>(
    hub: &mut Engine,
    link: &mut L,
    buffer: &mut Vec<u8>,
    run: &mut RunLog,
) -> Result<(), LinkFault>
    requires sent { AreSendable hub.old.sent }
    requires queue { AreSendable hub.old.queue }
    ensures all { OnOk result (hub.new ≡ all_sent hub.old) }
    ensures none { OnOk result (next_send hub.new ≡ None) }
    ensures some { HasSent hub.old hub.new }
    ensures running { OnOk result (GoesOn (L.telling link.old) hub.old (L.telling link.new) hub.new) }
    ensures unanswered { StaysUnanswered (L.telling link.old) hub.old (L.telling link.new) hub.new }
    ensures pays { OnOk result
        (PaysOn (L.telling link.old) hub.old (L.held link.old) (L.telling link.new) hub.new (L.held link.new)) }
    ensures round { OnOk result
        (RoundFor Sends (L.telling link.old) hub.old (L.held link.old) (L.telling link.new) hub.new (L.held link.new)) }
    ensures stopped { OnErr result (Stops (L.telling link.old) hub.old (L.telling link.new) hub.new) }
    ensures unreceived { ReceivesNothing L.Link link.old link.new }
    ensures faults { CountsFaults L.Link result link.old link.new }
    ensures put { OnOk result (IfTelling (L.telling link.old) (L.telling link.new) (HasPut hub.old hub.new)) }
    ensures ran { OnOk result (RunsTo ends.GoesOn [] hub.old hub.new run.old run.new (L.traffic link.old)
        (L.traffic link.new)) }
    ensures cut { IfErr result (λ fault. RunsTo (ending_by fault) [] hub.old hub.new run.old run.new
        (L.traffic link.old) (L.traffic link.new)) }
{
    a_send_leaves_the_fates();
    draining_ends();
    laws_of_rounds();
    laws_of_runs();
    laws_of_ways();
    each_event_leads_to_a_state_of_a_run();
    only_an_offer_makes_more_bodies();
    what_is_wanted_can_be_written();
    while let Some(send) = hub.next_send() {
        run.add_send();
        write_send(hub, send, buffer)?;
        link.send(buffer)?;
    }
    Ok(())
}

/// Writes a send that the hub wants into `buffer`, in place of what stood there. So a send takes memory only where it
/// is longer than all before.
fn write_send(hub: &Engine, send: Sending, buffer: &mut Vec<u8>) -> Result<(), NoMemory>
    requires { IsWritable hub.now send }
    ensures bytes { OnOk result (buffer.new.items ≡ bytes_to_send hub.now send) }
    ensures short { OnOk result (length buffer.new.items ≤ MAX_DATAGRAM) }
{
    buffer.clear();
    append_sending(buffer, hub, send)
}

/// Receives once, when all is sent, and has the hub hear what came. `buffer` then holds the datagram. `first` is the
/// identifier of place 1.
fn receive<L: Link>(
    alloc: Global,
    first: Id,
    hub: &mut Engine,
    link: &mut L,
    buffer: &mut Vec<u8>,
) -> Result<Pumped, LinkFault>
    requires none { next_send hub.old ≡ None }
    requires drained { IsDrained hub.old }
    requires waits { is_waiting hub.old ≡ true }
    requires first { first ≡ hub.old.first }
    requires window { IsWindow hub.old.window (length hub.old.sent) (places hub.old.open_places) }
    requires few { body_count hub.old ≤ 2 ^ 62 }
    ensures heard { IfOk result (λ pumped. Hears pumped buffer.new.items hub.old hub.new) }
    ensures unheard { OnErr result (hub.new ≡ hub.old) }
    ensures running { GoesOn (L.telling link.old) hub.old (L.telling link.new) hub.new }
    ensures told { IfOk result (λ pumped.
        TellsReceive L.Link pumped buffer.new.items hub.old hub.new link.old link.new) }
    ensures failed { result ≡ Err LinkFault.Failed → FailsUnheard L.Link hub.old hub.new link.old link.new }
    ensures counts { KeepsCounting L.Link link.old link.new }
    ensures received { IfOk result (λ pumped. ReceivesOnce L.Link pumped buffer.new.items link.old link.new) }
    ensures faults { CountsFaults L.Link result link.old link.new }
    ensures passed { IfOk result (λ pumped. L.traffic link.new ≡ passed_of pumped buffer.new.items (L.traffic link.old)) }
    ensures lost { IfErr result (λ fault. IsUnheard fault (L.traffic link.old) (L.traffic link.new)) }
{
    each_event_leads_to_a_state_of_a_run();
    laws_of_rounds();
    laws_of_ways();
    a_link_forgets_nothing();
    match link.receive(buffer)? {
        Received::Got => Ok(hear(alloc, first, hub, buffer)?),
        Received::Quiet => {
            hub.on_quiet();
            Ok(Pumped::Quiet)
        }
    }
}

/// Hears a datagram that the link handed out. `first` is the identifier of place 1. Where memory ran out the hub has
/// not heard it.
fn hear(alloc: Global, first: Id, hub: &mut Engine, bytes: &[u8]) -> Result<Pumped, NoMemory>
    requires first { first ≡ hub.old.first }
    requires window { IsWindow hub.old.window (length hub.old.sent) (places hub.old.open_places) }
    requires few { body_count hub.old ≤ 2 ^ 62 }
    ensures heard { IfOk result (IsHeardAs hub.old (to_hub bytes.now)) }
    ensures hub { OnOk result (hub.new ≡ take_message hub.old (to_hub bytes.now)) }
    ensures unchanged { OnErr result (hub.new ≡ hub.old) }
{
    match read_for_hub(alloc, bytes)? {
        Message::Reply { id, words } => Ok(hear_reply(first, hub, id, words)),
        Message::Status(status) => Ok(hear_status(hub, &status)),
        Message::Other => Ok(Pumped::Stray),
    }
}

/// Hears a control packet that may be the reply of an open place.
fn hear_reply(first: Id, hub: &mut Engine, id: Id, words: Words) -> Pumped
    requires first { first ≡ hub.old.first }
    requires window { IsWindow hub.old.window (length hub.old.sent) (places hub.old.open_places) }
    requires few { body_count hub.old ≤ 2 ^ 62 }
    ensures heard { IsHeardAs hub.old (Some (ReplyTo id words)) result }
    ensures hub { hub.new ≡ hear_reply hub.old id words }
{
    let named = last_with(first, hub.sent(), id);
    if !hub.on_reply(id, words) {
        return Pumped::Stray;
    }
    match named {
        Some(place) => Pumped::Reply { place },
        None => unreachable!(),
    }
}

/// The place with an identifier among the last ones, as many as a window may have.
fn last_with(first: Id, sent: u64, id: Id) -> Option<u64>
    requires { sent ≤ 2 ^ 62 }
    ensures { (place : ℕ) → 1 ≤ place → place ≤ sent → sent < place + 16 → identifier_at first place ≡ id
        → result ≡ Some place }
{
    let low = sent.saturating_sub(15).max(1);
    place_of(first, low, sent + 1 - low, id)
}

/// Hears a status reply.
fn hear_status(hub: &mut Engine, status: &Status) -> Pumped
    ensures heard { IsHeardAs hub.old (Some (StatusReply status.now.mtu status.now.buffers status.now.next)) result }
    ensures hub { hub.new ≡ hear_status hub.old status.now.next }
{
    if hub.on_status(status) {
        Pumped::Status
    } else {
        Pumped::Stray
    }
}
