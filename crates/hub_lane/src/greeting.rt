//! The greeting of a board: its link is asked for its status, round by round, until the board tells it.

ghost use Rattle.std.specs.Prelude.{◌≡◌, ◌≤◌, ◌+◌, ◌*◌, ℕ, None, IfSome, IfOk, OnErr, Err};
ghost use Rattle.ipb_base.specs.Faults.{Rose};
ghost use Rattle.ipb_base.specs.Numbers.{most_others};
ghost use Rattle.world_model.specs.Messages.{to_hub};
ghost use Rattle.links.specs.Receives.{first_status, receives_in};
ghost use Rattle.links.specs.Telling.{IfTelling};
ghost use Rattle.packet_ids.specs.Identifier.{IsIdentifier};
ghost use Rattle.status_packet.specs.Range.{IsBufferCount, IsMtu};
ghost use Rattle.status_packet.specs.StatusBytes.{IsStatusReply};
ghost use Rattle.hub_lane.specs.Greeting.{CanBegin, CountsAnswer, CountsNoAnswer, CountsRound, EndsAskingWith, EndsRound};
ghost use Rattle.hub_lane.specs.Greeting.{EndsGreetingWith, EndsRoundWith, EndsWithDatagram, HandedOutNone};
ghost use Rattle.hub_lane.specs.Greeting.{HasAskedAtMost, HasAskedNothing, IfDown, IfNotTold, IfNothing, IfReady};
ghost use Rattle.hub_lane.specs.Greeting.{IfSilent, IfTold, IsDatagram, IsHeardFrom, IsSaid, IsTold, IsUnused};
ghost use Rattle.hub_lane.specs.Greeting.{IsWithinRounds, StaysFresh, link_of, status_in};
ghost use Rattle.hub_lane.specs.Heard.{EndWith, EndsWithStatus};
ghost use Rattle.hub_lane.specs.Lanes.{IsGreeted, new_lane, status_of};
ghost use Rattle.hub_lane.specs.Run.{AreVainRounds, IsGreetingCutOff, IsGreetingOf, PassesAnswer, PassesHeard};
ghost use Rattle.hub_lane.specs.Run.{PassesNoneYet, PassesRound, PassesRoundCutOff};

use crate::lane::Lane;
use links::{Link, LinkFault, Received};
use reliable_engine::Settings;
use status_packet::laws::what_is_written_is_known;
use status_packet::{Status, read_status_reply, write_status_request};
use std::alloc::Global;
use world_model::laws::links::{a_greeting_goes_on, a_link_forgets_nothing};
use world_model::laws::reading::what_a_hub_reads;

/// After so many datagrams that tell no status a round of a greeting ends (profile).
pub const MOST_OTHERS: usize = 64;

/// What a greeting came to (profile).
#[derive(Drop)]
pub enum Greeted<L: Link> {
    /// The board told its status.
    Ready(Lane<L>),
    /// It told none in any round.
    Silent { link: L, rounds: u8 },
    /// The link failed before the board told its status.
    Down { link: L },
    /// Memory ran out before the board told its status.
    NoMemory { link: L },
}

/// What one receive of a greeting came to.
#[derive(Clone, Copy, PartialEq, Eq)]
pub(crate) enum Answer {
    /// The board told this status.
    Told(Status),
    /// No datagram came in the time that the link waits.
    Nothing,
    /// A datagram came that tells no status.
    Other,
}

impl<L: Link> Lane<L> {
    /// Greets the board of a link that was not used yet: asks for its status and receives until it is told, a receive
    /// is quiet or `MOST_OTHERS` other datagrams came, and so again, at most as many rounds as the settings say. After
    /// any answer a board that the link tells has executed nothing. The lane begins right behind the first datagram
    /// that tells a status, and no board is called silent or down that told one.
    pub fn greet(alloc: Global, link: L, settings: Settings) -> Greeted<L>
        requires unused { IsUnused L.Link link }
        requires begins { IfSome (L.telling link) (CanBegin settings) }
        ensures fresh { IfTelling (L.telling link) (L.telling (link_of result)) (StaysFresh settings) }
        ensures ready { IfReady result (λ lane. lane ≡ new_lane (L.number lane.link) lane.link settings lane.status) }
        ensures told { IfReady result (λ lane. IfSome (L.telling lane.link) (IsGreeted settings lane.status)) }
        ensures first { IfReady result (λ lane. EndsWithDatagram L.Link lane.status lane.link) }
        ensures none_told { IfSilent result (λ link rounds. first_status (receives_in (L.traffic link)) ≡ None) }
        ensures down_none_told { IfDown result (λ link. first_status (receives_in (L.traffic link)) ≡ None) }
        ensures silent { IfSilent result (λ link rounds. (rounds ≡ settings.rounds)
            × (most_others * settings.rounds ≤ most_others * L.quiets link + L.gots link)) }
        ensures silent_told { IfSilent result (λ link rounds. IfSome (L.telling link)
            (λ _. (settings.rounds ≤ L.quiets link) × (settings.rounds ≤ L.held link))) }
        // All that a link that tells hands out in a greeting are status replies of its board.
        ensures silent_heard { IfSilent result (λ after rounds.
            IfTelling (L.telling link) (L.telling after) HandedOutNone) }
        // A board that told no status was sent its status requests and nothing else.
        ensures silent_asked { IfSilent result (λ after rounds. AreVainRounds settings.rounds (L.traffic after)) }
        ensures down_asked { IfDown result (λ after. IsGreetingCutOff settings.rounds (L.traffic after)) }
        // The board is asked once a round: for each quiet receive, and once more.
        ensures asked { IfTelling (L.telling link) (L.telling (link_of result))
            (HasAskedAtMost (L.quiets (link_of result) + 1)) }
        ensures most { IsWithinRounds L.Link settings.rounds (link_of result) }
        ensures down { IfDown result (λ after. Rose (L.faults link) (L.faults after)) }
        ensures faults { L.faults link ≤ L.faults (link_of result) }
        ensures number { L.number (link_of result) ≡ L.number link }
    {
        let mut link = link;
        let mut buffer = Vec::new(alloc);
        match ask_for_status(&mut link, &mut buffer, settings) {
            Ok(Some(status)) => begin(alloc, link, settings, status),
            Ok(None) => Greeted::Silent {
                link,
                rounds: settings.rounds(),
            },
            Err(LinkFault::Failed) => Greeted::Down { link },
            Err(LinkFault::NoMemory) => Greeted::NoMemory { link },
        }
    }
}

/// The lane of a link whose board told its status.
fn begin<L: Link>(alloc: Global, link: L, settings: Settings, status: Status) -> Greeted<L>
    requires greeted { IfSome (L.telling link) (IsGreeted settings (status_of status)) }
    requires heard { 1 ≤ L.gots link }
    requires first { EndsWithStatus (status_of status) (receives_in (L.traffic link)) }
    requires passed { IsGreetingOf settings.rounds (status_of status) (L.traffic link) }
    ensures same { link_of result ≡ link }
    ensures ready { IfReady result (λ lane. lane ≡ new_lane (L.number link) link settings (status_of status)) }
    ensures silent { IfSilent result (λ link rounds. ⊥) }
    ensures down { IfDown result (λ link. ⊥) }
{
    match Lane::new(alloc, link, settings, status) {
        Ok(lane) => Greeted::Ready(lane),
        Err(link) => Greeted::NoMemory { link },
    }
}

/// Asks for the status of the board, round by round.
fn ask_for_status<L: Link>(
    link: &mut L,
    buffer: &mut Vec<u8>,
    settings: Settings,
) -> Result<Option<Status>, LinkFault>
    requires unused { IsUnused L.Link link.old }
    requires begins { IfSome (L.telling link.old) (CanBegin settings) }
    ensures fresh { IfTelling (L.telling link.old) (L.telling link.new) (StaysFresh settings) }
    ensures told { IfOk result (λ found. IfSome (L.telling link.new)
        (EndsGreetingWith settings (L.quiets link.new) (L.held link.new) found)) }
    ensures silent { IfOk result (λ found. IfNotTold found
        (most_others * settings.rounds ≤ most_others * L.quiets link.new + L.gots link.new)) }
    ensures handed { IfOk result (λ found. IfNotTold found
        (IfTelling (L.telling link.old) (L.telling link.new) HandedOutNone)) }
    ensures heard { IfOk result (λ found. IfSome found (λ _. 1 ≤ L.gots link.new)) }
    ensures receives { IfOk result (λ found. EndWith found (receives_in (L.traffic link.new))) }
    ensures passed { IfOk result (λ found. IfSome found
        (λ status. IsGreetingOf settings.rounds (status_of status) (L.traffic link.new))) }
    ensures in_vain { IfOk result (λ found. IfNotTold found (AreVainRounds settings.rounds (L.traffic link.new))) }
    ensures cut_off { OnErr result (IsGreetingCutOff settings.rounds (L.traffic link.new)) }
    ensures none_told { OnErr result (first_status (receives_in (L.traffic link.new)) ≡ None) }
    ensures asked { IfTelling (L.telling link.old) (L.telling link.new)
        (HasAskedAtMost (L.quiets link.new + 1)) }
    ensures most { IsWithinRounds L.Link settings.rounds link.new }
    ensures number { L.number link.new ≡ L.number link.old }
    ensures failed { result ≡ Err LinkFault.Failed → Rose (L.faults link.old) (L.faults link.new) }
    ensures faults { L.faults link.old ≤ L.faults link.new }
{
    for round in 0..settings.rounds() {
        if let Some(status) = ask_once(link, buffer, settings)? {
            return Ok(Some(status));
        }
    }
    Ok(None)
}

/// One round: asks for the status, and listens.
fn ask_once<L: Link>(
    link: &mut L,
    buffer: &mut Vec<u8>,
    settings: Settings,
) -> Result<Option<Status>, LinkFault>
    requires few_quiets { L.quiets link.old ≤ 255 }
    requires few_gots { L.gots link.old ≤ most_others * 255 }
    requires untold { first_status (receives_in (L.traffic link.old)) ≡ None }
    requires begins { IfSome (L.telling link.old) (CanBegin settings) }
    ensures fresh { IfTelling (L.telling link.old) (L.telling link.new) (StaysFresh settings) }
    ensures asked { IfTelling (L.telling link.old) (L.telling link.new) (HasAskedAtMost 1) }
    ensures told { IfOk result (λ found. IfTelling (L.telling link.old) (L.telling link.new)
        (EndsAskingWith settings (L.quiets link.old) (L.quiets link.new) (L.held link.old) (L.held link.new) found)) }
    ensures ended { IfOk result (λ found. EndsRound L.Link found link.old link.new) }
    ensures passed { IfOk result (λ found. PassesRound found (L.traffic link.old) (L.traffic link.new)) }
    ensures cut_off { OnErr result (PassesRoundCutOff (L.traffic link.old) (L.traffic link.new)) }
    ensures none_told { OnErr result (first_status (receives_in (L.traffic link.new)) ≡ None) }
    ensures counts { CountsRound L.Link link.old link.new }
    ensures failed { result ≡ Err LinkFault.Failed → Rose (L.faults link.old) (L.faults link.new) }
{
    a_greeting_goes_on();
    let request = write_status_request();
    link.send(&request)?;
    listen(link, buffer, settings)
}

/// Receives until the board tells its status, a receive is quiet, or `MOST_OTHERS` other datagrams came.
fn listen<L: Link>(
    link: &mut L,
    buffer: &mut Vec<u8>,
    settings: Settings,
) -> Result<Option<Status>, LinkFault>
    requires few_quiets { L.quiets link.old ≤ 255 }
    requires few_gots { L.gots link.old ≤ most_others * 255 }
    requires untold { first_status (receives_in (L.traffic link.old)) ≡ None }
    requires begins { IfSome (L.telling link.old) (CanBegin settings) }
    ensures fresh { IfTelling (L.telling link.old) (L.telling link.new) (StaysFresh settings) }
    ensures asked { IfTelling (L.telling link.old) (L.telling link.new) HasAskedNothing }
    ensures told { IfOk result (λ found. IfTelling (L.telling link.old) (L.telling link.new)
        (EndsRoundWith settings (L.quiets link.old) (L.quiets link.new) (L.held link.old) (L.held link.new) found)) }
    ensures ended { IfOk result (λ found. EndsRound L.Link found link.old link.new) }
    ensures passed { IfOk result (λ found. PassesHeard found (L.traffic link.old) (L.traffic link.new)) }
    ensures cut_off { OnErr result (PassesNoneYet (L.traffic link.old) (L.traffic link.new)) }
    ensures none_told { OnErr result (first_status (receives_in (L.traffic link.new)) ≡ None) }
    ensures counts { CountsRound L.Link link.old link.new }
    ensures failed { result ≡ Err LinkFault.Failed → Rose (L.faults link.old) (L.faults link.new) }
{
    for other in 0..MOST_OTHERS {
        match hear_once(link, buffer, settings)? {
            Answer::Told(status) => return Ok(Some(status)),
            Answer::Nothing => return Ok(None),
            Answer::Other => {}
        }
    }
    Ok(None)
}

/// Receives one datagram, and tells whether it is the status of the board.
fn hear_once<L: Link>(
    link: &mut L,
    buffer: &mut Vec<u8>,
    settings: Settings,
) -> Result<Answer, LinkFault>
    requires begins { IfSome (L.telling link.old) (CanBegin settings) }
    requires untold { first_status (receives_in (L.traffic link.old)) ≡ None }
    ensures fresh { IfTelling (L.telling link.old) (L.telling link.new) (StaysFresh settings) }
    ensures asked { IfTelling (L.telling link.old) (L.telling link.new) HasAskedNothing }
    ensures receives { IfOk result (λ heard. EndWith (status_in heard) (receives_in (L.traffic link.new))) }
    ensures passed { IfOk result (λ heard. PassesAnswer heard (L.traffic link.old) (L.traffic link.new)) }
    ensures cut_off { OnErr result (L.traffic link.new ≡ L.traffic link.old) }
    ensures none_told { OnErr result (first_status (receives_in (L.traffic link.new)) ≡ None) }
    ensures told { IfOk result (λ heard. IfTelling (L.telling link.old) (L.telling link.new)
        (IsHeardFrom settings (L.held link.old) (L.held link.new) heard)) }
    ensures counted { IfOk result (λ heard. CountsAnswer L.Link heard link.old link.new) }
    ensures uncounted { OnErr result (CountsNoAnswer L.Link link.old link.new) }
    ensures handed { IfOk result (λ heard. IfNothing heard
        (IfTelling (L.telling link.old) (L.telling link.new) HandedOutNone)) }
    ensures failed { result ≡ Err LinkFault.Failed → Rose (L.faults link.old) (L.faults link.new) }
    ensures faults { L.faults link.old ≤ L.faults link.new }
    ensures held { L.held link.old ≤ L.held link.new }
{
    a_greeting_goes_on();
    a_link_forgets_nothing();
    what_is_written_is_known();
    match link.receive(buffer)? {
        Received::Quiet => Ok(Answer::Nothing),
        Received::Got => Ok(tell(buffer)),
    }
}

/// What a datagram tells.
fn tell(bytes: &[u8]) -> Answer
    ensures datagram { IsDatagram result }
    ensures said { IsSaid (to_hub bytes.now) result }
    ensures found { IfTold result (λ status. IsStatusReply bytes.now status.mtu status.buffers status.next) }
    ensures only { (mtu buffers next : ℕ) → IsMtu mtu → IsBufferCount buffers → IsIdentifier next
        → IsStatusReply bytes.now mtu buffers next → IsTold mtu buffers next result }
{
    what_a_hub_reads();
    match read_status_reply(bytes) {
        Ok(status) => {
            let _next = status.next.get();
            Answer::Told(status)
        }
        Err(_bad) => Answer::Other,
    }
}
