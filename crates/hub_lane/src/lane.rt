//! A lane: the engine and the link of one board, and the record of what clients asked of it.

ghost use Rattle.std.specs.Prelude.{◌≡◌, ◌≤◌, ◌<◌, ◌⊎◌, ◌*◌, ℕ, true, false, length, map, count_by, OnOk, OnErr};
ghost use Rattle.std.specs.Prelude.{◌↔◌, IfOk, IfErr, IsTrue};
ghost use Rattle.std.specs.Prelude.{IfSome, IfNone, MatchOption, Err, List, if◌then◌else◌, Some, None};
ghost use Rattle.ipb_base.specs.Numbers.{payload_of};
ghost use Rattle.transaction_codec.specs.Answer.{reply_room};
ghost use Rattle.packet_codec.specs.declared.packet.TheConstants.{MAX_BODY_WORDS};
ghost use Rattle.lane_record.specs.Bounds.{HasReached, timeouts};
ghost use Rattle.lane_record.specs.Coding.{entry_of};
ghost use Rattle.lane_record.specs.Lates.{late_in};
ghost use Rattle.world_model.specs.Hub.{offer};
ghost use Rattle.hub_lane.specs.Plans.{CanPlan, IsRefused, Plans};
ghost use Rattle.links.specs.Receives.{receives_in};
ghost use Rattle.links.specs.Telling.{IfTelling};
ghost use Rattle.hub_lane.specs.Carrying.{HasPut, Pumping};
ghost use Rattle.lane_tables.specs.Planned.{LeavesRoom};
ghost use Rattle.lane_tables.specs.Taken.{IsAllTaken};
ghost use Rattle.hub_lane.specs.Greeting.{IsUnused};
ghost use Rattle.hub_lane.specs.Heard.{EndsWithStatus, HasHeard, HasListened};
ghost use Rattle.hub_lane.specs.Calls.{Asking, AsksAs, IsReplyAt, IsSameRecord, IsSpent, OffersAs, PumpsAs, SendsAs};
ghost use Rattle.hub_lane.specs.Calls.{TakesAs, WasAsked, has_stopped};
ghost use Rattle.hub_lane.specs.Calls.{is_lost_at_place, is_replied, with_seal};
ghost use Rattle.hub_lane.specs.Lanes.{IsGreeted, IsLane, new_lane, opening_of, status_of, with_link};
ghost use Rattle.hub_lane.specs.Links.{CountsPump, IsDownByFault, KeepsCounting, ReceivesNothing, ShowsTheSame};
ghost use Rattle.hub_lane.specs.Rounds.{LaneRound, Pumps, Sends};
ghost use Rattle.hub_lane.specs.Run.{HasRun, IsGreetingOf};

use crate::answers::{Asked, PlanRefusal, Pumped, Taken};
use crate::below::{laws_of_late_answers, laws_of_pumps, laws_of_rounds, laws_of_runs};
use crate::exchange::{exchange, send_all};
use crate::outcomes::{copy_outcome, copy_words, count_of, lose_all, reply_under};
use crate::run_log::RunLog;
use ipb_base::{NoMemory, Words};
use lane_record::Outcome;
use lane_record::laws::book::entries_go_into_the_book;
use lane_record::laws::entries::an_ask_is_of_its_plan;
use lane_record::laws::offers::{a_failed_link_loses_what_waits, an_ask_is_an_offer};
use lane_tables::{Book, OutcomeTable};
use links::laws::each_event_leads_to_a_state_of_a_run;
use links::{Link, LinkFault, Waiter};
use packet_ids::Id;
use reliable_engine::{Engine, Settings};
use status_packet::Status;
use std::alloc::Global;
use std::marker::Model;
use std::snapshot::Snapshot;
use turn_pass::Entry;
use world_model::laws::sends::only_an_offer_makes_more_bodies;

/// The bytes of the headers of IPv4 and UDP (RFC 791, RFC 768).
const IP_UDP_BYTES: u32 = 28;

/// The hub's side of one board: its engine, its link, and the record of what clients planned, asked and took (profile).
/// Contracts see it as `LaneState`; what holds of it at the exit of every call is `IsLane`, which `is_sound` tells.
#[derive(Drop)]
pub struct Lane<L: Link> {
    alloc: Global,
    link: L,
    settings: Settings,
    mtu: u32,
    buffers: u32,
    first: Id,
    engine: Engine,
    buffer: Vec<u8>,
    pub(crate) book: Book,
    outcomes: OutcomeTable,
    give_ups: u64,
    run: RunLog,
    down: bool,
    spent: bool,
}

impl<L: Link> Model for Lane<L> {
    ghost use Rattle.std.specs.Prelude.{IfSome, ◌||◌};
    ghost use Rattle.links.specs.Receives.{receives_in};
    ghost use Rattle.hub_lane.specs.Heard.{HasHeard, HasListened};
    ghost use Rattle.hub_lane.specs.Lanes.{IsLane, LaneState};
    ghost use Rattle.hub_lane.specs.Rounds.{HasPaid};
    ghost use Rattle.hub_lane.specs.Run.{HasRun};

    ghost Value = { LaneState L };

    ghost view = { λ l. record {
      link = l.link;
      number = L.number l.link;
      settings = l.settings;
      status = record { mtu = l.mtu; buffers = l.buffers; next = l.first };
      hub = l.engine;
      items = l.book.items;
      outcomes = l.outcomes.items;
      lates = l.outcomes.lates;
      give_ups = l.give_ups;
      run = l.run;
      down = l.down;
      spent = l.spent;
    } };

    ghost invariant = { λ l. IsLane l.settings
        (record { mtu = l.mtu; buffers = l.buffers; next = l.first })
        l.engine l.book.items l.outcomes.items l.outcomes.lates l.give_ups l.down l.spent (L.telling l.link)
        (L.faults l.link) (L.quiets l.link)
        × IfSome (L.telling l.link)
        (HasPaid (l.down || l.spent) l.mtu l.settings.rounds l.give_ups l.engine (L.held l.link))
        × HasHeard l.outcomes.items (L.gots l.link)
        × HasListened (record { mtu = l.mtu; buffers = l.buffers; next = l.first }) l.engine l.outcomes.items
        l.outcomes.lates l.give_ups (receives_in (L.traffic l.link))
        × HasRun l.settings (record { mtu = l.mtu; buffers = l.buffers; next = l.first }) l.engine l.book.items
        l.outcomes.items l.outcomes.lates l.down l.spent l.run (L.traffic l.link) };
}

impl<L: Link> Lane<L> {
    /// What holds of every lane. It does nothing when it runs.
    pub fn is_sound(&self)
        ensures { IsLane self.now.settings self.now.status self.now.hub self.now.items self.now.outcomes
            self.now.lates self.now.give_ups self.now.down self.now.spent (L.telling self.now.link)
            (L.faults self.now.link) (L.quiets self.now.link) }
    {
        let _down = &self.down;
    }

    /// The number of a lane is that of its link. It does nothing when it runs.
    pub fn has_number(&self)
        ensures { L.number self.now.link ≡ self.now.number }
    {
        let _link = &self.link;
    }

    /// What a lane over a link that tells has paid for its give-ups: at least as many datagrams were held as all their
    /// rounds. Where none was held it never gave up. It does nothing when it runs.
    pub fn has_paid(&self)
        ensures { IfSome (L.telling self.now.link)
            (λ _. HasReached (self.now.settings.rounds * self.now.give_ups) (L.held self.now.link)) }
    {
        laws_of_rounds();
        let _down = &self.down;
    }

    /// What a lane heard, whether its link tells or not: a datagram for each body that was replied to, and one that
    /// answered the greeting. It does nothing when it runs.
    pub fn has_heard(&self)
        ensures { HasHeard self.now.outcomes (L.gots self.now.link) }
    {
        let _outcomes = &self.outcomes;
    }

    /// What the receives of a lane came to, whether its link tells or not: the first status that was told ended the
    /// greeting; behind it came the replies whose words the lane has, and the quiet receives that its give-ups cost. It
    /// does nothing when it runs.
    pub fn has_listened(&self)
        ensures { HasListened self.now.status self.now.hub self.now.outcomes self.now.lates self.now.give_ups
            (receives_in (L.traffic self.now.link)) }
    {
        let _outcomes = &self.outcomes;
    }

    /// What passed over the link of a lane, whether it tells or not: the greeting, and then the machine's run from a hub
    /// that knows the board to the hub that the lane has, whose offers are the bodies of the Asks in order. What the
    /// lane shows of each body is its fate in that run, and what it shows late came late there. Where the link failed or
    /// memory ran out its last send may be missing; where memory ran out, its last datagram may be unheard. It does
    /// nothing when it runs.
    pub fn has_run(&self)
        ensures { HasRun self.now.settings self.now.status self.now.hub self.now.items self.now.outcomes
            self.now.lates self.now.down self.now.spent self.now.run (L.traffic self.now.link) }
    {
        let _run = &self.run;
    }

    /// The lane of a link whose board told this status in the greeting. Where memory ran out the link is given back.
    pub(crate) fn new(
        alloc: Global,
        link: L,
        settings: Settings,
        status: Status,
    ) -> Result<Lane<L>, L>
        requires greeted { IfSome (L.telling link) (IsGreeted settings (status_of status)) }
        requires heard { 1 ≤ L.gots link }
        requires first { EndsWithStatus (status_of status) (receives_in (L.traffic link)) }
        requires passed { IsGreetingOf settings.rounds (status_of status) (L.traffic link) }
        ensures made { IfOk result (λ lane. lane ≡ new_lane (L.number link) link settings (status_of status)) }
        ensures given_back { IfErr result (λ back. back ≡ link) }
    {
        let Ok(book) = Book::new(alloc) else {
            return Err(link);
        };
        let _window = settings.window();
        let first = status.next;
        let _first = first.get();
        let mtu = status.mtu;
        let buffers = status.buffers;
        let Ok(engine) = Engine::new(alloc, settings, status) else {
            return Err(link);
        };
        an_ask_is_an_offer();
        each_event_leads_to_a_state_of_a_run();
        entries_go_into_the_book();
        laws_of_late_answers();
        laws_of_rounds();
        Ok(Lane {
            alloc,
            link,
            settings,
            mtu,
            buffers,
            first,
            engine,
            buffer: Vec::new(alloc),
            book,
            outcomes: OutcomeTable::new(alloc),
            give_ups: 0,
            run: RunLog::new(),
            down: false,
            spent: false,
        })
    }

    /// The words of the longest packet of the board, its header included: P of the MTU that it told.
    pub fn payload(&self) -> u32
        ensures { result ≡ payload_of self.now.status.mtu }
    {
        (self.mtu - IP_UDP_BYTES) / 4
    }

    /// How many first sends there were: the place of the last one.
    pub fn sent(&self) -> u64
        ensures { result ≡ length self.now.hub.sent }
    {
        self.engine.sent()
    }

    /// The words of the reply to the body at this place, taken or still to be taken. `None` where that body was not
    /// replied to.
    pub fn reply_at(&self, place: u64) -> Option<&[u32]>
        ensures some { IfSome result (λ words. IsReplyAt self.now.outcomes place words.now) }
        ensures short { IfSome result (λ words. length words.now ≤ MAX_BODY_WORDS) }
        ensures none { IfNone result ((words : List ℕ) → ¬ IsReplyAt self.now.outcomes place words) }
    {
        let tag = self.engine.tag_at(place)?;
        reply_under(&self.outcomes, tag, place)
    }

    /// What came late for the body at this place: the words of its reply, which was taken after the body was timed out.
    /// `None` where none was. It never changes.
    pub fn late_at(&self, place: u64) -> Option<&[u32]>
        ensures late { MatchOption result (late_in self.now.lates place ≡ None)
            (λ words. late_in self.now.lates place ≡ Some words.now) }
        ensures short { IfSome result (λ words. length words.now ≤ MAX_BODY_WORDS) }
    {
        self.outcomes.late_at(place)
    }

    /// How many bodies with a place were replied to, how many timed out, and how many were lost with the link.
    pub fn counts(&self) -> (u64, u64, u64)
        ensures replied { result.0 ≡ count_by is_replied self.now.outcomes }
        ensures timed_out { result.1 ≡ timeouts self.now.outcomes }
        ensures lost { result.2 ≡ count_by is_lost_at_place self.now.outcomes }
    {
        count_of(&self.outcomes)
    }

    /// The entries of the record, in order: who made each, its kind (1 Plan, 2 Seal, 3 Ask, 4 Took), and its number.
    pub fn entries(&self) -> &[Entry]
        ensures { result.now ≡ map entry_of self.now.items }
    {
        self.book.entries()
    }

    /// The link, given back.
    pub fn close(self) -> L
        ensures link { result ≡ self.link }
        ensures number { L.number result ≡ self.number }
    {
        self.link
    }

    /// Plans a body for a client, from 1. `reply_words` is the words of the longest reply to it. Answers how many
    /// bodies the client had planned before, which is the number of this one. A body that is refused changes nothing.
    pub fn plan(&mut self, client: u32, body: Words, reply_words: u32) -> Result<u64, PlanRefusal>
        requires client { 1 ≤ client }
        requires reply { reply_words ≡ reply_room body }
        ensures planned { IfOk result (Plans self.old client body self.new) }
        ensures refused { IfErr result (IsRefused self.old.items (payload_of self.old.status.mtu) body) }
        ensures unchanged { OnErr result (self.new ≡ self.old) }
    {
        let payload = self.payload();
        make_room(&mut self.book, payload, body.as_slice(), reply_words)?;
        entries_go_into_the_book();
        Ok(self.book.plan(client, body, reply_words)?)
    }

    /// Closes planning for all clients. Once closed, it stays so.
    pub fn seal(&mut self)
        ensures { self.new ≡ with_seal self.old }
    {
        entries_go_into_the_book();
        if !self.book.is_sealed() {
            self.book.seal();
        }
    }

    /// Asks the client's next planned body: the engine is offered it, and what the engine then wants to be sent is
    /// sent; or it is lost where the link failed before. Where the link fails in a send, every body that has no outcome
    /// is lost, this one too. Where memory runs out in a send, the body stands asked and the lane is spent: it never
    /// pumps again. A spent lane answers want of memory. An `Err` changes nothing.
    pub fn ask(&mut self, client: u32) -> Result<Asked, NoMemory>
        requires client { 1 ≤ client }
        ensures asked { IfOk result (AsksAs self.old client self.new) }
        ensures unchanged { OnErr result (self.new ≡ self.old) }
        ensures not_spent { OnOk result (self.old.spent ≡ false) }
        ensures down { IsDownByFault L.Link self.old self.new }
        ensures unreceived { ReceivesNothing L.Link self.old.link self.new.link }
        ensures link { IfOk result (λ asked. IfTelling (L.telling self.old.link) (L.telling self.new.link)
            (Asking self.old client self.new asked)) }
        ensures round { LaneRound L.Link Sends self.old self.new }
        // So the head of its record stays.
        ensures opening { opening_of (L.telling self.new.link) ≡ opening_of (L.telling self.old.link) }
    {
        match self.offer_next(client)? {
            Asked::Asked(seq) => {
                self.send_wanted();
                Ok(Asked::Asked(seq))
            }
            Asked::Nothing => Ok(Asked::Nothing),
        }
    }

    /// Offers the client's next planned body to the engine, and sends nothing.
    fn offer_next(&mut self, client: u32) -> Result<Asked, NoMemory>
        requires client { 1 ≤ client }
        ensures asked { IfOk result (OffersAs self.old client self.new) }
        ensures unchanged { OnErr result (self.new ≡ self.old) }
        ensures not_spent { OnOk result (self.old.spent ≡ false) }
        ensures link { self.new.link ≡ self.old.link }
        ensures round { LaneRound L.Link Sends self.old self.new }
    {
        an_ask_is_an_offer();
        an_ask_is_of_its_plan();
        a_failed_link_loses_what_waits();
        each_event_leads_to_a_state_of_a_run();
        entries_go_into_the_book();
        laws_of_late_answers();
        laws_of_rounds();
        laws_of_runs();
        only_an_offer_makes_more_bodies();
        if self.spent {
            return Err(NoMemory);
        }
        let Some(body) = self.book.next(client) else {
            return Ok(Asked::Nothing);
        };
        let body = copy_words(self.alloc, body.as_slice())?;
        self.book.reserve()?;
        let seq = self.book.asked(client);
        let tag = self.outcomes.len() as u64;
        let offered = Snapshot::of(&body);
        self.outcomes.offer(&mut self.engine, self.down, body)?;
        self.run.add_ask(self.down, tag, offered);
        self.book.ask(client, seq, self.give_ups);
        Ok(Asked::Asked(seq))
    }

    /// Sends what the engine wants to be sent, in its order, and receives nothing. A lane whose link failed, or that is
    /// spent, or on which nobody waits for a body, sends nothing. Where the link fails in a send, every body that has no
    /// outcome is lost. Where memory runs out in one, the lane is spent: it never pumps again.
    pub fn send_wanted(&mut self)
        ensures sends { SendsAs self.old self.new }
        ensures same { IsSameRecord self.old self.new }
        ensures down { IsDownByFault L.Link self.old self.new }
        ensures unreceived { ReceivesNothing L.Link self.old.link self.new.link }
        ensures link { has_stopped self.new ≡ false → IfTelling (L.telling self.old.link) (L.telling self.new.link)
            (HasPut self.old.hub self.new.hub) }
        ensures round { LaneRound L.Link Sends self.old self.new }
        // So the head of its record stays.
        ensures opening { opening_of (L.telling self.new.link) ≡ opening_of (L.telling self.old.link) }
    {
        if self.spent {
            return;
        }
        if self.down {
            return;
        }
        if !self.engine.waiting() {
            return; // so memory runs out only where somebody waits
        }
        laws_of_pumps();
        laws_of_rounds();
        laws_of_runs();
        match send_all(
            &mut self.engine,
            &mut self.link,
            &mut self.buffer,
            &mut self.run,
        ) {
            Ok(()) => {}
            Err(LinkFault::Failed) => {
                lose_all(&mut self.outcomes, self.engine.sent());
                self.down = true // so nothing more is sent
            }
            Err(LinkFault::NoMemory) => self.spent = true,
        }
    }

    /// What waits beside the lane for the next datagram of its link. `None` where there is nothing to wait for, or no
    /// room for it. Nothing that contracts see of the link changes, and nothing of the lane.
    pub fn waiter(&mut self) -> Option<Waiter>
        ensures lane { self.new ≡ with_link self.old self.new.link }
        ensures shows { ShowsTheSame L.Link self.old.link self.new.link }
    {
        self.link.waiter(self.alloc)
    }

    /// Another link to the board, over which nothing passed yet and which does not tell. `None` where the lane's link has
    /// none. Nothing that contracts see of the lane's link changes, and nothing of the lane.
    pub fn another_link(&mut self) -> Option<L>
        ensures untold { IfSome result (λ link. L.telling link ≡ None) }
        ensures unused { IfSome result (λ link. IsUnused L.Link link) }
        ensures number { IfSome result (λ link. L.number link ≡ self.old.number) }
        ensures lane { self.new ≡ with_link self.old self.new.link }
        ensures shows { ShowsTheSame L.Link self.old.link self.new.link }
    {
        self.link.again(self.alloc)
    }

    /// Whether the board told an identifier that no open place explains, before the lane gave up, and was not heard of
    /// since: it was reset, or another hub is at it.
    pub fn is_out_of_order(&self) -> bool {
        self.engine.is_out_of_order()
    }

    /// Whether its link failed.
    pub fn is_down(&self) -> bool
        ensures { result ≡ self.now.down }
    {
        self.down
    }

    /// Whether each body that was planned was asked, and what became of it taken.
    pub fn is_all_taken(&self) -> bool
        ensures { IsTrue result ↔ IsAllTaken self.now.items }
    {
        self.book.is_all_taken()
    }

    /// Whether so many bodies more may be planned, and so many words more of bodies and longest replies.
    pub fn leaves_room(&self, bodies: u64, words: u64) -> bool
        ensures { IsTrue result ↔ LeavesRoom self.now.items bodies words }
    {
        self.book.leaves_room(bodies, words)
    }

    /// Whether the lane sends and receives no more: its link failed, or memory ran out in a send or a receive. A pump
    /// answers so at once.
    pub fn is_stopped(&self) -> bool
        ensures { result ≡ has_stopped self.now }
    {
        self.down || self.spent
    }

    /// Sends what the engine wants to be sent, in its order, and then receives once. Where memory runs out the lane is
    /// spent: it never pumps again, and answers so. Where the link fails, now or before, every body that has no outcome
    /// is lost.
    pub fn pump(&mut self) -> Result<Pumped, NoMemory>
        ensures pumped { IfOk result (PumpsAs self.old (L.telling self.new.link) (receives_in (L.traffic self.old.link))
            (receives_in (L.traffic self.new.link)) self.new) }
        ensures same { IsSameRecord self.old self.new }
        ensures not_spent { OnOk result (self.old.spent ≡ false) }
        ensures spent { OnErr result (IsSpent self.old self.new) }
        ensures not_down { OnErr result ((self.old.spent ≡ true) ⊎ (self.old.down ≡ false)) }
        ensures down { IsDownByFault L.Link self.old self.new }
        ensures counts { KeepsCounting L.Link self.old.link self.new.link }
        ensures counted { IfOk result (λ pumped. CountsPump L.Link pumped self.old.link self.new.link) }
        ensures link { IfOk result (λ pumped. IfTelling (L.telling self.old.link) (L.telling self.new.link)
            (Pumping pumped self.old.hub self.new.hub)) }
        ensures round { IfOk result (λ pumped. LaneRound L.Link (Pumps pumped) self.old self.new) }
        // So the head of its record stays.
        ensures opening { opening_of (L.telling self.new.link) ≡ opening_of (L.telling self.old.link) }
    {
        if self.spent {
            return Err(NoMemory);
        }
        if self.down {
            return Ok(Pumped::LinkDown);
        }
        if !self.engine.waiting() {
            return Ok(Pumped::Idle);
        }
        laws_of_pumps();
        laws_of_rounds();
        laws_of_runs();
        let _asks = self.outcomes.len();
        match exchange(
            self.first,
            &mut self.engine,
            &mut self.link,
            &mut self.buffer,
            &mut self.run,
            &mut self.outcomes,
            &mut self.give_ups,
        ) {
            Ok(pumped) => Ok(pumped),
            Err(LinkFault::Failed) => {
                lose_all(&mut self.outcomes, self.engine.sent());
                self.down = true;
                Ok(Pumped::LinkDown)
            }
            Err(LinkFault::NoMemory) => {
                self.spent = true;
                Err(NoMemory)
            }
        }
    }

    /// What became of a body that was asked and not taken, if anything did; then its Took is the next entry. Want of
    /// memory changes nothing.
    pub fn take(&mut self, client: u32, seq: u64) -> Result<Taken, NoMemory>
        requires client { 1 ≤ client }
        requires asked { WasAsked self.old.items client seq }
        ensures taken { IfOk result (TakesAs self.old client seq self.new) }
        ensures unchanged { OnErr result (self.new ≡ self.old) }
    {
        entries_go_into_the_book();
        let Some(ask) = self.book.ask_of(client, seq) else {
            unreachable!()
        };
        let Some(outcome) = self.outcomes.of_ask(ask) else {
            return Ok(Taken::NotYet);
        };
        let answer = copy_outcome(self.alloc, outcome)?;
        self.book.reserve()?;
        let taken = self.book.take(client, seq, answer, self.give_ups);
        Ok(Taken::Ready(taken))
    }
}

/// Takes room for the Plan of a body, where it may be planned.
fn make_room(
    book: &mut Book,
    payload: u32,
    body: &[u32],
    reply_words: u32,
) -> Result<(), PlanRefusal>
    requires reply { reply_words ≡ reply_room body.now }
    ensures can { OnOk result (CanPlan book.old.items payload body.now) }
    ensures room { OnOk result (2 ≤ book.new.room) }
    ensures refused { IfErr result (IsRefused book.old.items payload body.now) }
    ensures items { book.new.items ≡ book.old.items }
{
    let payload = payload as usize;
    if book.is_sealed() {
        return Err(PlanRefusal::Sealed);
    }
    if body.len() >= payload {
        return Err(PlanRefusal::TooLong);
    }
    if reply_words as usize >= payload {
        return Err(PlanRefusal::ReplyTooLong);
    }
    if book.is_full(body.len(), reply_words) {
        return Err(PlanRefusal::Overfull);
    }
    Ok(book.reserve()?)
}
