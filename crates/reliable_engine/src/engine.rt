//! The engine: what it hears, what it sends, and what became of the bodies.

ghost use Rattle.std.specs.Prelude.{◌≡◌, ◌↔◌, ◌≤◌, ◌<◌, ◌+◌, ◌^◌, true, [], length, min};
ghost use Rattle.std.specs.List.{slice_get};
ghost use Rattle.std.specs.Prelude.{IfOk, OnOk, IfErr, OnErr, IfSome, IsTrue, IsNone};
ghost use Rattle.world_model.specs.Places.{at_place};
ghost use Rattle.world_model.specs.Hub.{new_hub, offer, hear_reply, hear_status, hear_quiet, give_up, is_waiting};
ghost use Rattle.world_model.specs.Hub.{low, told_place, words_of};
ghost use Rattle.world_model.specs.Sends.{first_send, next_send};
ghost use Rattle.reliable_engine.specs.Answers.{HasNothingToSend, IsOpen, IsSendOf, NamesOpenPlace, TellsPlace};
ghost use Rattle.reliable_engine.specs.Answers.{body_count, hub_next, sent_next, tag_there, told_first};
ghost use Rattle.reliable_engine.specs.Answers.{told_first_late};
ghost use Rattle.reliable_engine.specs.Steps.{after_resuming};

use crate::fates::{put_fate, put_late, put_unsent};
use crate::open_places::OpenPlaces;
use ipb_base::{NoMemory, Words};
use packet_ids::{Id, id_at, place_of};
use status_packet::Status;
use std::alloc::Global;
use std::collections::VecDeque;
use std::marker::Model;
use world_model::{Fate, Offered, Sending, Settings};

/// The hub's side of one board (IPbus 2.0, reliability mechanism). Contracts see it as `world_model`'s hub: the bodies
/// that were sent, by place, those that wait, the open places, the round that is under way, and the fates and late
/// answers that are not handed out.
#[derive(Drop)]
pub struct Engine {
    first: Id,
    window: u64,
    rounds: u8,
    bodies: Vec<Offered>,
    sent: usize,
    open_places: OpenPlaces,
    status_requests: u8,
    status_wanted: bool,
    gave_up: bool,
    fates: VecDeque<(u64, Fate)>,
    lates: VecDeque<(u64, Words)>,
    told: Told,
}

/// What the board told last of its place in the order of packets.
#[derive(Clone, Copy, PartialEq, Eq)]
enum Told {
    /// It expects what the hub may send next, or nothing is known.
    InOrder,
    /// A status reply of the round that is under way told an identifier that no place has which is open or comes next.
    Strange,
    /// So it was, and the hub gave up.
    OutOfOrder,
}

impl Told {
    /// The hub gave up.
    fn after_giving_up(self) -> Told {
        match self {
            Told::InOrder => Told::InOrder,
            Told::Strange | Told::OutOfOrder => Told::OutOfOrder,
        }
    }
}

impl Model for Engine {
    ghost use Rattle.world_model.specs.Hub.{Hub};
    ghost use Rattle.reliable_engine.specs.View.{hub_of, IsKept};

    ghost Value = { Hub };

    ghost view = { hub_of };

    ghost invariant = { IsKept };
}

impl Engine {
    /// The engine of a board that told this status: the board expects `status.next` first, and the window is the
    /// smaller one of the board's buffers and the session's window (profile). `NoMemory` where memory ran out.
    pub fn new(alloc: Global, settings: Settings, status: Status) -> Result<Engine, NoMemory>
        ensures { IfOk result (λ engine.
            engine ≡ new_hub status.next (min settings.window status.buffers) settings.rounds) }
    {
        Ok(Engine {
            first: status.next,
            window: u64::from(settings.window()).min(u64::from(status.buffers)),
            rounds: settings.rounds(),
            bodies: Vec::new(alloc),
            sent: 0,
            open_places: OpenPlaces::new(),
            status_requests: 0,
            status_wanted: false,
            gave_up: false,
            fates: VecDeque::new(alloc),
            lates: VecDeque::new(alloc),
            told: Told::InOrder,
        })
    }

    /// Offers a body under a tag. The first offer since a give-up has the control packet of each open place sent again
    /// (profile). Room for all that will be told of the body is taken here; other calls take no memory. Where memory ran
    /// out the body is given back, and nothing changed. At most 2^62 bodies are offered.
    pub fn offer(&mut self, tag: u64, body: Words) -> Result<(), Words>
        requires few { body_count self.old < 2 ^ 62 }
        ensures offered { OnOk result (self.new ≡ offer self.old (record { tag = tag; body = body })) }
        ensures given_back { IfErr result (λ given. given ≡ body) }
        ensures unchanged { OnErr result (self.new ≡ self.old) }
        ensures counted { body_count self.new ≤ body_count self.old + 1 }
    {
        let queued = self.bodies.len() - self.sent;
        // of the bodies that were sent, at most `window` have no fate yet, and at most as many are open
        let Ok(()) = self.fates.reserve(self.window as usize + queued + 1) else {
            return Err(body);
        };
        let Ok(()) = self.lates.reserve(self.window as usize + queued + 1) else {
            return Err(body);
        };
        if let Err(refused) = self.bodies.push(Offered { tag, body }) {
            return Err(refused.value.body);
        }
        self.resume();
        Ok(())
    }

    /// Hears a status reply (IPbus 2.0, status packet). It is taken while a round is under way, where the identifier in
    /// it is that of a place from the lowest open one to the one after all. Then the reply of each open place below
    /// that place is asked for again, and the control packet of each other open place is sent again.
    pub fn on_status(&mut self, status: &Status) -> bool
        ensures hub { self.new ≡ hear_status self.old status.now.next }
        ensures taken { IsTrue result ↔ TellsPlace self.old status.now.next }
        ensures counted { body_count self.new ≡ body_count self.old }
    {
        if self.status_requests == 0 {
            return false;
        }
        match self.told_place(status.next) {
            Some(told) => {
                self.open_places.recover_all(told);
                self.told = Told::InOrder;
                true
            }
            None => {
                self.told = Told::Strange;
                false
            }
        }
    }

    /// Hears the reply to a control packet (IPbus 2.0, reliability mechanism). It settles the open place with its
    /// identifier, whenever it comes. The words go to whoever waits for them; where nobody does any more, they are the
    /// late answer of that place. Where no open place has the identifier nothing changes.
    pub fn on_reply(&mut self, id: Id, words: Words) -> bool
        ensures hub { self.new ≡ hear_reply self.old id words }
        ensures taken { IsTrue result ↔ NamesOpenPlace self.old id }
        ensures counted { body_count self.new ≡ body_count self.old }
    {
        let Some(settled) = self.open_places.take_open(self.first, id) else {
            return false;
        };
        self.status_requests = 0; // the round is over
        self.told = Told::InOrder;
        if settled.waited {
            let tag = self.bodies[(settled.place - 1) as usize].tag;
            let place = settled.place;
            put_fate(&mut self.fates, place, tag, Fate::Replied { place, words });
        } else {
            put_late(&mut self.lates, settled.place, words);
        }
        true
    }

    /// Hears that a receive was quiet. A status request is wanted; or, where as many were wanted as there are rounds
    /// and no place was settled since, the hub gives up: each place that is waited for is timed out, each queued body
    /// is unsent, and the open places stay open (profile).
    pub fn on_quiet(&mut self)
        requires { is_waiting self.old ≡ true }
        ensures hub { self.new ≡ hear_quiet self.old }
        ensures counted { body_count self.new ≤ body_count self.old }
    {
        if self.status_requests < self.rounds {
            self.status_requests += 1;
            self.status_wanted = true;
        } else {
            self.give_up();
        }
    }

    /// Whether the hub gave up on a board that told an identifier which no open place explains, and has not heard of an
    /// open place since: the board was reset, or another hub is at it.
    pub fn is_out_of_order(&self) -> bool {
        self.told == Told::OutOfOrder
    }

    /// Whether a body that was offered has no fate yet.
    pub fn waiting(&self) -> bool
        ensures { result ≡ is_waiting self.now }
    {
        self.sent < self.bodies.len() || self.open_places.is_any_waited()
    }

    /// Takes what is to be sent next (profile). A status request comes first where one is wanted, and then what open
    /// places want, lowest place first, a re-send request going before a control packet of the same place. A body that
    /// waits for its first send comes after these, if the window has room for it. `None` says that nothing is left.
    pub fn next_send(&mut self) -> Option<Sending>
        ensures send { result ≡ sent_next (next_send self.old) }
        ensures hub { self.new ≡ hub_next self.old (next_send self.old) }
        ensures none { IsNone result ↔ HasNothingToSend self.old }
        ensures open_place { IfSome result (IsSendOf self.new) }
        ensures counted { body_count self.new ≡ body_count self.old }
    {
        if self.status_wanted {
            self.status_wanted = false;
            return Some(Sending::Status);
        }
        if let Some(send) = self.open_places.take_wanted(self.first) {
            return Some(send);
        }
        self.first_send()
    }

    /// How many bodies were sent: the place of the last first send.
    pub fn sent(&self) -> u64
        ensures { result ≡ length self.now.sent }
    {
        self.sent as u64
    }

    /// The body at an open place.
    pub fn body_at(&self, place: u64) -> &[u32]
        requires { IsOpen self.now place }
        ensures { result.now ≡ words_of (at_place self.now.sent place) }
    {
        self.bodies[(place - 1) as usize].body.as_slice()
    }

    /// The tag of the body at a place. `None` where no body has it.
    pub fn tag_at(&self, place: u64) -> Option<u64>
        ensures { result ≡ tag_there (at_place self.now.sent place) }
    {
        if place == 0 {
            return None;
        }
        if place > self.sent as u64 {
            return None;
        }
        let offered = &self.bodies[(place - 1) as usize];
        Some(offered.tag)
    }

    /// Hands out the first fate that was not handed out, with the tag of its body. `None` where there is none.
    pub fn settled(&mut self) -> Option<(u64, Fate)>
        ensures fate { result ≡ slice_get self.old.fates 0 }
        ensures hub { self.new ≡ told_first self.old }
        ensures counted { body_count self.new ≡ body_count self.old }
    {
        self.fates.pop_front()
    }

    /// Hands out the first late answer that was not handed out, by place. `None` where there is none.
    pub fn late(&mut self) -> Option<(u64, Words)>
        ensures late { result ≡ slice_get self.old.lates 0 }
        ensures none { IsNone result ↔ (self.old.lates ≡ []) }
        ensures hub { self.new ≡ told_first_late self.old }
        ensures counted { body_count self.new ≡ body_count self.old }
    {
        self.lates.pop_front()
    }

    /// Goes on after a give-up: the control packet of each open place is sent again (profile).
    fn resume(&mut self)
        ensures hub { self.new ≡ after_resuming self.old }
        ensures counted { body_count self.new ≡ body_count self.old }
    {
        if self.gave_up {
            self.open_places.want_all();
            self.gave_up = false;
        }
    }

    /// Gives up on all open places: each of them is timed out (profile).
    fn give_up(&mut self)
        ensures hub { self.new ≡ give_up self.old }
        ensures counted { body_count self.new ≤ body_count self.old }
    {
        self.open_places
            .put_time_outs(&mut self.fates, &self.bodies[..self.sent], self.rounds);
        put_unsent(&mut self.fates, &self.bodies[self.sent..]);
        self.bodies.truncate(self.sent);
        self.open_places.abandon_all();
        self.status_requests = 0;
        self.status_wanted = false;
        self.gave_up = true;
        self.told = self.told.after_giving_up();
    }

    /// Sends the body at the front of the queue as the next place, where the window has room.
    fn first_send(&mut self) -> Option<Sending>
        ensures send { result ≡ sent_next (first_send self.old self.old.queue) }
        ensures hub { self.new ≡ hub_next self.old (first_send self.old self.old.queue) }
        ensures open_place { IfSome result (IsSendOf self.new) }
        ensures counted { body_count self.new ≡ body_count self.old }
    {
        if self.sent == self.bodies.len() {
            return None;
        }
        let place = self.sent as u64 + 1;
        if place + 1 > self.window + self.low() {
            return None;
        }
        self.sent += 1;
        self.open_places.open(place);
        Some(Sending::Control {
            place,
            id: id_at(self.first, place),
        })
    }

    /// The place that an identifier in a status reply names, from the lowest open one to the one after all.
    fn told_place(&self, next: Id) -> Option<u64>
        ensures { result ≡ told_place self.now next }
    {
        let low = self.low();
        let ahead = place_of(id_at(self.first, low), 1, self.sent as u64 + 2 - low, next)?;
        Some(low + ahead - 1)
    }

    /// The lowest open place, or the one after all places.
    fn low(&self) -> u64
        ensures low { result ≡ low self.now }
        ensures from_one { 1 ≤ result }
        ensures up_to_next { result ≤ length self.now.sent + 1 }
        ensures near { length self.now.sent < result + 16 }
        ensures few { length self.now.sent ≤ 2 ^ 62 }
    {
        self.open_places.low(self.sent as u64 + 1)
    }
}
