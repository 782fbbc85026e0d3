//! A berth: a board in greetings, one after another.

ghost use Rattle.std.specs.Prelude.{◌≡◌, ◌≤◌, ◌<◌, ◌^◌, ◌++◌, ◌∷◌, [], None, IfOk, IfErr, IfSome, OnOk, OnErr, length};
ghost use Rattle.transaction_codec.specs.Answer.{reply_room};
ghost use Rattle.turn_pass.specs.Record.{GrowsBy};
ghost use Rattle.hub_lane.specs.Calls.{AsksAs, IsSameRecord, SendsAs};
ghost use Rattle.hub_lane.specs.Greeting.{CanBegin, IsUnused};
ghost use Rattle.hub_lane.specs.Links.{IsDownByFault, KeepsCounting, ReceivesNothing};
ghost use Rattle.hub_lane.specs.Plans.{Plans};
ghost use Rattle.hub_lane.specs.Step.{LooksAs, RoseInVain, StepsAs, StepsOnce};
ghost use Rattle.hub_lane.specs.declared.answers.Asked.TheVariants as asks;
ghost use Rattle.hub_lane.specs.declared.step.Looked.TheVariants as looks;
ghost use Rattle.hub_lane.specs.declared.step.Stepped.TheVariants as steps;
ghost use Rattle.board_berth.specs.declared.answers.NotBegun.TheVariants as not_begun;
ghost use Rattle.board_berth.specs.Berths.{IsBerth, berth_record, greeting_count};
ghost use Rattle.board_berth.specs.Calls.{Begins, Calls, CallsLane, Follows, IsNotBegun, IsRefusedAt, IsSameBerth, LaneGrows};
ghost use Rattle.board_berth.specs.Calls.{Opens};
ghost use Rattle.board_berth.specs.Greetings.{IsMet, IsOver, has_stopped_in, link_in, payload_in};

use crate::answers::{Begun, BerthRefusal, NotBegun};
use crate::calls::{ask_in, look_in, plan_in, send_in, step_in, wants_greeting};
use crate::greeting::{Greeting, greet_for};
use hub_lane::{Asked, Link, Looked, NoMemory, Stepped, Waiter, Words};
use links::GhostList;
use std::alloc::Global;
use std::marker::Model;
use world_model::Settings;

/// With so many entries in its record a berth begins no greeting any more (profile).
pub const MAX_ENTRIES: u64 = 1 << 62;

/// A board in greetings, one after another (profile): the past ones, which contracts alone see, and the present one,
/// which is a lane or a link whose board did not answer. Contracts see it as `BerthState`; what holds of it at the exit
/// of every call is `IsBerth`, which `is_sound` tells.
#[derive(Drop)]
pub struct Berth<L: Link> {
    alloc: Global,
    settings: Settings,
    past: GhostList<Greeting<L>>,
    present: Greeting<L>,
    // how many entries the past greetings have
    entries: u64,
    greetings: u64,
}

impl<L: Link> Model for Berth<L> {
    ghost use Rattle.board_berth.specs.Berths.{BerthState, IsKept};
    ghost use Rattle.board_berth.specs.Greetings.{number_in};

    ghost Value = { BerthState L };

    ghost view = { λ b. record {
      settings = b.settings;
      number = number_in L.number b.present;
      past = b.past;
      present = b.present;
    } };

    ghost invariant = { λ b.
        IsKept L.Link b.settings (number_in L.number b.present) b.past b.present b.entries b.greetings };
}

impl<L: Link> Berth<L> {
    /// What holds of every berth. It does nothing when it runs.
    pub fn is_sound(&self)
        ensures { IsBerth L.Link self.now }
    {
        self.present.keeps_all();
    }

    /// Greets the board of a link that was not used yet. Where memory ran out the link is given back.
    pub fn greet(alloc: Global, link: L, settings: Settings) -> Result<Berth<L>, L>
        requires unused { IsUnused L.Link link }
        requires begins { IfSome (L.telling link) (CanBegin settings) }
        ensures opens { IfOk result (Opens L.Link settings link) }
        ensures given_back { IfErr result (λ back. L.number back ≡ L.number link) }
    {
        let present = greet_for(alloc, link, settings, 0)?;
        Ok(Berth {
            alloc,
            settings,
            past: GhostList::new(),
            present,
            entries: 0,
            greetings: 1,
        })
    }

    /// How many greetings there were, the present one too.
    pub fn greetings(&self) -> u64
        ensures { result ≡ greeting_count self.now }
    {
        self.greetings
    }

    /// The words of the longest packet of the board, its header included. `None` where it did not answer.
    pub fn payload(&self) -> Option<u32>
        ensures { result ≡ payload_in self.now.present }
    {
        self.present.payload()
    }

    /// Whether nothing is sent or received any more, unless another greeting begins.
    pub fn is_stopped(&self) -> bool
        ensures { result ≡ has_stopped_in self.now.present }
    {
        self.present.is_stopped()
    }

    /// Whether another greeting is wanted: the board did not answer, its link failed, it told an identifier that no open
    /// place explains, before the hub gave up, or the lane is near its limits.
    pub fn wants_greeting(&self) -> bool {
        wants_greeting(&self.present)
    }

    /// The link of the present greeting, given back.
    pub fn close(self) -> L
        ensures link { result ≡ link_in self.present }
        ensures number { L.number result ≡ self.number }
    {
        self.present.close()
    }

    /// What waits beside the berth for the next datagram of the present greeting. `None` where there is nothing to wait
    /// for, or no room for it. Nothing that contracts see changes.
    pub fn waiter(&mut self) -> Option<Waiter>
        ensures { IsSameBerth L.Link self.old self.new }
    {
        self.present.waiter()
    }

    /// Plans a body for a client, from 1, as `Lane::plan` does in the present greeting.
    pub fn plan(&mut self, client: u32, body: Words, reply_words: u32) -> Result<u64, BerthRefusal>
        requires client { 1 ≤ client }
        requires reply { reply_words ≡ reply_room body }
        ensures planned { IfOk result (λ seq.
            CallsLane (λ lane after. Plans lane client body after seq) self.old self.new) }
        ensures refused { IfErr result (IsRefusedAt self.old.present body) }
        ensures unchanged { OnErr result (self.new ≡ self.old) }
        ensures on_lane { Calls (LaneGrows L.telling client) (Unit {0}) self.old self.new }
        ensures grows { GrowsBy client (berth_record L.telling self.old) (berth_record L.telling self.new) }
    {
        plan_in(&mut self.present, client, body, reply_words)
    }

    /// Asks the client's next planned body, as `Lane::ask` does. `Nothing` where the board did not answer.
    pub fn ask(&mut self, client: u32) -> Result<Asked, NoMemory>
        requires client { 1 ≤ client }
        ensures asked { IfOk result (λ asked.
            Calls (λ lane after. AsksAs lane client after asked) (asked ≡ asks.Nothing) self.old self.new) }
        ensures unchanged { OnErr result (self.new ≡ self.old) }
        ensures down { Calls (IsDownByFault L.Link) (Unit {0}) self.old self.new }
        ensures unreceived { Calls (λ lane after. ReceivesNothing L.Link lane.link after.link) (Unit {0}) self.old
            self.new }
        ensures on_lane { Calls (LaneGrows L.telling client) (Unit {0}) self.old self.new }
        ensures grows { GrowsBy client (berth_record L.telling self.old) (berth_record L.telling self.new) }
    {
        ask_in(&mut self.present, client)
    }

    /// Sends what waits to be sent, as `Lane::send_wanted` does.
    pub fn send_wanted(&mut self)
        ensures sends { Calls SendsAs (Unit {0}) self.old self.new }
        ensures same { Calls IsSameRecord (Unit {0}) self.old self.new }
        ensures down { Calls (IsDownByFault L.Link) (Unit {0}) self.old self.new }
        ensures unreceived { Calls (λ lane after. ReceivesNothing L.Link lane.link after.link) (Unit {0}) self.old
            self.new }
        ensures record { berth_record L.telling self.new ≡ berth_record L.telling self.old }
    {
        send_in(&mut self.present)
    }

    /// Takes what became of the client's oldest asked and untaken body, as `Lane::look` does. `Nothing` where the board
    /// did not answer.
    pub fn look(&mut self, client: u32) -> Result<Looked, NoMemory>
        requires client { 1 ≤ client }
        ensures looked { IfOk result (λ looked.
            Calls (λ lane after. LooksAs lane client after looked) (looked ≡ looks.Nothing) self.old self.new) }
        ensures unchanged { OnErr result (self.new ≡ self.old) }
        ensures link { Calls (λ lane after. after.link ≡ lane.link) (Unit {0}) self.old self.new }
        ensures on_lane { Calls (LaneGrows L.telling client) (Unit {0}) self.old self.new }
        ensures grows { GrowsBy client (berth_record L.telling self.old) (berth_record L.telling self.new) }
    {
        look_in(&mut self.present, client)
    }

    /// Takes what became of the client's oldest asked and untaken body, as `Lane::step` does; where nothing did yet,
    /// pumps and looks once more. `Nothing` where the board did not answer.
    pub fn step(&mut self, client: u32) -> Result<Stepped, NoMemory>
        requires client { 1 ≤ client }
        ensures stepped { IfOk result (λ stepped.
            Calls (λ lane after. StepsAs lane client after stepped) (stepped ≡ steps.Nothing) self.old self.new) }
        ensures once { IfOk result (λ stepped.
            Calls (λ lane after. StepsOnce L.Link lane client after stepped) (Unit {0}) self.old self.new) }
        ensures same { OnErr result (CallsLane IsSameRecord self.old self.new) }
        ensures received { IfOk result (λ stepped.
            Calls (λ lane after. RoseInVain L.Link stepped lane.link after.link) (Unit {0}) self.old self.new) }
        ensures counts { Calls (λ lane after. KeepsCounting L.Link lane.link after.link) (Unit {0}) self.old self.new }
        ensures on_lane { Calls (LaneGrows L.telling client) (Unit {0}) self.old self.new }
        ensures grows { GrowsBy client (berth_record L.telling self.old) (berth_record L.telling self.new) }
    {
        step_in(&mut self.present, client)
    }
}

impl<L: Link + Drop> Berth<L> {
    /// Greets the board anew for a client, from 1, over another link, where nothing of the present greeting is open: what
    /// stood there is past then, whatever the new greeting comes to. An `Err` changes nothing that contracts see.
    pub fn begin(&mut self, client: u32) -> Result<Begun, NotBegun>
        requires client { 1 ≤ client }
        ensures begun { IfOk result (Begins L.Link self.old client self.new) }
        ensures refused { IfErr result (IsNotBegun L.telling self.old) }
        ensures same { OnErr result (IsSameBerth L.Link self.old self.new) }
        ensures grows { GrowsBy client (berth_record L.telling self.old) (berth_record L.telling self.new) }
    {
        match self.next_link() {
            Ok(link) => self.begin_over(link, client),
            Err(why) => Err(why),
        }
    }

    /// The link of another greeting, where one may begin.
    fn next_link(&mut self) -> Result<L, NotBegun>
        ensures untold { IfOk result (λ link. L.telling link ≡ None) }
        ensures unused { IfOk result (λ link. IsUnused L.Link link) }
        ensures number { IfOk result (λ link. L.number link ≡ self.old.number) }
        ensures over { OnOk result (IsOver self.new.present) }
        ensures few { OnOk result (length (berth_record L.telling self.new).entries < 2 ^ 62) }
        ensures refused { IfErr result (IsNotBegun L.telling self.old) }
        ensures same { IsSameBerth L.Link self.old self.new }
    {
        if !self.present.is_over() {
            return Err(NotBegun::Busy);
        }
        if self.entry_count() >= MAX_ENTRIES {
            return Err(NotBegun::Full);
        }
        match self.present.another_link(self.alloc) {
            Some(link) => Ok(link),
            None => Err(NotBegun::NoLink),
        }
    }

    /// Greets the board over this link for a client.
    fn begin_over(&mut self, link: L, client: u32) -> Result<Begun, NotBegun>
        requires untold { L.telling link ≡ None }
        requires unused { IsUnused L.Link link }
        requires number { L.number link ≡ self.old.number }
        requires over { IsOver self.old.present }
        requires few { length (berth_record L.telling self.old).entries < 2 ^ 62 }
        ensures follows { IfOk result (Follows L.Link self.old client self.new) }
        ensures no_memory { IfErr result (λ why. why ≡ not_begun.NoMemory) }
        ensures same { OnErr result (self.new ≡ self.old) }
    {
        match greet_for(self.alloc, link, self.settings, client) {
            Ok(greeting) => {
                let begun = greeting.came_to();
                self.put(greeting);
                Ok(begun)
            }
            Err(_link) => Err(NotBegun::NoMemory),
        }
    }

    /// This is the present greeting, and the one before is past.
    fn put(&mut self, greeting: Greeting<L>)
        requires met { IsMet L.Link self.old.settings self.old.number greeting }
        requires over { IsOver self.old.present }
        requires few { length (berth_record L.telling self.old).entries < 2 ^ 62 }
        ensures past { self.new ≡ record self.old { past = self.old.past ++ self.old.present ∷ []; present = greeting } }
    {
        self.entries = self.entry_count();
        self.present.keeps_all();
        self.past.add(&self.present);
        self.present = greeting;
        self.greetings = self.greetings.saturating_add(1);
    }
}

impl<L: Link> Berth<L> {
    /// How many entries the record has.
    pub(crate) fn entry_count(&self) -> u64
        ensures { result ≡ length (berth_record L.telling self.now).entries }
    {
        self.entries + self.present.count()
    }
}
