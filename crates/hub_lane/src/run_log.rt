//! The events of a lane's engine.

ghost use Rattle.std.specs.Prelude.{◌≡◌, ◌++◌, ◌∷◌, [], if◌then◌else◌};
ghost use Rattle.reliable_engine.specs.MachineRuns.{Offer, Send};
ghost use Rattle.hub_lane.specs.Run.{events_of};
ghost use Rattle.hub_lane.specs.RunLogs.{event_in};

use crate::answers::Pumped;
use ipb_base::Words;
use links::GhostList;
use std::marker::Model;
use std::snapshot::Snapshot;

/// What the engine was told or asked.
#[derive(Drop)]
enum Event {
    /// A body was offered under this tag.
    Offer { tag: u64, body: Snapshot<Words> },
    /// A send was taken from it.
    Send,
    /// It heard this datagram.
    Heard(Snapshot<Vec<u8>>),
    /// It heard that a receive was quiet.
    Quiet,
}

/// The events of a lane's engine, in order. Contracts see them. It has no copy of a body or of a datagram: where the
/// program runs it has no byte, and adding to it takes no memory.
#[derive(Drop)]
pub(crate) struct RunLog {
    events: GhostList<Event>,
}

impl Model for RunLog {
    ghost use Rattle.std.specs.Prelude.{List, map};
    ghost use Rattle.reliable_engine.specs.MachineRuns.{RunEvent};
    ghost use Rattle.hub_lane.specs.RunLogs.{event_in};

    ghost Value = { List RunEvent };

    ghost view = { λ log. map event_in log.events };
}

impl RunLog {
    /// A log with no events, before the engine was told or asked anything.
    pub(crate) fn new() -> RunLog
        ensures { result ≡ [] }
    {
        RunLog {
            events: GhostList::new(),
        }
    }

    /// Adds the offer of a body, unless the link failed before.
    pub(crate) fn add_ask(&mut self, down: bool, tag: u64, body: Snapshot<Words>)
        ensures { self.new ≡ (if down then self.old else self.old ++ Offer tag body.value ∷ []) }
    {
        if !down {
            self.add(Event::Offer { tag, body });
        }
    }

    /// Adds a send that was taken from the engine.
    pub(crate) fn add_send(&mut self)
        ensures { self.new ≡ self.old ++ Send ∷ [] }
    {
        self.add(Event::Send);
    }

    /// Adds what a receive came to, which got this datagram where it got one.
    pub(crate) fn add_received(&mut self, pumped: Pumped, datagram: &Vec<u8>)
        ensures { self.new ≡ self.old ++ events_of pumped datagram.now.items }
    {
        match pumped {
            Pumped::Reply { place: _place } => self.add(Event::Heard(Snapshot::of(datagram))),
            Pumped::Status | Pumped::Stray => self.add(Event::Heard(Snapshot::of(datagram))),
            Pumped::Quiet => self.add(Event::Quiet),
            Pumped::Idle | Pumped::LinkDown => {}
        }
    }

    /// Adds an event of the engine behind the others.
    fn add(&mut self, event: Event)
        ensures { self.new ≡ self.old ++ event_in event ∷ [] }
    {
        self.events.add(&event);
    }
}
