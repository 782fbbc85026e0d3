//! A door in memory whose connections are pairs in memory, which listens on one port at the most and fails at chosen
//! calls.

ghost use Rattle.std.specs.Prelude.{◌≡◌, ◌≤◌, ◌<◌, ◌+◌, ◌-◌, ◌↔◌, ◌⊎◌, ◌++◌, [], ◌∷◌, None, Some, IfOk, OnOk, OnErr, IsErr};
ghost use Rattle.std.specs.Prelude.{MatchOption, IsSome, length, option_to_list, slice_get};
ghost use Rattle.ipb_outside.specs.Faults.{RisesExactlyIf};
ghost use Rattle.ipb_outside.specs.Calls.{FailsNext, after_call, after_fault};

use crate::numbered_calls::NumberedCalls;
use crate::{Door, Failed, MemSink, MemSource, NoMemory};
use std::alloc::Global;
use std::marker::Model;

/// A door through which pairs of a source and a sink in memory come, and which fails at chosen calls.
#[derive(Drop)]
pub struct MemDoor {
    // the last is the next to come
    waiting: Vec<(MemSource, MemSink)>,
    kept: Vec<(MemSource, MemSink)>,
    out: usize,
    port: Option<u16>,
    calls: NumberedCalls,
}

impl Model for MemDoor {
    ghost use Rattle.std.specs.Prelude.{◌≤◌, ◌+◌, vec_len, vec_capacity, reverse};
    ghost use Rattle.ipb_outside.specs.Doors.{MemDoorState};

    ghost Value = { MemDoorState };

    ghost view = { λ d. record {
      coming = reverse d.waiting.items;
      kept = d.kept.items;
      out = d.out;
      port = d.port;
      calls = d.calls;
    } };

    // The room for all connections was taken when the door was made, so that `keep` takes no memory.
    ghost invariant = { λ d. vec_len d.kept + d.out + vec_len d.waiting ≤ vec_capacity d.kept };
}

impl MemDoor {
    /// A door through which these pairs come, in order. `fail` lists the calls that fail: those of `listen` and
    /// `accept` have one numbering, from 1. The memory for keeping the pairs is reserved here.
    pub fn new(
        alloc: Global,
        pairs: Vec<(MemSource, MemSink)>,
        fail: Vec<u64>,
    ) -> Result<MemDoor, NoMemory>
        ensures { IfOk result (λ door. door ≡ record {
          coming = pairs.items;
          kept = [];
          out = 0;
          port = None;
          calls = record { fail = fail.items; made = 0; faults = 0 };
        }) }
    {
        let kept = Vec::with_capacity(alloc, pairs.len())?;
        let mut waiting = pairs;
        waiting.reverse();
        Ok(MemDoor {
            waiting,
            kept,
            out: 0,
            port: None,
            calls: NumberedCalls::new(fail),
        })
    }

    /// The pair that was given back as number `i`, from 0.
    pub fn kept(&self, i: usize) -> Option<&(MemSource, MemSink)>
        ensures { MatchOption result (length self.now.kept ≤ i) (λ pair. slice_get self.now.kept i ≡ Some pair.now) }
    {
        self.kept.get(i)
    }
}

impl Door for MemDoor {
    type Incoming = MemSource;

    type Outgoing = MemSink;

    ghost coming = { λ d. Some d.coming };

    ghost kept = { λ d. Some d.kept };

    ghost out = { λ d. d.out };

    ghost ports = { λ d. option_to_list d.port };

    ghost faults = { λ d. d.calls.faults };

    /// `Failed` comes exactly where the number of the call is among those that fail, or the door listens already.
    fn listen(&mut self, port: u16) -> Result<(), Failed>
        ensures failed { IsErr result ↔ (FailsNext self.old.calls ⊎ IsSome self.old.port) }
        ensures after { OnOk result (self.new ≡ record self.old {
          port = Some port;
          calls = after_call self.old.calls;
        }) }
        ensures after_failure { OnErr result (self.new ≡ record self.old {
          calls = after_fault (after_call self.old.calls);
        }) }
        ensures faults { RisesExactlyIf (IsErr result) self.old.calls.faults self.new.calls.faults }
    {
        self.calls.begin()?;
        if self.port.is_some() {
            self.calls.fault();
            return Err(Failed);
        }
        self.port = Some(port);
        Ok(())
    }

    /// `Failed` comes exactly where the number of the call is among those that fail, or no pair is left to come.
    fn accept(&mut self) -> Result<(MemSource, MemSink), Failed>
        ensures failed { IsErr result ↔ (FailsNext self.old.calls ⊎ (self.old.coming ≡ [])) }
        ensures first { IfOk result (λ pair. self.old.coming ≡ pair ∷ self.new.coming) }
        ensures after { OnOk result (self.new ≡ record self.old {
          coming = self.new.coming;
          out = self.old.out + 1;
          calls = after_call self.old.calls;
        }) }
        ensures after_failure { OnErr result (self.new ≡ record self.old {
          calls = after_fault (after_call self.old.calls);
        }) }
        ensures faults { RisesExactlyIf (IsErr result) self.old.calls.faults self.new.calls.faults }
    {
        self.calls.begin()?;
        match self.waiting.pop() {
            Some(pair) => {
                self.out += 1;
                Ok(pair)
            }
            None => {
                self.calls.fault();
                Err(Failed)
            }
        }
    }

    fn keep(&mut self, incoming: MemSource, outgoing: MemSink)
        requires { 0 < self.old.out }
        ensures { self.new ≡ record self.old {
          kept = self.old.kept ++ (incoming, outgoing) ∷ [];
          out = self.old.out - 1;
        } }
    {
        self.out -= 1;
        self.kept.push_reserved((incoming, outgoing));
    }
}
