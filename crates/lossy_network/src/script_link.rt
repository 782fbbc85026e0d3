//! A link whose answers are given beforehand.

ghost use Rattle.std.specs.Prelude.{◌≡◌, ◌≢◌, ◌↔◌, ◌≤◌, ◌<◌, ◌^◌, [], length, true, false, IsTrue, Err, IfOk, OnOk, OnErr};
ghost use Rattle.std.specs.List.{slice_get};
ghost use Rattle.links.specs.declared.link.TheConstants.{MAX_DATAGRAM};
ghost use Rattle.links.specs.declared.link.LinkFault.TheVariants.{Failed, NoMemory as no_memory};
ghost use Rattle.lossy_network.specs.Scripts.{AreDatagrams, bytes_of, script_call_counted, script_with_fault, fails, new_script};
ghost use Rattle.lossy_network.specs.Scripts.{receipt_of, script_receipt, script_with_number, script_with_send};

use crate::handing::hand_over;
use crate::link::fits;
use ipb_base::NoMemory;
use links::{Link, LinkFault, LinkNumber, MAX_DATAGRAM, Received, TrafficLog};
use std::marker::Model;

/// A link whose answers are given beforehand, whatever is sent: those of a board that may answer anything. It tells
/// nothing of what it carries, and holds nothing back. Contracts see it as a `ScriptState`.
#[derive(Drop)]
pub struct ScriptLink {
    answers: Vec<Vec<u8>>,
    next: usize,
    fail: Vec<u64>,
    calls: u64,
    faults: u64,
    quiets: u64,
    gots: u64,
    passed: TrafficLog,
    number: LinkNumber,
}

impl Model for ScriptLink {
    ghost use Rattle.lossy_network.specs.Scripts.{ScriptState};

    ghost Value = { ScriptState };

    ghost use Rattle.lossy_network.specs.ScriptsInside.{script_of, IsScript};

    ghost view = { script_of };

    ghost invariant = { IsScript };
}

/// Whether each of these answers is at most as long as a datagram, 9000 bytes.
pub fn are_datagrams(answers: &[Vec<u8>]) -> bool
    ensures { IsTrue result ↔ AreDatagrams answers.now }
{
    answers.iter().all(|bytes| bytes.len() <= MAX_DATAGRAM)
}

impl ScriptLink {
    /// A link that hands out these answers in order, of at most 9000 bytes each, with counts of 0. The calls of `send`
    /// and `receive` are counted together from 1, and those whose numbers are in `fail` fail.
    pub fn new(answers: Vec<Vec<u8>>, fail: Vec<u64>) -> ScriptLink
        requires { AreDatagrams answers.items }
        ensures { result ≡ new_script (bytes_of answers.items) fail.items }
    {
        ScriptLink {
            answers,
            next: 0,
            fail,
            calls: 0,
            faults: 0,
            quiets: 0,
            gots: 0,
            passed: TrafficLog::new(),
            number: LinkNumber::after(0),
        }
    }

    /// Numbers the link among those that its rack made, of which so many were made before. It does nothing when it runs.
    pub fn set_number(&mut self, others: usize)
        ensures { self.new ≡ script_with_number others self.old }
    {
        self.number = LinkNumber::after(others);
    }

    /// The answers that were handed out, in order.
    pub fn handed(&self) -> &[Vec<u8>]
        ensures { bytes_of result.now ≡ self.now.handed }
    {
        self.answers.get(..self.next).unwrap_or(&self.answers)
    }

    /// How many receives were quiet.
    pub fn quiets(&self) -> u64
        ensures { result ≡ self.now.quiets }
    {
        self.quiets
    }

    /// Each count is one of 64 bits. It does nothing when it runs.
    pub fn counts_fit(&self)
        ensures calls { self.now.calls < 2 ^ 64 }
        ensures faults { self.now.faults < 2 ^ 64 }
        ensures quiets { self.now.quiets < 2 ^ 64 }
        ensures gots { self.now.gots < 2 ^ 64 }
    {
        fits(self.calls);
        fits(self.faults);
        fits(self.quiets);
        fits(self.gots);
    }

    /// Takes a datagram and forgets it. `Failed` where the call's number was named, and no other fault. It takes no
    /// memory.
    pub fn send(&mut self, bytes: &[u8]) -> Result<(), LinkFault>
        ensures sent { OnOk result (self.new ≡ script_with_send self.old bytes.now) }
        ensures fails { (result ≡ Err Failed) ↔ (fails self.old ≡ true) }
        ensures failed { result ≡ Err Failed → self.new ≡ script_with_fault self.old }
        ensures no_other { result ≢ Err no_memory }
    {
        self.count_call()?;
        self.passed.add_sent(bytes);
        Ok(())
    }

    /// Puts the next answer into `into`, in place of what stood there. It is quiet where none is left; `into` is empty
    /// then. `Failed` where the call's number was named. Where memory ran out the answer is still the next one.
    pub fn receive(&mut self, into: &mut Vec<u8>) -> Result<Received, LinkFault>
        ensures received { OnOk result (self.new ≡ (script_receipt self.old).after) }
        ensures answer { IfOk result (λ answer. answer ≡ (script_receipt self.old).answer) }
        ensures bytes { OnOk result (into.new.items ≡ (script_receipt self.old).bytes) }
        ensures short { length into.new.items ≤ MAX_DATAGRAM }
        ensures empty { OnErr result (into.new.items ≡ []) }
        ensures fails { (result ≡ Err Failed) ↔ (fails self.old ≡ true) }
        ensures failed { result ≡ Err Failed → self.new ≡ script_with_fault self.old }
        ensures no_memory { result ≡ Err no_memory → self.new ≡ script_call_counted self.old }
    {
        into.clear();
        self.count_call()?;
        Ok(self.hand_out(into)?)
    }
}

impl ScriptLink {
    /// Counts a call. It fails where its number was named.
    fn count_call(&mut self) -> Result<(), LinkFault>
        ensures ok { OnOk result ((fails self.old ≡ false) × (self.new ≡ script_call_counted self.old)) }
        ensures failed { OnErr result ((fails self.old ≡ true) × (self.new ≡ script_with_fault self.old)) }
        ensures fault { OnErr result (result ≡ Err Failed) }
    {
        self.calls = self.calls.saturating_add(1);
        if self.fail.contains(&self.calls) {
            self.faults = self.faults.saturating_add(1);
            return Err(LinkFault::Failed);
        }
        Ok(())
    }

    /// Hands out the next answer, where one is left. `into` is empty.
    fn hand_out(&mut self, into: &mut Vec<u8>) -> Result<Received, NoMemory>
        requires empty { into.old.items ≡ [] }
        ensures answer { IfOk result (λ answer. answer ≡ (receipt_of self.old self.old.left).answer) }
        ensures after { OnOk result (self.new ≡ (receipt_of self.old self.old.left).after) }
        ensures bytes { OnOk result (into.new.items ≡ (receipt_of self.old self.old.left).bytes) }
        ensures short { length into.new.items ≤ MAX_DATAGRAM }
        ensures unchanged { OnErr result (self.new ≡ self.old) }
        ensures none { OnErr result (into.new.items ≡ []) }
    {
        let Some(bytes) = self.answers.get(self.next) else {
            self.passed.add_quiet();
            self.quiets = self.quiets.saturating_add(1);
            return Ok(Received::Quiet);
        };
        hand_over(&mut self.passed, bytes, into)?;
        self.next += 1;
        self.gots = self.gots.saturating_add(1);
        Ok(Received::Got)
    }
}

impl Link for ScriptLink {
    ghost use Rattle.std.specs.Prelude.{None};

    ghost telling = { λ link. None };

    ghost faults = { λ link. link.faults };

    ghost quiets = { λ link. link.quiets };

    ghost gots = { λ link. link.gots };

    ghost held = { λ link. 0 };

    ghost traffic = { λ link. link.passed };

    ghost number = { λ link. link.number };

    fn send(&mut self, bytes: &[u8]) -> Result<(), LinkFault> {
        self.counts_fit();
        ScriptLink::send(self, bytes)
    }

    fn receive(&mut self, into: &mut Vec<u8>) -> Result<Received, LinkFault> {
        self.counts_fit();
        ScriptLink::receive(self, into)
    }
}
