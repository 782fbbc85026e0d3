//! A simulated link, which loses, repeats and delays datagrams as it is told, and tells all that it carries.

ghost use Rattle.std.specs.Prelude.{◌≡◌, ◌↔◌, ◌≤◌, ◌<◌, ◌^◌, ℕ, [], length, true, false, Err, Ok, IfOk, OnOk, OnErr};
ghost use Rattle.world_model.specs.Board.{bodies_executed};
ghost use Rattle.links.specs.declared.link.TheConstants.{MAX_DATAGRAM};
ghost use Rattle.links.specs.declared.link.LinkFault.TheVariants.{Failed, NoMemory as no_memory};
ghost use Rattle.lossy_network.specs.Network.{Network, all_taken, with_call_counted, with_fault, fails, front, new_network, put_at};
ghost use Rattle.lossy_network.specs.Network.{receipt_at, network_receipt, network_with_send, takes, with_number, with_sent};
ghost use Rattle.lossy_network.specs.Inside.{IsTaken, stands};

use crate::air::Air;
use crate::fates::{next_fate, noise_generator};
use crate::handing::hand_over;
use crate::under_way::UnderWay;
use board_node::Board;
use board_specs::Fates;
use ipb_base::NoMemory;
use links::{LinkFault, LinkNumber, MAX_DATAGRAM, Received, TrafficLog};
use rand_pcg::Lcg64Xsh32;
use std::alloc::Global;
use std::marker::Model;

/// A link to a board in the same process. Every datagram that is sent on it, by the hub or by the board, meets the fate
/// that the link was made with. Contracts see it as a `Network`.
#[derive(Drop)]
pub struct SimLink {
    air: Air,
    under_way: UnderWay,
    handed: Vec<usize>,
    fates: Fates,
    noise: Lcg64Xsh32,
    fail: Vec<u64>,
    calls: u64,
    faults: u64,
    quiets: u64,
    gots: u64,
    passed: TrafficLog,
    number: LinkNumber,
}

impl Model for SimLink {
    ghost use Rattle.lossy_network.specs.Network.{Network};

    ghost Value = { Network };

    ghost use Rattle.lossy_network.specs.Inside.{network_of, IsLink};

    ghost view = { network_of };

    ghost invariant = { IsLink };
}

impl SimLink {
    /// A link to a board that has executed nothing, with an empty air and counts of 0. The calls of `send` and
    /// `receive` are counted together from 1, and those whose numbers are in `fail` fail. `NoMemory` where memory ran
    /// out for what can be delayed.
    pub fn new(
        alloc: Global,
        board: Board,
        fates: Fates,
        fail: Vec<u64>,
    ) -> Result<SimLink, NoMemory>
        requires { bodies_executed board ≡ [] }
        ensures { IfOk result (λ link. link ≡ new_network board fates fail.items) }
    {
        let noise = noise_generator(&fates);
        let under_way = UnderWay::new(alloc)?;
        Ok(SimLink {
            air: Air::new(alloc, board),
            under_way,
            handed: Vec::new(alloc),
            fates,
            noise,
            fail,
            calls: 0,
            faults: 0,
            quiets: 0,
            gots: 0,
            passed: TrafficLog::new(),
            number: LinkNumber::after(0),
        })
    }

    /// Numbers the link among those that its rack made, of which so many were made before. It does nothing when it runs.
    pub fn set_number(&mut self, others: usize)
        ensures { self.new ≡ with_number others self.old }
    {
        self.number = LinkNumber::after(others);
    }

    /// The simulated board at the end of the link.
    pub fn board(&self) -> &Board
        ensures { result.now ≡ self.now.told.board }
    {
        self.air.board()
    }

    /// The board, given back.
    pub fn into_board(self) -> Board
        ensures { result ≡ self.told.board }
    {
        let SimLink { air, .. } = self;
        air.into_board()
    }

    /// How many datagrams were lost, delayed or dropped for age.
    pub fn held(&self) -> u64
        ensures { result ≡ self.now.traffic.held }
    {
        self.under_way.held
    }

    /// How many receives were quiet.
    pub fn quiets(&self) -> u64
        ensures { result ≡ self.now.quiets }
    {
        self.quiets
    }

    /// Each count is one of 64 bits. It does nothing when it runs.
    pub fn counts_fit(&self)
        ensures calls { self.now.calls < 2 ^ 64 }
        ensures faults { self.now.faults < 2 ^ 64 }
        ensures quiets { self.now.quiets < 2 ^ 64 }
        ensures gots { self.now.gots < 2 ^ 64 }
        ensures held { self.now.traffic.held < 2 ^ 64 }
    {
        fits(self.calls);
        fits(self.faults);
        fits(self.quiets);
        fits(self.gots);
        fits(self.under_way.held);
    }

    /// Sends a datagram of at most 9000 bytes to the board. `Failed` where the call's number was named. It costs the
    /// datagram.
    pub fn send(&mut self, bytes: &[u8]) -> Result<(), LinkFault>
        requires { length bytes.now ≤ MAX_DATAGRAM }
        ensures sent { OnOk result (self.new ≡ network_with_send self.old bytes.now) }
        ensures fails { (result ≡ Err Failed) ↔ (fails self.old ≡ true) }
        ensures failed { result ≡ Err Failed → self.new ≡ with_fault self.old }
        ensures no_memory { result ≡ Err no_memory → self.new ≡ with_call_counted self.old }
    {
        self.count_call()?;
        self.carry(bytes)?;
        Ok(())
    }

    /// Lets the board hear what is ready to be heard, up to a datagram for the hub. That one is put into `into`, in
    /// place of what stood there; `into` is empty where there is none. `Failed` where the call's number was named.
    /// Where memory ran out the board has heard some datagrams, each whole, and the others are still to be heard. It
    /// costs the datagrams that are heard and their answers.
    pub fn receive(&mut self, into: &mut Vec<u8>) -> Result<Received, LinkFault>
        ensures received { OnOk result (self.new ≡ (network_receipt self.old).after) }
        ensures answer { IfOk result (λ answer. answer ≡ (network_receipt self.old).answer) }
        ensures bytes { OnOk result (into.new.items ≡ (network_receipt self.old).bytes) }
        ensures short { length into.new.items ≤ MAX_DATAGRAM }
        ensures empty { OnErr result (into.new.items ≡ []) }
        ensures fails { (result ≡ Err Failed) ↔ (fails self.old ≡ true) }
        ensures failed { result ≡ Err Failed → self.new ≡ with_fault self.old }
        ensures no_memory { result ≡ Err no_memory → (taken : ℕ) × (self.new ≡ takes taken (with_call_counted self.old)) }
    {
        into.clear();
        self.count_call()?;
        self.take_all()?;
        Ok(self.hand_out(into)?)
    }
}

impl SimLink {
    /// Counts a call. It fails where its number was named.
    fn count_call(&mut self) -> Result<(), LinkFault>
        ensures ok { OnOk result ((fails self.old ≡ false) × (self.new ≡ with_call_counted self.old)) }
        ensures failed { OnErr result ((fails self.old ≡ true) × (self.new ≡ with_fault self.old)) }
        ensures fault { OnErr result (result ≡ Err Failed) }
    {
        self.calls = self.calls.saturating_add(1);
        if self.fail.contains(&self.calls) {
            self.faults = self.faults.saturating_add(1);
            return Err(LinkFault::Failed);
        }
        Ok(())
    }

    /// Puts a datagram for the board into the air and on its way.
    fn carry(&mut self, bytes: &[u8]) -> Result<(), NoMemory>
        ensures sent { OnOk result (self.new ≡
            put_at (length self.old.told.air) (with_sent self.old bytes.now)) }
        ensures unchanged { OnErr result (self.new ≡ self.old) }
    {
        self.under_way.reserve()?;
        let place = self.air.len();
        self.air.send(bytes)?;
        let fate = next_fate(&self.fates, &mut self.noise, place);
        self.under_way.put(fate, place);
        self.passed.add_sent(bytes);
        Ok(())
    }

    /// Takes datagrams from the front of the queue until there is one for the hub, or none.
    fn take_all(&mut self) -> Result<(), NoMemory>
        ensures all { OnOk result (self.new ≡ all_taken self.old) }
        ensures some { OnErr result ((taken : ℕ) × (self.new ≡ takes taken self.old)) }
        ensures stands { OnOk result (stands (front self.new) ≡ true) }
    {
        loop {
            if !self.take_front()? {
                return Ok(());
            }
        }
    }

    /// Takes one datagram, the front of the queue: the board hears it, or it is too old. `false` where it is one for
    /// the hub, or there is none.
    fn take_front(&mut self) -> Result<bool, NoMemory>
        ensures taken { IfOk result (λ taken. IsTaken taken self.old self.new) }
        ensures unchanged { OnErr result (self.new ≡ self.old) }
    {
        let Some(place) = self.under_way.front() else {
            return Ok(false);
        };
        if self.air.for_hub(place).is_some() {
            return Ok(false);
        }
        self.under_way.reserve()?;
        let board = self.air.board();
        board.answers_fit();
        board.keeps_its_ranges();
        let answer = self.air.len();
        let is_heard = self.air.hear(place)?;
        self.under_way.queue.pop_front();
        if !is_heard {
            self.under_way.count_dropped();
        } else if answer < self.air.len() {
            let fate = next_fate(&self.fates, &mut self.noise, answer);
            self.under_way.put(fate, answer);
        }
        Ok(true)
    }

    /// Hands out the datagram at the front of the queue, where there is one. `into` is empty.
    fn hand_out(&mut self, into: &mut Vec<u8>) -> Result<Received, NoMemory>
        requires stands { stands (front self.old) ≡ true }
        requires empty { into.old.items ≡ [] }
        ensures answer { IfOk result (λ answer. answer ≡ (receipt_at self.old (front self.old)).answer) }
        ensures after { OnOk result (self.new ≡ (receipt_at self.old (front self.old)).after) }
        ensures bytes { OnOk result (into.new.items ≡ (receipt_at self.old (front self.old)).bytes) }
        ensures short { length into.new.items ≤ MAX_DATAGRAM }
        ensures unchanged { OnErr result (self.new ≡ self.old) }
        ensures none { OnErr result (into.new.items ≡ []) }
    {
        let Some(place) = self.under_way.front() else {
            self.passed.add_quiet();
            self.quiets = self.quiets.saturating_add(1);
            return Ok(Received::Quiet);
        };
        let Some(bytes) = self.air.for_hub(place) else {
            unreachable!();
        };
        self.handed.reserve(1)?;
        hand_over(&mut self.passed, bytes, into)?;
        self.under_way.queue.pop_front();
        self.handed.push_reserved(place);
        self.gots = self.gots.saturating_add(1);
        Ok(Received::Got)
    }
}

/// A count is one of 64 bits.
pub(crate) fn fits(count: u64)
    ensures { count < 2 ^ 64 }
{}
