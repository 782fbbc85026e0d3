//! What stands in a board's turn at a hub.

ghost use Rattle.std.specs.Prelude.{◌≡◌, ◌≤◌, IfOk, IfErr, OnErr};
ghost use Rattle.transaction_codec.specs.Answer.{reply_room};
ghost use Rattle.hub_multiplexer.specs.AnyCalls.{AskMeansAs, BeginsAs, FindMeansAs, HasSubmittedAs, IsNone};
ghost use Rattle.hub_multiplexer.specs.AnyCalls.{MeansAs, StepMeansAs};
ghost use Rattle.hub_multiplexer.specs.Manner.{IsAllAsked};

use crate::answers::Performed;
use hub_lane::{Asked, NoMemory, Stepped, Waiter, Words};
use turn_pass::Chronicle;

/// What stands in a board's turn at a hub: a lane, or what serves a board as a lane does (profile).
///
/// Contracts see its record, and in which manner that tells what a pass finds there. A call for a client, from 1, adds
/// entries of this client alone.
pub trait AtHub: Chronicle {
    ghost use Rattle.hub_multiplexer.specs.Manner.{IsManner, Manner};

    /// Why a body is not submitted.
    type Refusal: Drop;

    /// In which manner the record tells what a pass finds.
    ghost manner: { Manner Self.Refusal };

    /// Asks the client's next planned body. Want of memory adds nothing.
    fn ask_next(&mut self, client: u32) -> Result<Asked, NoMemory>
        requires client { 1 ≤ client }
        ensures asked { IfOk result (λ asked. MeansAs manner client (Self.entries self.old)
            (λ k. AskMeansAs manner k asked) (Self.entries self.new)) }
        ensures looked { OnErr result (MeansAs manner client (Self.entries self.old)
            (λ _. IsNone) (Self.entries self.new)) };

    /// Pumps once at most, and takes what became of the client's oldest asked and untaken body. Want of memory adds
    /// nothing.
    fn step_for(&mut self, client: u32) -> Result<Stepped, NoMemory>
        requires client { 1 ≤ client }
        ensures stepped { IfOk result (λ stepped. MeansAs manner client (Self.entries self.old)
            (λ k. StepMeansAs manner k stepped) (Self.entries self.new)) }
        ensures looked { OnErr result (MeansAs manner client (Self.entries self.old)
            (λ _. IsNone) (Self.entries self.new)) };

    /// Sends what waits to be sent, and takes what became of the client's oldest asked and untaken body, if anything
    /// did. It receives nothing, unless it has stopped: then it tells at once what came. Want of memory adds nothing.
    fn look_for(&mut self, client: u32) -> Result<Option<Performed>, NoMemory>
        requires client { 1 ≤ client }
        ensures found { IfOk result (λ found. MeansAs manner client (Self.entries self.old)
            (λ k. FindMeansAs manner k found) (Self.entries self.new)) }
        ensures looked { OnErr result (MeansAs manner client (Self.entries self.old)
            (λ _. IsNone) (Self.entries self.new)) };

    /// Plans a body of the client, and asks it, and answers its number among the client's bodies. `reply_words` is the
    /// words of the longest reply to it. The client has asked all bodies that stand planned for it.
    fn submit_for(
        &mut self,
        client: u32,
        body: Words,
        reply_words: u32,
    ) -> Result<u64, Self::Refusal>
        requires client { 1 ≤ client }
        requires reply { reply_words ≡ reply_room body }
        requires all_asked { IsAllAsked client (Self.entries self.old) }
        ensures submitted { IfOk result (λ seq. MeansAs manner client (Self.entries self.old)
            (λ k. HasSubmittedAs manner k body seq) (Self.entries self.new)) }
        ensures refused { IfErr result (λ why. MeansAs manner client (Self.entries self.old)
            (λ k. manner.refuses k body why) (Self.entries self.new)) };

    /// Begins another greeting of the board where one is due, and waits for its answer. Whether one began: then the board
    /// has another link, and what waits beside it is another. One begins only where nothing that any client asked is
    /// without an outcome or untaken.
    fn begin_for(&mut self, client: u32) -> bool
        requires client { 1 ≤ client }
        ensures { BeginsAs manner client (Self.entries self.old) (Self.entries self.new) };

    /// Whether it sends and receives no more, so that whoever waits for it is to look.
    fn has_stopped(&self) -> bool;

    /// What waits for the next datagram of its link, beside it. `None` where there is nothing to wait for, or no room
    /// for it.
    fn waiter_beside(&mut self) -> Option<Waiter>
        ensures { Self.entries self.new ≡ Self.entries self.old };

    /// The record tells all entries that were added.
    ghost sound: { IsManner manner };
}
