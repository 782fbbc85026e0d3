//! What the lines of scripts become.

ghost use Rattle.std.specs.Prelude.{◌≡◌};
ghost use Rattle.script_steps.specs.Rulings.{steps_under_policy, ruled_step};

use ipb_base::Text;
use std::marker::Model;
use std::mem;
use transaction_codec::Op;

/// The operations of a script (uHAL).
#[derive(Clone, Copy, PartialEq, Eq)]
pub enum Verb {
    /// `read REG`
    Read,
    /// `write REG VALUE`
    Write,
    /// `readblock REG COUNT`
    ReadBlock,
    /// `writeblock REG VALUE ..`
    WriteBlock,
    /// `rmwbits REG AND OR`
    RmwBits,
    /// `rmwsum REG ADDEND`
    RmwSum,
}

/// An operation on a register, and the line that asks for it.
#[derive(Drop)]
pub struct RegOp {
    /// The line's number in its script, from 1.
    pub line: u32,
    pub verb: Verb,
    /// The board's position from 0.
    pub board: u32,
    /// The register's name in the board's table.
    pub name: Text,
    /// The register's mask, under which a word that was read is shown.
    pub mask: u32,
    /// The operation on the bus.
    pub op: Op,
}

/// What an access policy says of a step (profile).
#[derive(Clone, Copy, PartialEq, Eq)]
pub enum Decision {
    Allowed,
    /// The rule of this number, from 1, denies it; 0 where no rule of the policy decides.
    Denied { rule: u32 },
}

/// What a client does.
#[derive(Drop)]
pub enum Step {
    Do(RegOp),
    /// An operation that a policy denies, and the number of the rule: nothing of it is sent.
    Denied { rule: u32, op: RegOp },
    /// The operations since the last dispatch are sent, and their outcomes awaited.
    Dispatch,
}

impl Step {
    /// Puts the step under what a policy says of it. It takes no memory.
    pub fn rule(&mut self, decision: Decision)
        ensures { self.new ≡ ruled_step self.old decision }
    {
        let Decision::Denied { rule } = decision else {
            return;
        };
        let ruled = match mem::replace(self, Step::Dispatch) {
            Step::Do(op) => Step::Denied { rule, op },
            step => step,
        };
        *self = ruled;
    }
}

/// The steps of one client, in order. Contracts see that list.
#[derive(Drop)]
pub struct Steps {
    items: Vec<Step>,
}

impl Model for Steps {
    ghost use Rattle.std.specs.Prelude.{List};
    ghost use Rattle.script_steps.specs.declared.operation.Step.{Step};

    ghost Value = { List Step };

    ghost view = { λ steps. steps.items.items };
}

impl Steps {
    /// The steps of a vector, in its order. It takes no memory.
    pub fn from_vec(items: Vec<Step>) -> Steps
        ensures { result ≡ items.items }
    {
        Steps { items }
    }

    /// The vector of these steps. It takes no memory.
    pub fn into_vec(self) -> Vec<Step>
        ensures { result.items ≡ self }
    {
        let Steps { items } = self;
        items
    }

    /// The steps, in order.
    pub fn as_slice(&self) -> &[Step]
        ensures { result.now ≡ self.now }
    {
        self.items.as_slice()
    }

    /// Puts each step under the decision of its position. It takes no memory.
    #[tactic(auto, using(crate::proofs::Ruling::ruled_to_the_end))]
    pub fn rule(&mut self, decisions: &[Decision])
        ensures { self.new ≡ steps_under_policy self.old decisions.now }
    {
        let count = self.items.len().min(decisions.len());
        for i in 0..count {
            self.items[i].rule(decisions[i]);
        }
    }
}
