ghost use Rattle.std.specs.Prelude.{◌≡◌, IfOk};
ghost use Rattle.transaction_codec.specs.First.{op_of, reply_of};
ghost use Rattle.transaction_codec.specs.Request.{op_kind};
ghost use Rattle.reply_join.specs.Joining as of_joining;

use crate::read_words::ReadWords;
use ipb_base::NoMemory;
use smallvec::SmallVec;
use std::alloc::Global;
use std::marker::Model;
use transaction_codec::info_code::SUCCESS;
use transaction_codec::{FirstReply, OpRef};

/// What a reply answers to one request. IPbus 2.0, transaction header; what a failed transaction did is the profile's.
#[derive(Default, Drop, PartialEq, Eq)]
pub enum Answer {
    /// The request was done, and these words were read: those of a read, or the one word before an RMW.
    Values(ReadWords),
    /// The write was done.
    Done,
    /// The request failed with this info code, 4 to 7, after `after` words were done.
    Fault { code: u8, after: u8 },
    /// A request before it failed, so it was not executed.
    #[default]
    Skipped,
}

/// The answers to the requests of a body, in order. One of them takes no memory. Contracts see that list.
#[derive(Drop)]
pub struct Answers {
    pub(crate) items: SmallVec<Answer, 1>,
}

impl Model for Answers {
    ghost use Rattle.std.specs.Prelude.{List};
    ghost use Rattle.reply_join.specs.declared.answer.Answer.{Answer};

    ghost Value = { List Answer };

    ghost view = { λ answers. answers.items.items };
}

impl Answers {
    /// The answers, in order.
    pub fn as_slice(&self) -> &[Answer]
        ensures { result.now ≡ self.now }
    {
        self.items.as_slice()
    }
}

/// What one reply, which fits this operation, answers to it.
pub(crate) fn answer_of(
    alloc: Global,
    op: &OpRef<'_>,
    reply: &FirstReply<'_>,
) -> Result<Answer, NoMemory>
    requires { reply.now.kind ≡ op_kind (op_of op.now) }
    ensures { IfOk result (λ answer. answer ≡ of_joining.answer_of (reply_of reply.now)) }
{
    if reply.code != SUCCESS {
        return Ok(Answer::Fault {
            code: reply.code,
            after: reply.count,
        });
    }
    match *op {
        OpRef::Write { .. } | OpRef::WritePort { .. } => Ok(Answer::Done),
        _ => Ok(Answer::Values(ReadWords::copy_of(alloc, reply.values)?)),
    }
}
