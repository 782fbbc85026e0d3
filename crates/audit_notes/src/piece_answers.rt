//! What an operation comes to by the replies to its bodies.

use ipb_base::{NoMemory, Words};
use masked_fields::extract;
use reply_join::{Answer, Answers, JoinRefusal, join_reply};
use script_plans::{PieceAt, Planned};
use script_steps::{RegOp, Verb};
use session_notes::words_read;
use std::alloc::Global;
use transcript::OpResult;

/// The reply to a body, by its number among those of its client on the board.
#[derive(Drop)]
pub(crate) struct Reply {
    pub(crate) body: usize,
    pub(crate) words: Words,
}

/// What an operation of these pieces comes to: what became of the first piece that was not done, or what all of them
/// gave. A piece without a reply was not sent. The replies stand in the order of their bodies.
pub(crate) fn result_of(
    alloc: Global,
    op: &RegOp,
    planned: &Planned,
    pieces: &[PieceAt],
    replies: &[Reply],
) -> Result<OpResult, NoMemory> {
    let mut words = Vec::with_capacity(alloc, words_read(&op.op))?;
    let mut replies = replies;
    for piece in pieces {
        replies = from_body(replies, piece.body);
        let Some(answers) = answers_at(alloc, planned, *piece, replies)? else {
            return Ok(OpResult::Unsent);
        };
        match answers.as_slice().get(piece.index as usize) {
            Some(Answer::Values(more)) => words.extend_from_slice(more.as_slice())?,
            Some(Answer::Done) => {}
            Some(Answer::Fault { code, after }) => {
                return Ok(OpResult::Error {
                    code: *code,
                    after: *after,
                });
            }
            Some(Answer::Skipped) | None => return Ok(OpResult::Skipped),
        }
    }
    Ok(shown(op, words))
}

/// The replies from that to this body on; none where it has no reply.
fn from_body(replies: &[Reply], body: usize) -> &[Reply] {
    for (i, reply) in replies.iter().enumerate() {
        if reply.body == body {
            return replies.get(i..).unwrap_or(&[]);
        }
    }
    &[]
}

/// The answers to the body of a piece, where the first of these is its reply.
fn answers_at(
    alloc: Global,
    planned: &Planned,
    piece: PieceAt,
    replies: &[Reply],
) -> Result<Option<Answers>, NoMemory> {
    let Some(body) = planned.bodies().get(piece.body) else {
        return Ok(None);
    };
    let Some(reply) = replies.first() else {
        return Ok(None);
    };
    match join_reply(alloc, body.as_slice(), reply.words.as_slice()) {
        Ok(answers) => Ok(Some(answers)),
        Err(JoinRefusal::Garbled { .. }) => Ok(None),
        Err(JoinRefusal::NoMemory) => Err(NoMemory),
    }
}

/// What an operation that was done shows of the words that it read.
fn shown(op: &RegOp, mut words: Vec<u32>) -> OpResult {
    match op.verb {
        Verb::Write | Verb::WriteBlock => OpResult::Done,
        Verb::RmwBits | Verb::RmwSum => OpResult::Was(words.first().copied().unwrap_or(0)),
        Verb::ReadBlock => OpResult::Value(Words::from_vec(words)),
        Verb::Read => {
            for word in words.as_mut_slice().iter_mut() {
                *word = shown_word(*word, op.mask);
            }
            OpResult::Value(Words::from_vec(words))
        }
    }
}

/// The field of a word under a mask.
fn shown_word(word: u32, mask: u32) -> u32 {
    if mask == 0 { 0 } else { extract(word, mask) }
}
