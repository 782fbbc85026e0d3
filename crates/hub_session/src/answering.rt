//! The reply frame to one request frame.

ghost use Rattle.std.specs.Prelude.{◌≡◌, ◌++◌, length, IfOk, IfSome, OnOk, OnErr, Some};
ghost use Rattle.std.specs.List.{AllByRecursion, slice_get};
ghost use Rattle.packet_codec.specs.Packet.{IsPacket};
ghost use Rattle.lane_record.specs.Outcomes.{IsShort};
ghost use Rattle.hub_multiplexer.specs.Seats.{IsSeatOf};
ghost use Rattle.hub_framing.specs.Frames.{reply_bytes};
ghost use Rattle.hub_session.specs.declared.got.Got.{Got as GotValue};
ghost use Rattle.hub_session.specs.Answers;
ghost use Rattle.hub_session.specs.Answers.{answer, code_alone, control_packet, reply_of_board, reply_of_lane};
ghost use Rattle.hub_session.specs.Answers.{reply_of_outcome, reply_of_packet};
ghost use Rattle.hub_session.specs.Exchanges.{Exchanges, ExchangesFor, request_in};
ghost use Rattle.hub_session.specs.Serving.{IsLaneBelow, Reached, ReachesFor};
ghost use Rattle.hub_session.specs.Inside.{IsSameSeat, IsSettled, IsShortGot, StandsOf};

use crate::asking::ask_board;
use crate::boards::Boards;
use crate::codes::{
    BAD_PACKET, BODY_TOO_LONG, LINK_LOST, NO_BOARD, OVERFULL, REPLIED, REPLY_TOO_LONG, TIMED_OUT,
    UNSENT,
};
use crate::got::{BodyRefusal, Got};
use hub_framing::{Frame, append_reply_head};
use hub_lane::BoardState;
use hub_multiplexer::{Hub, Link, NoMemory, Outcome, Seat};
use packet_codec::laws::reading_is_the_grammar;
use packet_codec::{BadPacket, Head, Order, Packet, PacketKind, append_packet, read_packet};
use std::alloc::Global;
use std::sync::Wait;

/// The control packet that bytes spell, if they spell one.
fn read_control(alloc: Global, bytes: &[u8]) -> Result<Option<Packet>, NoMemory>
    ensures read { IfOk result (λ packet. control_packet bytes.now ≡ packet) }
    ensures packet { IfOk result (λ read. IfSome read IsPacket) }
{
    reading_is_the_grammar();
    match read_packet(alloc, bytes) {
        Ok(packet) => Ok(if_control(packet)),
        Err(fault) => {
            if fault == BadPacket::NoMemory {
                return Err(NoMemory);
            }
            Ok(None)
        }
    }
}

/// The packet, if it is a control packet.
fn if_control(packet: Packet) -> Option<Packet>
    ensures { result ≡ Answers.if_control packet packet.kind }
{
    match packet.kind {
        PacketKind::Control => Some(packet),
        PacketKind::Status => None,
        PacketKind::Resend => None,
    }
}

/// Appends a reply frame without a packet.
fn append_code(out: &mut Vec<u8>, board: u32, code: u16) -> Result<(), NoMemory>
    ensures { OnOk result (out.new.items ≡ out.old.items ++ reply_bytes (code_alone board code)) }
{
    append_reply_head(out, board, code, 0)
}

/// Appends the reply frame with the words of a board's reply.
fn append_replied(
    out: &mut Vec<u8>,
    board: u32,
    order: Order,
    id: u16,
    words: &[u32],
) -> Result<(), NoMemory>
    requires { IsShort (Outcome.Replied 0 words.now) }
    ensures { OnOk result (out.new.items ≡ out.old.items
        ++ reply_bytes (reply_of_outcome board order id (Outcome.Replied 0 words.now))) }
{
    append_reply_head(out, board, REPLIED, 4 + 4 * words.len())?;
    let head = Head {
        order,
        id,
        kind: PacketKind::Control,
    };
    append_packet(out, head, words)
}

/// Appends the reply frame to what became of a body.
fn append_outcome(
    out: &mut Vec<u8>,
    board: u32,
    order: Order,
    id: u16,
    outcome: Outcome,
) -> Result<(), NoMemory>
    requires { IsShort outcome }
    ensures { OnOk result (out.new.items ≡ out.old.items ++ reply_bytes (reply_of_outcome board order id outcome)) }
{
    match outcome {
        Outcome::Replied { place: _, words } => {
            append_replied(out, board, order, id, words.as_slice())
        }
        Outcome::TimedOut {
            place: _,
            rounds: _,
        } => append_code(out, board, TIMED_OUT),
        Outcome::Unsent => append_code(out, board, UNSENT),
        Outcome::LinkLost { place: _ } => append_code(out, board, LINK_LOST),
    }
}

/// The code of a refusal.
fn refusal_code(why: BodyRefusal) -> u16
    ensures { result ≡ Answers.refusal_code why }
{
    match why {
        BodyRefusal::TooLong => BODY_TOO_LONG,
        BodyRefusal::ReplyTooLong => REPLY_TOO_LONG,
        BodyRefusal::Overfull => OVERFULL,
        BodyRefusal::Sealed => OVERFULL,
    }
}

/// Appends the reply frame for a board with a lane.
fn append_got(
    out: &mut Vec<u8>,
    board: u32,
    order: Order,
    id: u16,
    got: Got,
) -> Result<(), NoMemory>
    requires { IsShortGot got }
    ensures { OnOk result (out.new.items ≡ out.old.items ++ reply_bytes (reply_of_lane board order id got)) }
{
    match got {
        Got::NotAsked => append_code(out, board, UNSENT),
        Got::Refused(why) => append_code(out, board, refusal_code(why)),
        Got::Came(outcome) => append_outcome(out, board, order, id, outcome),
    }
}

/// Appends the reply frame to a control packet with this byte order and identifier.
fn append_reply(
    out: &mut Vec<u8>,
    board: u32,
    order: Order,
    id: u16,
    state: Option<BoardState>,
    got: Got,
) -> Result<(), NoMemory>
    requires { IsShortGot got }
    ensures { OnOk result (out.new.items ≡ out.old.items ++ reply_bytes (reply_of_board board order id state got)) }
{
    match state {
        None => append_code(out, board, NO_BOARD),
        Some(BoardState::Silent) => append_code(out, board, UNSENT),
        Some(BoardState::Down) => append_code(out, board, LINK_LOST),
        Some(BoardState::Lane(_lane)) => append_got(out, board, order, id, got),
    }
}

/// Appends the reply frame to a control packet for a board that stands so, after the hub was asked where the board has a
/// lane.
fn answer_packet<R: Wait, L: Link + Send>(
    rt: &R,
    hub: &Hub<L>,
    seat: &mut Seat,
    board: u32,
    state: Option<BoardState>,
    packet: Packet,
    out: &mut Vec<u8>,
) -> Result<(), NoMemory>
    requires lane { IfSome state (IsLaneBelow (length hub.now.turns)) }
    requires seat { IsSeatOf hub.now seat.old }
    requires settled { AllByRecursion IsSettled seat.old.knows }
    requires packet { IsPacket packet }
    ensures same { IsSameSeat seat.old seat.new }
    ensures answered { OnOk result ((got : GotValue)
        × ExchangesFor (request_in (Some packet) state) got seat.old seat.new
        × (out.new.items ≡ out.old.items ++ reply_bytes (reply_of_packet board (Some packet) state got))) }
    ensures settled { OnOk result (AllByRecursion IsSettled seat.new.knows) }
    ensures reached { OnErr result ((reached : Reached)
        × ReachesFor (request_in (Some packet) state) reached seat.old seat.new) }
{
    let Packet {
        order,
        id,
        kind: _,
        body,
    } = packet;
    let got = ask_board(rt, hub, seat, state, body)?;
    append_reply(out, board, order, id, state, got)
}

/// How the board at a position stands, if there is one.
pub(crate) fn state_at(map: &[BoardState], board: u32) -> Option<BoardState>
    ensures { result ≡ slice_get map.now board }
{
    map.get(board as usize).copied()
}

/// Appends the reply frame to a request frame, after the hub was asked where the frame has a body for a lane. After
/// `NoMemory` a part of it may stand there.
pub(crate) fn answer_frame<R: Wait, L: Link + Send>(
    rt: &R,
    boards: &Boards<L>,
    seat: &mut Seat,
    frame: &Frame,
    out: &mut Vec<u8>,
) -> Result<(), NoMemory>
    requires lanes { AllByRecursion (IsLaneBelow (length boards.now.hub.now.turns)) boards.now.map.now }
    requires seat { IsSeatOf boards.now.hub.now seat.old }
    requires settled { AllByRecursion IsSettled seat.old.knows }
    ensures same { IsSameSeat seat.old seat.new }
    ensures answered { OnOk result ((got : GotValue)
        × Exchanges boards.now.map.now (record { frame = frame.now; got = got }) seat.old seat.new
        × (out.new.items ≡ out.old.items ++ answer boards.now.map.now frame.now got)) }
    ensures settled { OnOk result (AllByRecursion IsSettled seat.new.knows) }
    ensures stands { OnErr result (StandsOf boards.now.map.now frame.now seat.old seat.new) }
{
    let board = frame.board;
    match read_control(*out.allocator(), frame.packet.as_slice())? {
        Some(packet) => {
            let state = state_at(boards.map, board);
            answer_packet(rt, boards.hub, seat, board, state, packet, out)
        }
        None => append_code(out, board, BAD_PACKET),
    }
}
