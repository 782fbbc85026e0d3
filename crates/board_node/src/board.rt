//! A board: what it keeps, and what it does with a datagram.

ghost use Rattle.std.specs.Prelude.{◌≡◌, ◌≤◌, ◌<◌, ◌+◌, ℕ, List, [], length, Some, true, false};
ghost use Rattle.std.specs.Prelude.{IfSome, IfOk, OnOk, OnErr};
ghost use Rattle.std.specs.List.{slice_get, AllByRecursion};
ghost use Rattle.ipb_base.specs.Numbers.{ip_udp_bytes};
ghost use Rattle.packet_ids.specs.Identifier.{IsIdentifier};
ghost use Rattle.board_bus.specs.Cells.{HoldsWords};
ghost use Rattle.board_node.specs.Log.{IsLoggable};
ghost use Rattle.transaction_codec.specs.Answer.{reply_room};
ghost use Rattle.packet_codec.specs.declared.packet.TheConstants.{MAX_BODY_WORDS};
ghost use Rattle.packet_codec.specs.Packet.{IsPacket};
ghost use Rattle.status_packet.specs.Range.{IsMtu, IsBufferCount};
ghost use Rattle.world_model.specs.Messages.{to_board, said_to_board};
ghost use Rattle.world_model.specs.Board.{hearing_dropped, execute, bodies_executed, expected_identifier, hear, hear_control, hear_message, held_replies};
ghost use Rattle.world_model.specs.Board.{is_too_long, present_bus, send_again, tell_status, with_id};
ghost use Rattle.board_node.specs.Answers.{answer_bytes, IsHeard};
ghost use Rattle.board_node.specs.View.{said_by};

use crate::replies::{find_held, keep_reply, packet_length, words_of};
use board_bus::Bus;
use board_bus::laws::a_reply_has_room;
use circular_buffer::HeapCircularBuffer;
use ipb_base::{NoMemory, Words};
use packet_codec::laws::reading_is_the_grammar;
use packet_codec::{BadPacket, Order, Packet, PacketKind, put_packet, read_packet};
use packet_ids::{Id, id_at};
use status_packet::{Status, write_status_reply};
use std::alloc::Global;
use std::marker::Model;
use std::mem;
use transaction_codec::reply_room;
use world_model::{DropCause, Heard, LogEntry};

/// The bytes of the headers of IPv4 and UDP, which an MTU counts (RFC 791, RFC 768).
pub(crate) const IP_UDP_BYTES: u32 = 28;

/// The words of a status packet after its header (IPbus 2.0, status packet).
pub(crate) const STATUS_BODY_WORDS: usize = 15;

/// A board. Contracts see it as the bus that it opened with, its MTU, its buffers, the identifier that it expected
/// first and the control packets that it executed.
#[derive(Drop)]
pub struct Board {
    alloc: Global,
    opening: Bus,
    bus: Bus,
    mtu: u32,
    buffers: u32,
    first: Id,
    log: Vec<LogEntry>,
    /// How many packets of the log were numbered.
    numbered: u64,
    /// The replies to the last numbered packets, the oldest first.
    held: HeapCircularBuffer<Packet>,
    /// The words of a reply that is held no longer: the next one is written in their place.
    spare: Vec<u32>,
}

impl Model for Board {
    ghost use Rattle.world_model.specs.Board.{Board as BoardValue};
    ghost use Rattle.board_node.specs.View.{board_of, IsCurrent};

    ghost Value = { BoardValue };

    ghost view = { board_of };

    ghost invariant = { IsCurrent };
}

impl Board {
    /// A board that has executed nothing: it opens with this bus, has an MTU of 92 to 9000 bytes and 1 to 64 response
    /// buffers, and expects `first` (IPbus 2.0, status packet; the ranges are the profile's). `NoMemory` where memory
    /// for its opening bus or for its buffers ran out.
    pub fn new(
        alloc: Global,
        bus: Bus,
        mtu: u32,
        buffers: u32,
        first: Id,
    ) -> Result<Board, NoMemory>
        requires mtu { IsMtu mtu }
        requires buffers { IsBufferCount buffers }
        ensures { IfOk result (λ board. board
            ≡ record { opening = bus; mtu = mtu; buffers = buffers; first = first; log = [] }) }
    {
        Ok(Board {
            alloc,
            opening: bus.copy(alloc)?,
            bus,
            mtu,
            buffers,
            first,
            log: Vec::new(alloc),
            numbered: 0,
            held: HeapCircularBuffer::with_capacity(alloc, buffers as usize)?,
            spare: Vec::new(alloc),
        })
    }

    /// How many control packets it executed, those of identifier 0 among them.
    pub fn executed_len(&self) -> usize
        ensures { result ≡ length (bodies_executed self.now) }
    {
        self.log.len()
    }

    /// The body of an executed control packet, in order of execution, from 0.
    pub fn executed(&self, i: usize) -> &[u32]
        requires { i < length (bodies_executed self.now) }
        ensures { slice_get (bodies_executed self.now) i ≡ Some result.now }
    {
        self.log[i].body.as_slice()
    }

    /// The bus as the executed control packets left it.
    pub fn bus(&self) -> &Bus
        ensures { result.now ≡ present_bus self.now }
    {
        &self.bus
    }

    /// The identifier that it expects next (IPbus 2.0, reliability mechanism).
    pub fn next(&self) -> Id
        ensures { result ≡ expected_identifier self.now }
    {
        id_at(self.first, self.numbered + 1)
    }

    /// The replies that it can send again, the oldest first: those to the last numbered packets, as many as it has
    /// buffers, each in its byte order and under its identifier (IPbus 2.0, re-send request packet).
    pub fn held(&self) -> &HeapCircularBuffer<Packet>
        ensures capacity { result.now.capacity ≡ self.now.buffers }
        ensures items { result.now.items ≡ held_replies self.now }
    {
        &self.held
    }

    /// Hears a datagram and writes the answer into `out`, in place of what stood there, or leaves it empty where there
    /// is none (IPbus 2.0, reliability mechanism, status packet, re-send request packet). It costs the length of the
    /// datagram and of the answer. All memory is taken before anything is done.
    pub fn hear(&mut self, datagram: &[u8], out: &mut Vec<u8>) -> Result<Heard, NoMemory>
        ensures heard { IfOk result (λ heard. heard ≡ (hear self.old datagram.now).heard) }
        ensures board { OnOk result (self.new ≡ (hear self.old datagram.now).board) }
        ensures answer { OnOk result (out.new.items ≡ answer_bytes (hear self.old datagram.now).answer) }
        ensures unchanged { OnErr result (self.new ≡ self.old) }
        ensures empty { OnErr result (out.new.items ≡ []) }
    {
        out.clear();
        match read_datagram(self.alloc, datagram)? {
            Some(packet) => self.hear_packet(packet, out),
            None => Ok(Heard::Dropped(DropCause::NotPacket)),
        }
    }
}

impl Board {
    /// What is true of every board: its MTU, buffers and first identifier are in their ranges, it opened with 32-bit
    /// words, and the bodies of its log are words and, like their longest replies, not too long for its MTU. It does
    /// nothing when it runs.
    pub fn keeps_its_ranges(&self)
        ensures mtu { IsMtu self.now.mtu }
        ensures buffers { IsBufferCount self.now.buffers }
        ensures first { IsIdentifier self.now.first }
        ensures opening { HoldsWords self.now.opening }
        ensures log { AllByRecursion (IsLoggable self.now.mtu) self.now.log }
    {
        self.opening.answers_bodies();
        let _first = self.first.get();
    }

    /// An answer is no longer than the MTU allows, the headers of IP and UDP counted, whatever the datagram. It does
    /// nothing when it runs.
    pub fn answers_fit(&self)
        ensures { (datagram : List ℕ) →
            length (answer_bytes (hear self.now datagram).answer) + ip_udp_bytes ≤ self.now.mtu }
    {
        a_reply_has_room();
        let _held = &self.held;
    }
}

/// The packet that a datagram spells, if it spells one.
fn read_datagram(alloc: Global, bytes: &[u8]) -> Result<Option<Packet>, NoMemory>
    ensures said { IfOk result (λ packet. to_board bytes.now ≡ said_by packet) }
    ensures packet { IfOk result (λ read. IfSome read IsPacket) }
{
    reading_is_the_grammar();
    match read_packet(alloc, bytes) {
        Ok(packet) => Ok(Some(packet)),
        Err(fault) => {
            if fault == BadPacket::NoMemory {
                return Err(NoMemory);
            }
            Ok(None)
        }
    }
}

impl Board {
    /// Hears a packet. `out` is empty.
    fn hear_packet(&mut self, packet: Packet, out: &mut Vec<u8>) -> Result<Heard, NoMemory>
        requires packet { IsPacket packet }
        requires empty { out.old.items ≡ [] }
        ensures { IsHeard (hear_message self.old (said_to_board packet.kind packet.order packet.id packet.body))
            self.old self.new out.new.items result }
    {
        match packet.kind {
            PacketKind::Control => self.hear_control(packet.order, packet.id, packet.body, out),
            PacketKind::Status => {
                if packet.id == 0 && packet.body.len() == STATUS_BODY_WORDS {
                    self.tell_status(out)
                } else {
                    Ok(Heard::Dropped(DropCause::NotPacket))
                }
            }
            PacketKind::Resend => {
                if packet.body.is_empty() {
                    self.send_again(packet.id, out)
                } else {
                    Ok(Heard::Dropped(DropCause::NotPacket))
                }
            }
        }
    }

    /// Answers a status request.
    fn tell_status(&self, out: &mut Vec<u8>) -> Result<Heard, NoMemory>
        requires empty { out.old.items ≡ [] }
        ensures { IsHeard (tell_status self.now) self.now self.now out.new.items result }
    {
        let status = Status {
            mtu: self.mtu,
            buffers: self.buffers,
            next: self.next(),
        };
        out.extend_from_slice(&write_status_reply(&status))?;
        Ok(Heard::StatusSent)
    }

    /// Answers a re-send request by the reply with this identifier, where it is held.
    fn send_again(&self, id: u16, out: &mut Vec<u8>) -> Result<Heard, NoMemory>
        requires empty { out.old.items ≡ [] }
        ensures { IsHeard (send_again self.now (with_id id (held_replies self.now))) self.now self.now out.new.items result }
    {
        let Some(reply) = find_held(&self.held, id) else {
            return Ok(Heard::Dropped(DropCause::NotHeld));
        };
        out.reserve(packet_length(reply.body.len()))?;
        put_packet(out, reply.head(), reply.body.as_slice());
        Ok(Heard::Resent)
    }

    /// Whether a body or its longest reply, of `room` words, each with its header, is longer than a packet of the
    /// board's MTU.
    fn is_too_long(&self, body: &[u32], room: u32) -> bool
        requires { room ≡ reply_room body.now }
        ensures { result ≡ is_too_long self.now body.now }
    {
        let payload = ((self.mtu - IP_UDP_BYTES) / 4) as usize;
        payload < body.len() + 1 || payload < room as usize + 1
    }

    /// Hears a control packet: it is executed where it has identifier 0 or the expected one.
    fn hear_control(
        &mut self,
        order: Order,
        id: u16,
        body: Words,
        out: &mut Vec<u8>,
    ) -> Result<Heard, NoMemory>
        requires short { length body ≤ MAX_BODY_WORDS }
        requires empty { out.old.items ≡ [] }
        ensures { IsHeard (hear_control self.old order id body) self.old self.new out.new.items result }
    {
        let room = reply_room(body.as_slice());
        if self.is_too_long(body.as_slice(), room) {
            return Ok(Heard::Dropped(DropCause::TooLong));
        }
        if id == 0 {
            let entry = LogEntry {
                numbered: false,
                order,
                body,
            };
            return self.execute(id, entry, room, out);
        }
        if id == self.next().get() {
            let entry = LogEntry {
                numbered: true,
                order,
                body,
            };
            return self.execute(id, entry, room, out);
        }
        Ok(Heard::Dropped(DropCause::OtherId))
    }

    /// Executes a control packet and answers it. The room for the reply, of at most `room` words, its bytes and its
    /// place in the log is taken before.
    fn execute(
        &mut self,
        id: u16,
        entry: LogEntry,
        room: u32,
        out: &mut Vec<u8>,
    ) -> Result<Heard, NoMemory>
        requires fits { is_too_long self.old entry.body ≡ false }
        requires id { entry.numbered ≡ true → id ≡ expected_identifier self.old }
        requires room { room ≡ reply_room entry.body }
        requires empty { out.old.items ≡ [] }
        ensures { IsHeard (execute self.old id entry) self.old self.new out.new.items result }
    {
        a_reply_has_room();
        let body = entry.body.as_slice();
        self.spare.clear();
        self.spare.reserve(room as usize)?;
        out.reserve(packet_length(room as usize))?;
        self.log.reserve(1)?;
        let mut words = mem::replace(&mut self.spare, Vec::new(self.alloc));
        self.bus.execute_in_room(body, &mut words);
        let reply = Packet {
            order: entry.order,
            id,
            kind: PacketKind::Control,
            body: Words::from_vec(words),
        };
        put_packet(out, reply.head(), reply.body.as_slice());
        let gone = keep_reply(&mut self.held, entry.numbered, reply);
        self.spare = words_of(self.alloc, gone);
        self.numbered += u64::from(entry.numbered);
        self.log.push_reserved(entry);
        Ok(Heard::Replied)
    }
}
