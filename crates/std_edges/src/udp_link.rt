//! A link to a board over UDP.

ghost use Rattle.std.specs.Prelude.{◌≡◌, ◌≤◌, ℕ, true, [], ◌∷◌, length, IfOk, IfSome, OnOk, OnErr, None};
ghost use Rattle.ipb_base.specs.Faults.{one_more, Rose};
ghost use Rattle.links.specs.declared.link.TheConstants.{MAX_DATAGRAM};
ghost use Rattle.links.specs.Traffic.{received_after, sent_after};
ghost use Rattle.links.specs.Sockets.{AreCalls, SendTo};
ghost use Rattle.links.specs.Telling.{gots_after, IsCarried, quiets_after};
ghost use Rattle.std_edges.specs.Heard.{datagram_in, ReceivesOver, told_of, with_heard_counted};
ghost use Rattle.std_edges.specs.States.{another_link, new_link, new_udp, with_number};

use crate::bound::{BoundSocket, socket_that_waits};
use crate::counting::incremented;
use crate::errors::{SendOutcome, sent_as};
use crate::heard::{Heard, copy_heard, hear_board};
use crate::link_notes::{LinkNotes, Voice};
use crate::link_socket::LinkSocket;
use crate::places::place_of_board;
use ipb_base::NoMemory;
use ipb_outside::Failed;
use links::{Link, LinkFault, MAX_DATAGRAM, Received, Sighting, TrafficLog, Waiter};
use std::alloc::Global;
use std::io;
use std::marker::Model;
use std::net::{Net, SocketAddr, UdpSocket};
use std::sync::Arc;

/// A link to a board at an IPv4 address and a UDP port. It does not tell what it carries, and knows of no datagram that
/// was lost. It stands on any socket, so that a clause says what it hands to one that tells its calls, and is handed by it,
/// as one of a test does. Contracts see a `UdpState`.
///
/// The socket is bound to no peer, so that a board that is not there is quiet and makes no error.
#[derive(Drop)]
pub struct UdpLink<S: LinkSocket + Drop = UdpSocket> {
    socket: BoundSocket<S>,
    board: SocketAddr,
    // room for one datagram, from the first receive on; so it is filled once
    buffer: Vec<u8>,
    // what the waiter found, where one was made
    sighting: Option<Arc<Sighting, Global>>,
    faults: u64,
    quiets: u64,
    gots: u64,
    traffic: TrafficLog,
    number: usize,
    notes: LinkNotes,
    // what another link to the board is made on, where one may be made
    host: Option<HostRuntime>,
}

impl<S: LinkSocket + Drop> Model for UdpLink<S> {
    ghost use Rattle.std.specs.Prelude.{is_some};
    ghost use Rattle.links.specs.Sockets.{place_of};
    ghost use Rattle.std_edges.specs.States.{UdpState};

    ghost Value = { UdpState };

    ghost view = { λ link. record {
      board = place_of link.board;
      wait = link.socket.wait;
      faults = link.faults;
      quiets = link.quiets;
      gots = link.gots;
      traffic = link.traffic;
      number = link.number;
      is_watched = is_some link.sighting;
      told = link.socket.told;
    } };
}

impl UdpLink<UdpSocket> {
    /// A link to the board at this address, the most significant number first, and this port. One receive waits for
    /// `wait` milliseconds, and for 1 where that is 0. `Failed` where the machine refuses the socket.
    pub fn new<R: Net + AllocGlobal>(
        rt: &R,
        address: [u8; 4],
        port: u16,
        wait: u32,
    ) -> Result<UdpLink<UdpSocket>, Failed>
        ensures { IfOk result (λ link. link ≡ new_udp address port wait) }
    {
        UdpLink::with_notes(rt, address, port, wait, None)
    }
}

impl<S: LinkSocket + Drop> UdpLink<S> {
    /// A link over a socket of any kind, of which a voice, where it is given, says on standard error what the board told at
    /// its greeting, its first error, that the board does not answer, that it answers again, and that it is out of step.
    pub fn with_notes<R: Net + AllocGlobal>(
        rt: &R,
        address: [u8; 4],
        port: u16,
        wait: u32,
        voice: Option<Voice>,
    ) -> Result<UdpLink<S>, Failed>
        ensures { IfOk result (λ link. link ≡ new_link S.tells address port wait) }
    {
        let board = place_of_board(address, port);
        let mut notes = LinkNotes::new(voice);
        match socket_that_waits(rt, wait) {
            Ok(socket) => Ok(UdpLink {
                socket,
                board,
                buffer: Vec::new(rt.alloc()),
                sighting: None,
                faults: 0,
                quiets: 0,
                gots: 0,
                traffic: TrafficLog::new(),
                number: 0,
                notes,
                host: None,
            }),
            Err(error) => {
                notes.failed(error);
                notes.down();
                Err(Failed)
            }
        }
    }

    /// Numbers the link among those that its rack made, of which so many were made before.
    pub fn set_number(&mut self, others: usize)
        ensures { self.new ≡ with_number others self.old }
    {
        self.number = others;
    }

    /// From now on another link to its board can be made, on this machine.
    pub fn set_host(&mut self, host: HostRuntime)
        ensures { self.new ≡ self.old }
    {
        self.host = Some(host);
    }

    // Another link to the board, over a socket of its own.
    fn another(&self, alloc: Global, host: HostRuntime) -> io::Result<UdpLink<S>>
        ensures { IfOk result (λ link. link ≡ another_link S.tells self.now) }
    {
        let socket = self.socket.another(&host)?;
        Ok(UdpLink {
            socket,
            board: self.board,
            buffer: Vec::new(alloc),
            sighting: None,
            faults: 0,
            quiets: 0,
            gots: 0,
            traffic: TrafficLog::new(),
            number: self.number,
            notes: self.notes.again(),
            host: Some(host),
        })
    }

    // Whether the waiter waited as long as a receive does, and found nothing, and nothing was sent since.
    fn is_silent(&self) -> bool
        ensures { result ≡ true → self.now.is_watched ≡ true }
    {
        match &self.sighting {
            Some(sighting) => sighting.take_silence(),
            None => false,
        }
    }

    // Counts a receive that was quiet.
    fn count_quiet(&mut self) -> Received
        ensures quiet { result ≡ Received.Quiet }
        ensures counted { self.new ≡ record self.old { quiets = one_more self.old.quiets } }
        ensures later { self.old.quiets ≤ self.new.quiets }
    {
        self.quiets = incremented(self.quiets);
        self.notes.quiet();
        Received::Quiet
    }

    // Counts an error.
    fn count_fault(&mut self) -> LinkFault
        ensures fault { result ≡ LinkFault.Failed }
        ensures counted { self.new ≡ record self.old { faults = one_more self.old.faults } }
        ensures later { self.old.faults ≤ self.new.faults }
    {
        self.faults = incremented(self.faults);
        LinkFault::Failed
    }

    // Counts a receive that got a datagram.
    fn count_got(&mut self) -> Received
        ensures got { result ≡ Received.Got }
        ensures counted { self.new ≡ record self.old { gots = one_more self.old.gots } }
        ensures later { self.old.gots ≤ self.new.gots }
    {
        self.gots = incremented(self.gots);
        Received::Got
    }

    // Counts what was heard, and answers what a receive does.
    fn count_heard(&mut self, heard: Heard) -> Result<Received, LinkFault>
        ensures told { result ≡ told_of heard }
        ensures counted { self.new ≡ with_heard_counted heard self.old }
        ensures faults { self.old.faults ≤ self.new.faults }
        ensures quiets { self.old.quiets ≤ self.new.quiets }
        ensures gots { self.old.gots ≤ self.new.gots }
        ensures traffic { self.new.traffic ≡ self.old.traffic }
        ensures number { self.new.number ≡ self.old.number }
    {
        match heard {
            Heard::Board(_) => Ok(self.count_got()),
            Heard::Elsewhere | Heard::Nothing => Ok(self.count_quiet()),
            Heard::Fault(error) => {
                self.notes.down();
                Err(self.count_error(error))
            }
        }
    }

    /// The link is given back: says what was not said yet.
    pub fn finish(&mut self)
        ensures { self.new ≡ self.old }
    {
        self.notes.finish();
    }

    // Counts an error of the machine, and says it where it is the first.
    fn count_error(&mut self, error: io::Error) -> LinkFault
        ensures fault { result ≡ LinkFault.Failed }
        ensures counted { self.new ≡ record self.old { faults = one_more self.old.faults } }
        ensures later { self.old.faults ≤ self.new.faults }
    {
        self.notes.failed(error);
        self.count_fault()
    }
}

impl<S: LinkSocket + Drop> Link for UdpLink<S> {
    ghost telling = { λ _. None };

    ghost faults = { λ link. link.faults };

    ghost quiets = { λ link. link.quiets };

    ghost gots = { λ link. link.gots };

    ghost held = { λ _. 0 };

    ghost traffic = { λ link. link.traffic };

    ghost number = { λ link. link.number };

    /// One datagram to the board. An error, of any kind, is counted, and so is a datagram of which a part alone went.
    /// After an error that passes (`is_passing`) the datagram counts as sent: it is lost, as on the network.
    fn send(&mut self, bytes: &[u8]) -> Result<(), LinkFault>
        ensures failed { result ≡ Err LinkFault.Failed → Rose self.old.faults self.new.faults }
        ensures faults { self.old.faults ≤ self.new.faults }
        ensures quiets { self.new.quiets ≡ self.old.quiets }
        ensures gots { self.new.gots ≡ self.old.gots }
        ensures traffic { self.new.traffic ≡ sent_after result bytes.now self.old.traffic }
        ensures number { self.new.number ≡ self.old.number }
        ensures handed { AreCalls (SendTo self.old.board bytes.now ∷ []) self.old.told self.new.told }
    {
        let sent = self.socket.send(bytes, self.board);
        self.notes.sent(bytes);
        // behind the send, so that a wait that begins between them does not take it for an earlier one
        if let Some(sighting) = &self.sighting {
            sighting.count_send();
        }
        let came_to = sent_as(&sent, bytes.len());
        if came_to != SendOutcome::Failed {
            self.traffic.add_sent(bytes);
        }
        if came_to == SendOutcome::Sent {
            return Ok(());
        }
        let fault = match sent {
            Ok(_) => self.count_fault(),
            Err(error) => self.count_error(error),
        };
        match came_to {
            SendOutcome::Sent | SendOutcome::Lost => Ok(()),
            SendOutcome::Failed => {
                self.notes.down();
                Err(fault)
            }
        }
    }

    /// The next datagram from the board's address and port, and its first 9000 bytes where it is longer. Quiet where
    /// none came in the time that the link waits, which begins again at each datagram from elsewhere, where a signal
    /// interrupts it and at an error that passes, and after 64 of those. Quiet at once where the waiter found that none
    /// came in that time. An error, of any kind, is counted, those that pass once for the receive.
    fn receive(&mut self, into: &mut Vec<u8>) -> Result<Received, LinkFault>
        ensures datagram { IsCarried result into.new.items }
        ensures failed { result ≡ Err LinkFault.Failed → Rose self.old.faults self.new.faults }
        ensures faults { self.old.faults ≤ self.new.faults }
        ensures quiets { self.new.quiets ≡ quiets_after result self.old.quiets }
        ensures quiets_rise { self.old.quiets ≤ self.new.quiets }
        ensures gots { self.new.gots ≡ gots_after result self.old.gots }
        ensures gots_rise { self.old.gots ≤ self.new.gots }
        ensures traffic { self.new.traffic ≡ received_after result into.new.items self.old.traffic }
        ensures number { self.new.number ≡ self.old.number }
        ensures handed { ReceivesOver self.old.board self.old.is_watched self.old.told self.new.told result into.new.items }
    {
        into.clear();
        if self.is_silent() {
            self.traffic.add_quiet();
            return Ok(self.count_quiet());
        }
        // all memory is taken before a datagram is
        make_rooms(&mut self.buffer, into)?;
        let mut passed = None;
        let buffer = self.buffer.as_mut_slice();
        let heard = hear_board(&mut self.socket, self.board, buffer, &mut passed);
        count_passed(passed, &mut self.faults, &mut self.notes);
        keep_heard(&heard, &self.buffer, into, &mut self.traffic)?;
        note_heard(&heard, into, &mut self.notes);
        self.count_heard(heard)
    }

    /// It waits at another handle of the same socket. `None` too where the machine has no handle or memory for it.
    fn waiter(&mut self, alloc: Global) -> Option<Waiter> {
        let socket = self.socket.other_handle()?;
        match Waiter::new(alloc, socket, self.board) {
            Ok((waiter, sighting)) => {
                self.sighting = Some(sighting);
                Some(waiter)
            }
            Err(_error) => None,
        }
    }

    /// A link over a new socket to the same address and port, which waits as long: what comes for this link's socket
    /// never comes there. `None` where it was not said on which machine it is made, and where the machine refuses the
    /// socket, of which an error is said.
    fn again(&mut self, alloc: Global) -> Option<UdpLink<S>>
        ensures another { IfSome result (λ link. link ≡ another_link S.tells self.old) }
        ensures same { self.new ≡ self.old }
    {
        let host = self.host?;
        match self.another(alloc, host) {
            Ok(link) => Some(link),
            Err(error) => {
                self.notes.failed(error);
                None
            }
        }
    }
}

// Counts an error that passed, where there was one, and says it where it is the first.
fn count_passed(passed: Option<io::Error>, faults: &mut u64, notes: &mut LinkNotes)
    ensures counted { IfSome passed (λ _. faults.new ≡ one_more faults.old) }
    ensures later { faults.old ≤ faults.new }
{
    if let Some(error) = passed {
        notes.failed(error);
        *faults = incremented(*faults);
    }
}

// Notes a datagram of the board, where one was heard.
fn note_heard(heard: &Heard, datagram: &[u8], notes: &mut LinkNotes) {
    if let Heard::Board(_) = heard {
        notes.got(datagram);
    }
}

// Copies what was heard into an empty vector, and adds it to the traffic. Want of memory does neither.
fn keep_heard(
    heard: &Heard,
    buffer: &[u8],
    into: &mut Vec<u8>,
    traffic: &mut TrafficLog,
) -> Result<(), NoMemory>
    requires within { (count : ℕ) → heard.now ≡ Heard.Board count → count ≤ length buffer.now }
    requires empty { into.old.items ≡ [] }
    ensures copied { OnOk result (into.new.items ≡ datagram_in heard.now buffer.now) }
    ensures added { OnOk result (traffic.new ≡ received_after (told_of heard.now) into.new.items traffic.old) }
    ensures emptied { OnErr result (into.new.items ≡ []) }
    ensures unchanged { OnErr result (traffic.new ≡ traffic.old) }
{
    copy_heard(heard, buffer, into)?;
    log_heard(heard, traffic, into);
    Ok(())
}

// Adds what was heard, and copied, to the traffic.
fn log_heard(heard: &Heard, traffic: &mut TrafficLog, copied: &[u8])
    ensures { traffic.new ≡ received_after (told_of heard.now) copied.now traffic.old }
{
    match heard {
        Heard::Board(_) => traffic.add_got(copied),
        Heard::Elsewhere | Heard::Nothing => traffic.add_quiet(),
        Heard::Fault(_) => {}
    }
}

// Room for one datagram, the longest that there may be. It is made once.
fn make_room(buffer: &mut Vec<u8>) -> Result<(), NoMemory>
    ensures room { OnOk result (length buffer.new.items ≡ MAX_DATAGRAM) }
{
    if buffer.len() != MAX_DATAGRAM {
        buffer.clear();
        buffer.resize(MAX_DATAGRAM, 0)?;
    }
    Ok(())
}

// Room for one datagram in the buffer, and to copy it to.
fn make_rooms(buffer: &mut Vec<u8>, into: &mut Vec<u8>) -> Result<(), NoMemory>
    ensures room { OnOk result (length buffer.new.items ≡ MAX_DATAGRAM) }
    ensures kept { into.new.items ≡ into.old.items }
{
    make_room(buffer)?;
    into.reserve(MAX_DATAGRAM)?;
    Ok(())
}
