//! A TCP port that lets connections in.

ghost use Rattle.std.specs.Prelude.{◌≡◌, ◌≤◌, ◌+◌, None, IfOk, IfSome, OnOk, OnErr, IsSomeAnd, IsErr, MatchResult};
ghost use Rattle.ipb_outside.specs.Faults.{RisesExactlyIf};
ghost use Rattle.ipb_base.specs.Faults.{one_more};
ghost use Rattle.ipb_outside.specs.Doors.{Accepts, Opens};
ghost use Rattle.links.specs.Sockets.{At};
ghost use Rattle.std_edges.specs.Listeners.{LetsIn, LosesOneAtMost, told_by};
ghost use Rattle.std_edges.specs.Places.{IsAt, every_address, ports_at};

use crate::bound::{BoundListener, listener_of_port};
use crate::console::Console;
use crate::counting::incremented;
use crate::door_notes::{DoorNotes, SinkNotes};
use crate::listener::{ClientStream, Listener};
use crate::tcp::{TcpSink, TcpSource};
use ipb_outside::{Door, Failed};
use std::io::{self, ErrorKind};
use std::marker::Model;
use std::net::{Net, TcpListener, TcpStream};

/// A door on one TCP port of every IPv4 address of the machine. It does not tell its connections, and drops those that
/// it takes back. It stands on any listener, so that a clause says what is handed on of one that tells its connections, as
/// one of a test does. Contracts see a `DoorState`.
#[derive(Drop)]
pub struct TcpDoor<
    R: Net<Listener = TcpListener, Stream = TcpStream> + Drop,
    A: Listener + Drop = TcpListener,
> {
    rt: R,
    listener: Option<BoundListener<A>>,
    notes: Option<DoorNotes>,
    out: u64,
    faults: u64,
}

impl<R: Net<Listener = TcpListener, Stream = TcpStream> + Drop, A: Listener + Drop> Model
    for TcpDoor<R, A> {
    ghost use Rattle.std_edges.specs.States.{DoorState};

    ghost Value = { DoorState };

    ghost view = { λ door. record { listener = door.listener; out = door.out; faults = door.faults } };
}

impl<R: Net<Listener = TcpListener, Stream = TcpStream> + Drop> TcpDoor<R, TcpListener> {
    /// A door that does not listen yet.
    pub fn new(rt: R) -> TcpDoor<R, TcpListener>
        ensures { result ≡ record { listener = None; out = 0; faults = 0 } }
    {
        TcpDoor::over(rt)
    }

    /// A door that does not listen yet, is to let so many connections in, and says on standard error that it listens
    /// or why it cannot, that the last connection is there, and that the hub takes no more packets for a board.
    pub fn with_notes(rt: R, console: Console, connections: u32) -> TcpDoor<R, TcpListener>
        ensures { result ≡ record { listener = None; out = 0; faults = 0 } }
    {
        TcpDoor::made(rt, Some(DoorNotes::new(console, connections)))
    }
}

impl<R: Net<Listener = TcpListener, Stream = TcpStream> + Drop, A: Listener + Drop> TcpDoor<R, A> {
    /// A door over a listener of any kind, that does not listen yet.
    pub fn over(rt: R) -> TcpDoor<R, A>
        ensures { result ≡ record { listener = None; out = 0; faults = 0 } }
    {
        TcpDoor::made(rt, None)
    }

    fn made(rt: R, notes: Option<DoorNotes>) -> TcpDoor<R, A>
        ensures { result ≡ record { listener = None; out = 0; faults = 0 } }
    {
        TcpDoor {
            rt,
            listener: None,
            notes,
            out: 0,
            faults: 0,
        }
    }

    // A listener of the port, of a door that does not listen yet.
    fn first_listener(&self, port: u16) -> io::Result<BoundListener<A>>
        ensures place { IfOk result (λ bound. IsAt every_address port bound.place) }
        ensures told { IfOk result (λ bound. IfSome bound.told (λ seen. seen.place ≡ At every_address port)) }
        ensures first { OnOk result (self.now.listener ≡ None) }
    {
        if self.listener.is_some() {
            return Err(io::Error::from(ErrorKind::AlreadyExists));
        }
        listener_of_port(&self.rt, port)
    }

    // Counts an error.
    fn count_fault(&mut self) -> Failed
        ensures counted { self.new ≡ record self.old { faults = one_more self.old.faults } }
        ensures later { self.old.faults ≤ self.new.faults }
    {
        self.faults = incremented(self.faults);
        Failed
    }
}

impl<R: Net<Listener = TcpListener, Stream = TcpStream> + Drop, A: Listener + Drop> Door
    for TcpDoor<R, A>
where
    A::Stream: Send,
{
    type Incoming = TcpSource<A::Stream>;

    type Outgoing = TcpSink<A::Stream>;

    ghost coming = { λ _. None };

    ghost kept = { λ _. None };

    ghost out = { λ door. door.out };

    ghost ports = { λ door. ports_at door.listener };

    ghost faults = { λ door. door.faults };

    /// Listens on the port of the IPv4 address 0.0.0.0. `Failed` where the machine refuses that, as for a port in use, and
    /// where the door listens already.
    fn listen(&mut self, port: u16) -> Result<(), Failed>
        ensures listens { OnOk result (IsSomeAnd self.new.listener (λ bound. IsAt every_address port bound.place)) }
        ensures handed { OnOk result (IfSome (told_by self.new.listener) (λ seen. seen.place ≡ At every_address port)) }
        ensures opened { Opens port (ports_at self.old.listener) (ports_at self.new.listener) result }
        ensures faults { RisesExactlyIf (IsErr result) self.old.faults self.new.faults }
        ensures out_kept { self.new.out ≡ self.old.out }
        ensures not_opened { OnErr result (self.new.listener ≡ self.old.listener) }
    {
        match self.first_listener(port) {
            Ok(listener) => {
                self.listener = Some(listener);
                if let Some(notes) = &self.notes {
                    notes.listens(port);
                }
                Ok(())
            }
            Err(error) => {
                if let Some(notes) = &self.notes {
                    notes.not_opened(port, error);
                }
                Err(self.count_fault())
            }
        }
    }

    /// Waits for the next connection, for as long as that takes. `Failed` at an error, and where the door does not
    /// listen.
    fn accept(&mut self) -> Result<(TcpSource<A::Stream>, TcpSink<A::Stream>), Failed>
        ensures faults { RisesExactlyIf (IsErr result) self.old.faults self.new.faults }
        ensures first { Accepts None None result }
        ensures ports_kept { ports_at self.new.listener ≡ ports_at self.old.listener }
        ensures counted { OnOk result (self.new.out ≡ self.old.out + 1) }
        ensures not_counted { OnErr result (self.new.out ≡ self.old.out) }
        ensures handed_on { MatchResult result
            (λ connection. LetsIn connection.0.remaining (told_by self.old.listener) (told_by self.new.listener))
            (λ _. LosesOneAtMost (told_by self.old.listener) (told_by self.new.listener)) }
    {
        let Some(out) = self.out.checked_add(1) else {
            return Err(self.count_fault());
        };
        match next_connection(&mut self.listener) {
            Ok((incoming, outgoing)) => {
                self.out = out;
                let notes = note_accepted(&mut self.notes);
                Ok((
                    TcpSource::new(incoming),
                    TcpSink::with_notes(outgoing, notes),
                ))
            }
            Err(error) => {
                if let Some(notes) = &self.notes {
                    notes.not_accepted(error);
                }
                Err(self.count_fault())
            }
        }
    }

    /// Drops the two sides, which closes the connection.
    fn keep(&mut self, incoming: TcpSource<A::Stream>, outgoing: TcpSink<A::Stream>) {
        drop(incoming);
        drop(outgoing);
        self.out -= 1;
    }
}

// Notes that a connection was let in, and makes what is noted of it.
fn note_accepted(notes: &mut Option<DoorNotes>) -> Option<SinkNotes> {
    let notes = notes.as_mut()?;
    notes.accepted();
    Some(notes.of_connection())
}

// The next connection, as a handle of its stream for each of its two sides.
fn next_connection<A: Listener + Drop>(
    listener: &mut Option<BoundListener<A>>,
) -> io::Result<(A::Stream, A::Stream)>
    ensures ports_kept { ports_at listener.new ≡ ports_at listener.old }
    ensures handed_on { MatchResult result
        (λ handles. LetsIn (A.Stream.remaining handles.0) (told_by listener.old) (told_by listener.new))
        (λ _. LosesOneAtMost (told_by listener.old) (told_by listener.new)) }
{
    match listener {
        Some(listener) => both_handles(listener),
        None => Err(io::Error::from(ErrorKind::NotConnected)),
    }
}

// The next connection of a listener.
fn both_handles<A: Listener + Drop>(
    listener: &mut BoundListener<A>,
) -> io::Result<(A::Stream, A::Stream)>
    ensures place { listener.new.place ≡ listener.old.place }
    ensures handed_on { MatchResult result
        (λ handles. LetsIn (A.Stream.remaining handles.0) listener.old.told listener.new.told)
        (λ _. LosesOneAtMost listener.old.told listener.new.told) }
{
    let stream = listener.let_in()?;
    // An answer is sent at once, also behind one that the client has not acknowledged. Where the machine refuses that,
    // answers are slower, and no less right.
    stream.send_at_once();
    let other = stream.other_handle()?;
    Ok((stream, other))
}
