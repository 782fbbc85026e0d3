//! What a receive of a socket came to.

ghost use Rattle.std.specs.Prelude.{◌≡◌, ◌≤◌, ℕ, List, [], ◌∷◌, length, false, IsOkAnd, MatchOption, OnOk, OnErr};
ghost use Rattle.std.specs.IoError.{raw_os_error};
ghost use Rattle.links.specs.Sockets.{Came, came_of, place_of, Receive};
ghost use Rattle.std_edges.specs.Errors.{is_passing, number_in};
ghost use Rattle.std_edges.specs.Heard.{datagram_in, Hears, IsHeardAs, IsLast, IsPassedOver, IsUnheardAs};
ghost use Rattle.std_edges.specs.States.{socket_after};
ghost use Rattle.std.specs.declared.io.Error.{Error};

use crate::bound::BoundSocket;
use crate::errors::is_passing_error;
use crate::link_socket::LinkSocket;
use ipb_base::NoMemory;
use links::MOST_FROM_ELSEWHERE;
use std::io::{self, ErrorKind};
use std::net::SocketAddr;

/// What one call of the socket came to, or those of one receive.
#[derive(Drop)]
pub(crate) enum Heard {
    /// A datagram from the board, of this many bytes.
    Board(usize),
    /// Nothing from the board yet: one from another address or port, or a signal that interrupted the wait.
    Elsewhere,
    /// None in the time that the socket waits.
    Nothing,
    /// The socket answered an error.
    Fault(io::Error),
}

/// The next datagram from the board, past those from elsewhere and errors that pass, of which there may be 64. `passed`
/// is the last such error.
pub(crate) fn hear_board<S: LinkSocket + Drop>(
    socket: &mut BoundSocket<S>,
    board: SocketAddr,
    buf: &mut [u8],
    passed: &mut Option<io::Error>,
) -> Heard
    ensures room { length buf.new ≡ length buf.old }
    ensures within { (count : ℕ) → result ≡ Heard.Board count → count ≤ length buf.new }
    ensures fault { (error : Error) → result ≡ Heard.Fault error → is_passing (number_in (raw_os_error error)) ≡ false }
    ensures hears { Hears (place_of board) socket.old socket.new result buf.new }
{
    for _past in 0..MOST_FROM_ELSEWHERE {
        if let Some(heard) = last_of(hear(socket, board, buf), passed) {
            return heard;
        }
    }
    Heard::Elsewhere
}

// What ends a receive. `None` for what it goes past: what is from elsewhere, and an error that passes.
fn last_of(heard: Heard, passed: &mut Option<io::Error>) -> Option<Heard>
    ensures { MatchOption result (IsPassedOver heard) (λ last. (last ≡ heard) × IsLast heard) }
{
    match heard {
        Heard::Elsewhere => None,
        Heard::Fault(error) if is_passing_error(&error) => {
            *passed = Some(error);
            None
        }
        heard => Some(heard),
    }
}

// One call of the socket.
fn hear<S: LinkSocket + Drop>(
    socket: &mut BoundSocket<S>,
    board: SocketAddr,
    buf: &mut [u8],
) -> Heard
    ensures room { length buf.new ≡ length buf.old }
    ensures within { (count : ℕ) → result ≡ Heard.Board count → count ≤ length buf.new }
    ensures heard { (came : Came) × (socket.new ≡ socket_after (Receive came ∷ []) socket.old)
        × IsHeardAs (place_of board) came result buf.new }
{
    heard_as(socket.receive(buf), board)
}

// What an answer of the socket is.
fn heard_as(answer: io::Result<(usize, SocketAddr)>, board: SocketAddr) -> Heard
    ensures heard { (buffer : List ℕ) → IsHeardAs (place_of board) (came_of answer buffer) result buffer }
    ensures count { (count : ℕ) → result ≡ Heard.Board count → IsOkAnd answer (λ got. count ≡ got.0) }
{
    match answer {
        Ok((count, from)) => {
            if from == board {
                Heard::Board(count)
            } else {
                Heard::Elsewhere
            }
        }
        Err(error) => unheard(error),
    }
}

// What an error is.
fn unheard(error: io::Error) -> Heard
    ensures { IsUnheardAs error result }
{
    match error.kind() {
        // a process that is stopped and goes on has lost nothing
        ErrorKind::Interrupted => Heard::Elsewhere,
        ErrorKind::WouldBlock | ErrorKind::TimedOut => Heard::Nothing,
        _ => Heard::Fault(error),
    }
}

/// Copies the datagram of the board, where one was heard, from the front of a buffer into an empty vector.
pub(crate) fn copy_heard(heard: &Heard, buffer: &[u8], into: &mut Vec<u8>) -> Result<(), NoMemory>
    requires within { (count : ℕ) → heard.now ≡ Heard.Board count → count ≤ length buffer.now }
    requires empty { into.old.items ≡ [] }
    ensures copied { OnOk result (into.new.items ≡ datagram_in heard.now buffer.now) }
    ensures kept { OnErr result (into.new.items ≡ []) }
{
    if let Heard::Board(count) = heard {
        into.extend_from_slice(&buffer[..*count])?;
    }
    Ok(())
}
