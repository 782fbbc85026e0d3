//! Looking for the next datagram of a board at any socket.

ghost use Rattle.std.specs.Prelude.{ℕ, List, [], ◌∷◌, MatchOption};
ghost use Rattle.links.specs.Finds.{Finds, IsFoundBehind, IsPast, IsSeenAs, Past, calls_past};
ghost use Rattle.links.specs.Sockets.{AreCalls, Came, came_of, Look, Receive, place_of};

use crate::found::Found;
use crate::socket::DatagramSocket;
use crate::waiter::MOST_FROM_ELSEWHERE;
use std::io::{self, ErrorKind};
use std::net::SocketAddr;

/// What one look of a socket came to.
#[derive(Clone, Copy, PartialEq, Eq)]
pub enum Sight {
    /// A datagram from the board, or an error.
    Arrival,
    /// A datagram from another address or port.
    Elsewhere,
    /// A signal interrupted the look.
    Signal,
    /// None in the time that the socket waits.
    Nothing,
}

/// Looks for the next datagram of a board, of which the link has sent so many, and leaves it there. Each look takes as long
/// as the socket waits, and is done again at each datagram from elsewhere, which is dropped, and at each signal, up to 64
/// of these.
pub fn find_next<S: DatagramSocket>(socket: &mut S, board: SocketAddr, sends: u64) -> Found
    ensures { Finds (place_of board) sends (S.told socket.old) (S.told socket.new) result }
{
    for _past in 0..MOST_FROM_ELSEWHERE {
        if let Some(found) = look_or_pass(socket, board, sends) {
            return found;
        }
    }
    Found::Silence { sends }
}

// What one look found. `None` for what it goes past, a datagram from elsewhere, which is dropped, and a signal.
fn look_or_pass<S: DatagramSocket>(socket: &mut S, board: SocketAddr, sends: u64) -> Option<Found>
    ensures { MatchOption result
        ((one : Past) × IsPast (place_of board) one × AreCalls (calls_past one) (S.told socket.old) (S.told socket.new))
        (λ found. (seen : Came) × IsFoundBehind (place_of board) sends 0 (seen ∷ []) found
        × AreCalls (Look seen ∷ []) (S.told socket.old) (S.told socket.new)) }
{
    match look(socket, board) {
        Sight::Arrival => Some(Found::Arrival),
        Sight::Nothing => Some(Found::Silence { sends }),
        Sight::Signal => None,
        Sight::Elsewhere => {
            drop_next(socket);
            None
        }
    }
}

// Looks at the next datagram.
fn look<S: DatagramSocket>(socket: &mut S, board: SocketAddr) -> Sight
    ensures { (seen : Came) × AreCalls (Look seen ∷ []) (S.told socket.old) (S.told socket.new)
        × IsSeenAs (place_of board) seen result }
{
    let mut first = [0; 1];
    sight_of(socket.look_at_datagram(&mut first), board)
}

// What an answer of the socket is.
fn sight_of(answer: io::Result<(usize, SocketAddr)>, board: SocketAddr) -> Sight
    ensures { (buffer : List ℕ) → IsSeenAs (place_of board) (came_of answer buffer) result }
{
    match answer {
        Ok((_, from)) if from == board => Sight::Arrival,
        Ok(_) => Sight::Elsewhere,
        Err(error) => match error.kind() {
            ErrorKind::Interrupted => Sight::Signal,
            ErrorKind::WouldBlock | ErrorKind::TimedOut => Sight::Nothing,
            // the link's receive meets it too, and counts it
            _ => Sight::Arrival,
        },
    }
}

// Drops the datagram that is there. It is from elsewhere, unless another thread received that one meanwhile; then a
// datagram of the board may be lost, as the network may lose any.
fn drop_next<S: DatagramSocket>(socket: &mut S)
    ensures { (came : Came) × AreCalls (Receive came ∷ []) (S.told socket.old) (S.told socket.new) }
{
    let mut first = [0; 1];
    let _ = socket.receive_datagram(&mut first);
}
