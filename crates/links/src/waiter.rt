//! What waits for the next datagram of a link beside it, so that a thread can wait for a board and hold no lane
//! meanwhile. It stands below all that knows of a link, since each says that a link may have it; only a link over UDP
//! makes one.
use crate::finding::find_next;
use crate::found::Found;
use std::alloc::{AllocError, Global};
use std::net::{SocketAddr, UdpSocket};
use std::sync::Arc;
use std::sync::atomic::{AtomicU64, Ordering};

/// How many datagrams from elsewhere, and signals, end one wait, and one receive (profile).
pub const MOST_FROM_ELSEWHERE: u32 = 64;

/// What a link and its waiter tell each other. Any thread may write both words at any time, so no contract sees them.
#[derive(Drop)]
pub struct Sighting {
    // how many datagrams the link sent
    sends: AtomicU64,
    // the word of what was found
    found: AtomicU64,
}

impl Sighting {
    fn new() -> Sighting {
        Sighting {
            sends: AtomicU64::new(0),
            found: AtomicU64::new(Found::Nothing.word()),
        }
    }

    /// The link is about to send.
    pub fn count_send(&self) {
        self.sends.fetch_add(1, Ordering::SeqCst);
    }

    /// Uses up what was found: whether it was a silence that no send has broken since.
    pub fn take_silence(&self) -> bool {
        let found = self.found.swap(Found::Nothing.word(), Ordering::SeqCst);
        Found::of(found).is_silence(self.sends())
    }

    fn sends(&self) -> u64 {
        self.sends.load(Ordering::SeqCst)
    }

    // Notes what was found, and says whether the link's next receive can answer at once.
    fn see(&self, found: Found) -> bool {
        self.found.store(found.word(), Ordering::SeqCst);
        found.is_ready(self.sends())
    }

    // Whether an arrival, or a silence that no send has broken, was found and not used up.
    fn is_ready(&self) -> bool {
        let found = self.found.load(Ordering::SeqCst);
        Found::of(found).is_ready(self.sends())
    }
}

/// Waits for the next datagram of a link, at another handle of the link's socket, and leaves it there. Each wait takes
/// as long as the link waits, and begins again at each datagram from elsewhere, which it drops, and at each signal, up
/// to 64 of these.
#[derive(Drop)]
pub struct Waiter {
    socket: UdpSocket,
    board: SocketAddr,
    sighting: Arc<Sighting, Global>,
}

impl Waiter {
    /// The waiter at this socket for datagrams of this board, and what it shares with the link.
    pub fn new(
        alloc: Global,
        socket: UdpSocket,
        board: SocketAddr,
    ) -> Result<(Waiter, Arc<Sighting, Global>), AllocError> {
        let sighting = Arc::new(alloc, Sighting::new())?;
        let shared = Arc::try_clone(&sighting)?;
        Ok((
            Waiter {
                socket,
                board,
                sighting,
            },
            shared,
        ))
    }

    /// Waits until the link's next receive can answer at once, because a datagram is there, or because none came in the
    /// time that the link waits and nothing was sent in that time. False where it still cannot; then it is asked again.
    pub fn wait(&self) -> bool {
        self.sighting.see(Found::Nothing);
        let sends = self.sighting.sends();
        let mut socket = &self.socket;
        self.sighting.see(find_next(&mut socket, self.board, sends))
    }

    /// Whether the link's next receive can still answer at once. A receive uses up what `wait` found, and a send makes
    /// a silence too short.
    pub fn is_ready(&self) -> bool {
        self.sighting.is_ready()
    }
}
