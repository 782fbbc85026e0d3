//! What lets connections in.

ghost use Rattle.std.specs.Prelude.{◌≡◌, ℕ, ◌<◌, ◌+◌, List, Option, IsErr, OnOk, OnErr};
ghost use Rattle.ipb_outside.specs.Faults.{RisesExactlyIf};
ghost use Rattle.ipb_outside.specs.Doors.{Accepts, Keeps, Opens};

use crate::{Failed, Sink, Source};

/// Where connections come from, each a source and a sink: a port that is listened to, memory. A connection that was
/// accepted is given back when it is done with.
pub trait Door {
    /// The side of a connection from which bytes come.
    type Incoming: Source + Send + Drop;

    /// The side of a connection to which bytes go.
    type Outgoing: Sink + Send + Drop;

    // The connections that are still to be accepted, in order, where it tells them.
    ghost coming: { Self → Option (List (Self.Incoming × Self.Outgoing)) };

    // The connections that were given back, in order, where it tells them.
    ghost kept: { Self → Option (List (Self.Incoming × Self.Outgoing)) };

    // How many connections were accepted and not yet given back.
    ghost out: { Self → ℕ };

    // The ports that it listens on, in the order in which it began to.
    ghost ports: { Self → List ℕ };

    // How many faults it met, in 64 bits; the count stands still at its end.
    ghost faults: { Self → ℕ };

    /// Begins to listen on a port. Any answer but `Failed` leaves the count of faults as it was.
    fn listen(&mut self, port: u16) -> Result<(), Failed>
        ensures faults { RisesExactlyIf (IsErr result) (faults self.old) (faults self.new) }
        ensures opened { Opens port (ports self.old) (ports self.new) result }
        ensures coming_kept { coming self.new ≡ coming self.old }
        ensures others_kept { kept self.new ≡ kept self.old }
        ensures out_kept { out self.new ≡ out self.old };

    /// Answers the next connection. `Failed` let none in. Any other answer leaves the count of faults as it was.
    fn accept(&mut self) -> Result<(Self::Incoming, Self::Outgoing), Failed>
        ensures faults { RisesExactlyIf (IsErr result) (faults self.old) (faults self.new) }
        ensures first { Accepts (coming self.old) (coming self.new) result }
        ensures others_kept { kept self.new ≡ kept self.old }
        ensures ports_kept { ports self.new ≡ ports self.old }
        ensures counted { OnOk result (out self.new ≡ out self.old + 1) }
        ensures not_counted { OnErr result (out self.new ≡ out self.old) };

    /// Takes a connection back. It takes no memory.
    fn keep(&mut self, incoming: Self::Incoming, outgoing: Self::Outgoing)
        requires { 0 < out self.old }
        ensures given { Keeps (kept self.old) (kept self.new) (incoming, outgoing) }
        ensures coming_kept { coming self.new ≡ coming self.old }
        ensures ports_kept { ports self.new ≡ ports self.old }
        ensures counted { out self.new + 1 ≡ out self.old }
        ensures faults_kept { faults self.new ≡ faults self.old };
}
