//! What a capture is: the datagrams of one board's link, in the order in which a hub sent and received them.

ghost use Rattle.std.specs.Prelude.{◌≡◌};

use packet_ids::Id;
use std::marker::Model;

/// The most bytes of a datagram in a capture (profile: the greatest MTU of a board).
pub const MAX_DATAGRAM: usize = 9000;

/// The bytes of a datagram. Contracts see them as their list.
#[derive(Drop)]
pub struct Bytes {
    items: Vec<u8>,
}

impl Model for Bytes {
    ghost use Rattle.std.specs.Prelude.{List, ℕ};

    ghost Value = { List ℕ };

    ghost view = { λ bytes. bytes.items.items };
}

impl Bytes {
    /// The bytes of a vector. It takes no memory.
    pub fn from_vec(items: Vec<u8>) -> Bytes
        ensures { result ≡ items.items }
    {
        Bytes { items }
    }

    /// The vector of these bytes. It takes no memory.
    pub fn into_vec(self) -> Vec<u8>
        ensures { result.items ≡ self }
    {
        let Bytes { items } = self;
        items
    }

    /// The bytes of the datagram, in order.
    pub fn as_slice(&self) -> &[u8]
        ensures { result.now ≡ self.now }
    {
        self.items.as_slice()
    }
}

/// A datagram that a hub sent or received.
#[derive(Drop)]
pub struct Caught {
    /// Whether the hub sent it; else it received it.
    pub sent: bool,
    /// Its bytes, at most `MAX_DATAGRAM`.
    pub bytes: Bytes,
}

/// Datagrams in the order in which they were sent and received. Contracts see that list.
#[derive(Drop)]
pub struct Items {
    items: Vec<Caught>,
}

impl Model for Items {
    ghost use Rattle.std.specs.Prelude.{List};
    ghost use Rattle.capture_reader.specs.declared.capture.Caught.{Caught};

    ghost Value = { List Caught };

    ghost view = { λ items. items.items.items };
}

impl Items {
    /// The datagrams of a vector, in its order. It takes no memory.
    pub fn from_vec(items: Vec<Caught>) -> Items
        ensures { result ≡ items.items }
    {
        Items { items }
    }

    /// The vector of these datagrams. It takes no memory.
    pub fn into_vec(self) -> Vec<Caught>
        ensures { result.items ≡ self }
    {
        let Items { items } = self;
        items
    }

    /// The datagrams, in order.
    pub fn as_slice(&self) -> &[Caught]
        ensures { result.now ≡ self.now }
    {
        self.items.as_slice()
    }
}

/// What a hub sent to one board and received from it.
#[derive(Drop)]
pub struct Capture {
    /// The identifier of the first control packet in the order (IPbus 2.0, packet identifiers).
    pub first: Id,
    /// The datagrams, in order.
    pub items: Items,
}
