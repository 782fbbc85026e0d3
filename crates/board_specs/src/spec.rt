use crate::{Id, Ranges, Text};

/// What becomes of the datagrams on a simulated link (profile).
#[derive(Drop)]
pub enum Fates {
    /// One character for each datagram, in order: `d` is delivered, `l` is lost, `r` is repeated, and `1` to `9` is
    /// delayed by so many datagrams. Past the end of the text each datagram is delivered.
    Text(Text),
    /// Fates drawn from the random numbers that this number begins.
    Noise(u64),
}

/// The link to a board (profile).
#[derive(Drop)]
pub enum LinkSpec {
    /// A board in the same process.
    Sim {
        /// The greatest IP packet, in bytes: 92 to 9000.
        mtu: u32,
        /// How many replies the board keeps: 1 to 64.
        buffers: u32,
        /// The identifier that the board expects first.
        first: Id,
        /// The ranges of its bus.
        ranges: Ranges,
        fates: Fates,
    },
    /// A board behind a UDP port.
    Udp {
        /// The four numbers of its IPv4 address, the most significant first.
        address: [u8; 4],
        /// Its port: 1 to 65535.
        port: u16,
        /// How long one receive waits, in milliseconds: 1 to 10000.
        wait: u32,
    },
}

/// A board of a session (profile).
#[derive(Drop)]
pub struct BoardSpec {
    /// Its name, an id.
    pub name: Text,
    /// The name of its register table.
    pub table: Text,
    /// The link to it.
    pub link: LinkSpec,
}
