//! What an operation asks of its board.

use board_specs::LinkSpec;
use mtu_packer::MIN_PAYLOAD;
use transaction_codec::Op;

/// The bytes of the headers of IPv4 and UDP (RFC 791, RFC 768).
const IP_UDP_BYTES: u32 = 28;

/// The words of a packet with its header that a board on this link takes, as far as its document says.
pub fn payload_on(link: &LinkSpec) -> u32 {
    match link {
        LinkSpec::Sim { mtu, .. } => mtu.saturating_sub(IP_UDP_BYTES) / 4,
        LinkSpec::Udp { .. } => MIN_PAYLOAD,
    }
}

/// How many words an operation reads into a value.
pub fn words_read(op: &Op) -> usize {
    match op {
        Op::Read { base: _, count } | Op::ReadPort { base: _, count } => *count as usize,
        Op::Write { .. } | Op::WritePort { .. } => 0,
        Op::RmwBits { .. } | Op::RmwSum { .. } => 1,
    }
}

/// How many words an operation writes.
pub(crate) fn words_written(op: &Op) -> usize {
    match op {
        Op::Read { .. } | Op::ReadPort { .. } => 0,
        Op::Write { base: _, words } | Op::WritePort { base: _, words } => words.len(),
        Op::RmwBits { .. } | Op::RmwSum { .. } => 1,
    }
}
