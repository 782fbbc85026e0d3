//! A law of the numbers of a board. The function does nothing when it runs: its clauses are what is proved. Of what a
//! board does, `hear`, `world_model` has the laws.

ghost use Rattle.std.specs.Prelude.{◌≡◌, ◌+◌, ◌*◌};
ghost use Rattle.ipb_base.specs.Numbers.{ip_udp_bytes};

use crate::board::{IP_UDP_BYTES, STATUS_BODY_WORDS};
use status_packet::STATUS_BYTES;

/// The bytes of the headers that an MTU counts, and the words of a status packet after its header.
pub fn the_numbers_of_a_board()
    ensures headers { IP_UDP_BYTES ≡ ip_udp_bytes }
    ensures status { 4 * (STATUS_BODY_WORDS + 1) ≡ STATUS_BYTES }
{}
