ghost use Rattle.std.specs.Prelude.{◌≡◌, ◌≤◌, length};
ghost use Rattle.transaction_codec.specs.Answer;
ghost use Rattle.transaction_codec.specs.Answer.{IsLongestAnswer};

use crate::first::first_request;

/// The most words of a body that is measured or executed at once. Profile: a packet has fewer.
pub const LONGEST_BODY: usize = 65_536;

/// The length in words of the longest answer that a board can give to this body: one header for each request and the
/// words that it reads. A bad header counts as one word, and nothing after it counts. It takes no memory. Profile.
pub fn reply_room(body: &[u32]) -> u32
    requires { length body.now ≤ LONGEST_BODY }
    ensures longest { IsLongestAnswer body.now result }
    ensures value { result ≡ Answer.reply_room body.now }
{
    let mut room = 0;
    let mut rest = body;
    while !rest.is_empty() {
        match first_request(rest) {
            Ok(first) => {
                room += 1 + first.op.values_done();
                rest = first.rest;
            }
            Err(_) => return room + 1,
        }
    }
    room
}
