ghost use Rattle.std.specs.Prelude.{◌≡◌, ◌+◌, ◌++◌, ◌<◌, ◌≤◌, OnOk, OnErr, length};
ghost use Rattle.std.specs.Vec.{vec_len, vec_capacity};
ghost use Rattle.transaction_codec.specs.Answer.{CanAnswer, reply_room};
ghost use Rattle.board_bus.specs.Bodies.{run_body};

use crate::Bus;
use crate::room::push_within;
use ipb_base::NoMemory;
use transaction_codec::{LONGEST_BODY, bad_header_reply, first_request, reply_room};

impl Bus {
    /// Executes the body of a control packet, at most `LONGEST_BODY` words, and appends the reply to it. Requests are
    /// executed in order while each succeeds. It takes its room first, `reply_room` words: after want of memory the bus
    /// and `out` are as they were, and it does not come where `out` has that room before.
    pub fn execute(&mut self, body: &[u32], out: &mut Vec<u32>) -> Result<(), NoMemory>
        requires { length body.now ≤ LONGEST_BODY }
        ensures bus { OnOk result (self.new ≡ (run_body self.old body.now).cells) }
        ensures reply { OnOk result (out.new.items ≡ out.old.items ++ (run_body self.old body.now).reply) }
        // Words of a board that answer the body, whatever the bus holds.
        ensures answer { CanAnswer body.now (run_body self.old body.now).reply }
        ensures room { OnOk result (length out.new.items ≤ length out.old.items + reply_room body.now) }
        ensures capacity { vec_capacity out.old ≤ vec_capacity out.new }
        ensures no_room { OnErr result (vec_capacity out.old < vec_len out.old + reply_room body.now) }
        ensures bus_unchanged { OnErr result (self.new ≡ self.old) }
        ensures out_unchanged { OnErr result (out.new.items ≡ out.old.items) }
    {
        self.answers_bodies();
        out.reserve(reply_room(body) as usize)?;
        self.run(body, out);
        Ok(())
    }

    /// Executes a body and appends the reply to it as `execute` does, where `out` has room for `reply_room` words. It
    /// takes no memory.
    pub fn execute_in_room(&mut self, body: &[u32], out: &mut Vec<u32>)
        requires room { vec_len out.old + reply_room body.now ≤ vec_capacity out.old }
        ensures bus { self.new ≡ (run_body self.old body.now).cells }
        ensures reply { out.new.items ≡ out.old.items ++ (run_body self.old body.now).reply }
    {
        self.run(body, out);
    }

    /// Executes a body and appends the reply, for which `out` has room.
    fn run(&mut self, body: &[u32], out: &mut Vec<u32>)
        requires room { vec_len out.old + length (run_body self.old body.now).reply ≤ vec_capacity out.old }
        ensures bus { self.new ≡ (run_body self.old body.now).cells }
        ensures reply { out.new.items ≡ out.old.items ++ (run_body self.old body.now).reply }
        ensures capacity { vec_capacity out.old ≤ vec_capacity out.new }
    {
        let mut rest = body;
        while !rest.is_empty() {
            let Ok(first) = first_request(rest) else {
                push_within(out, bad_header_reply(rest[0]));
                return;
            };
            if self.transact(&first, out).is_err() {
                return;
            }
            rest = first.rest;
        }
    }
}
