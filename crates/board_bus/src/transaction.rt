ghost use Rattle.std.specs.Prelude.{◌≡◌, ◌+◌, ◌++◌, ◌∷◌, [], ◌<◌, ◌≤◌, ◌^◌, OnOk, OnErr, IfErr, Ok, Err, length};
ghost use Rattle.std.specs.Result.{result_err};
ghost use Rattle.std.specs.Vec.{vec_len, vec_capacity};
ghost use Rattle.transaction_codec.specs.First.{request_of};
ghost use Rattle.transaction_codec.specs.Request.{IsRequest};
ghost use Rattle.transaction_codec.specs.Reply.{reply_words};
ghost use Rattle.board_bus.specs.Fault.{info_code};
ghost use Rattle.board_bus.specs.Cells.{read_word, write_word};
ghost use Rattle.board_bus.specs.Transactions.{sum_word, fault_of_reading, masked_word, modify, of_reading, of_writing};
ghost use Rattle.board_bus.specs.Transactions.{outcome, transact, words_read, write_words};
ghost use Rattle.board_bus.specs.Answering.{IsModified, addresses, modified_words, outcome_words, with_addresses, read_type};
ghost use Rattle.board_bus.specs.Answering.{write_type};

use crate::addressing::Addressing::{self, Block, Port};
use crate::room::push_within;
use crate::{Bus, BusFault};
use transaction_codec::info_code::SUCCESS;
use transaction_codec::transaction_type::{RMW_BITS, RMW_SUM};
use transaction_codec::{FirstRequest, OpRef, header};

/// How many words were written, and the refusal that ended the write, if one did.
#[derive(Clone, Copy)]
struct Written {
    done: u8,
    ended: Result<(), BusFault>,
}

impl Bus {
    /// Executes one request and appends its reply, for which `out` has room. Answers the refusal that ended it, if
    /// one did.
    pub(crate) fn transact(
        &mut self,
        request: &FirstRequest<'_>,
        out: &mut Vec<u32>,
    ) -> Result<(), BusFault>
        requires request { IsRequest (request_of request.now) }
        requires room { vec_len out.old + length (reply_words (transact self.old (request_of request.now)).reply)
            ≤ vec_capacity out.old }
        ensures bus { self.new ≡ (transact self.old (request_of request.now)).cells }
        ensures reply { out.new.items
            ≡ out.old.items ++ reply_words (transact self.old (request_of request.now)).reply }
        ensures fault { result_err result ≡ (outcome self.old (request_of request.now).op).fault }
        ensures capacity { vec_capacity out.old ≤ vec_capacity out.new }
    {
        let tid = request.tid;
        match request.op {
            OpRef::Read { base, count } => self.answer_read(tid, Block, base, count, out),
            OpRef::ReadPort { base, count } => self.answer_read(tid, Port, base, count, out),
            OpRef::Write { base, words } => self.answer_write(tid, Block, base, words, out),
            OpRef::WritePort { base, words } => self.answer_write(tid, Port, base, words, out),
            OpRef::RmwBits {
                base,
                and_term,
                or_term,
            } => {
                let modified = self.mask(base, and_term, or_term);
                answer_modified(tid, RMW_BITS, modified, out)
            }
            OpRef::RmwSum { base, addend } => {
                let modified = self.add(base, addend);
                answer_modified(tid, RMW_SUM, modified, out)
            }
        }
    }

    /// Appends the reply to a read: its header, and the words up to the first that is refused.
    fn answer_read(
        &self,
        tid: u16,
        addressing: Addressing,
        base: u32,
        count: u32,
        out: &mut Vec<u32>,
    ) -> Result<(), BusFault>
        requires tid { tid < 2 ^ 12 }
        requires count { count < 2 ^ 8 }
        requires room { vec_len out.old
            + length (outcome_words tid (read_type addressing) (of_reading self.now (addresses addressing base count)))
            ≤ vec_capacity out.old }
        ensures reply { out.new.items ≡ out.old.items
            ++ outcome_words tid (read_type addressing) (of_reading self.now (addresses addressing base count)) }
        ensures fault { result_err result ≡ fault_of_reading self.now (addresses addressing base count) }
        ensures capacity { vec_capacity out.old ≤ vec_capacity out.new }
    {
        let place = out.len();
        // A place for the header, whose count is known only after the words.
        push_within(out, 0);
        let ended = self.read_words(addressing, base, count, out);
        let done = (out.len() - place - 1) as u8;
        out[place] = header(tid, done, addressing.read_type(), info_code(ended));
        ended
    }

    /// Appends the words of a block or of a port, up to the first that is refused.
    fn read_words(
        &self,
        addressing: Addressing,
        base: u32,
        count: u32,
        out: &mut Vec<u32>,
    ) -> Result<(), BusFault>
        requires count { count < 2 ^ 8 }
        requires room { vec_len out.old + length (words_read self.now (addresses addressing base count))
            ≤ vec_capacity out.old }
        ensures words { out.new.items ≡ out.old.items ++ words_read self.now (addresses addressing base count) }
        ensures fault { result_err result ≡ fault_of_reading self.now (addresses addressing base count) }
        ensures capacity { vec_capacity out.old ≤ vec_capacity out.new }
    {
        let step = addressing.step();
        let mut address = u64::from(base);
        let mut last = 0;
        for done in 0..count {
            let word = self.read_at(&mut last, address)?;
            push_within(out, word);
            address += step;
        }
        Ok(())
    }

    /// Writes the words of a block or of a port, up to the first that is refused.
    fn write_words(&mut self, addressing: Addressing, base: u32, words: &[u32]) -> Written
        requires count { length words.now < 2 ^ 8 }
        ensures bus { self.new ≡ (write_words self.old (with_addresses addressing base words.now)).cells }
        ensures done { result.done ≡ (write_words self.old (with_addresses addressing base words.now)).done }
        ensures fault { result_err result.ended ≡ (write_words self.old (with_addresses addressing base words.now)).fault }
    {
        let step = addressing.step();
        let mut address = u64::from(base);
        let mut last = 0;
        let mut done = 0;
        for word in words {
            if let Err(fault) = self.write_at(&mut last, address, *word) {
                return Written {
                    done,
                    ended: Err(fault),
                };
            }
            address += step;
            done += 1;
        }
        Written {
            done,
            ended: Ok(()),
        }
    }

    /// Appends the reply to a write, which carries no words.
    fn answer_write(
        &mut self,
        tid: u16,
        addressing: Addressing,
        base: u32,
        words: &[u32],
        out: &mut Vec<u32>,
    ) -> Result<(), BusFault>
        requires tid { tid < 2 ^ 12 }
        requires count { length words.now < 2 ^ 8 }
        requires room { vec_len out.old < vec_capacity out.old }
        ensures bus { self.new ≡ (write_words self.old (with_addresses addressing base words.now)).cells }
        ensures reply { out.new.items ≡ out.old.items
            ++ outcome_words tid (write_type addressing)
            (of_writing (write_words self.old (with_addresses addressing base words.now))) }
        ensures fault { result_err result ≡ (write_words self.old (with_addresses addressing base words.now)).fault }
        ensures capacity { vec_capacity out.old ≤ vec_capacity out.new }
    {
        let written = self.write_words(addressing, base, words);
        let code = info_code(written.ended);
        push_within(
            out,
            header(tid, written.done, addressing.write_type(), code),
        );
        written.ended
    }

    /// Replaces the word X at an address by (X AND `and_term`) OR `or_term`, and answers X.
    fn mask(&mut self, base: u32, and_term: u32, or_term: u32) -> Result<u32, BusFault>
        ensures { IsModified self.old self.new result (modify self.old base (masked_word and_term or_term)) }
    {
        let mut last = 0;
        let before = self.read_near(&mut last, base)?;
        self.write_near(&mut last, base, (before & and_term) | or_term)?;
        Ok(before)
    }

    /// Adds to the word X at an address modulo 2^32, and answers X.
    fn add(&mut self, base: u32, addend: u32) -> Result<u32, BusFault>
        ensures { IsModified self.old self.new result (modify self.old base (sum_word addend)) }
    {
        let mut last = 0;
        let before = self.read_near(&mut last, base)?;
        self.write_near(&mut last, base, before.wrapping_add(addend))?;
        Ok(before)
    }

    /// Reads an address that may be past the end. The page `last` is looked at first, and is then the one of the word.
    fn read_at(&self, last: &mut usize, address: u64) -> Result<u32, BusFault>
        ensures { result ≡ read_word self.now address }
    {
        match u32::try_from(address) {
            Ok(address) => self.read_near(last, address),
            Err(_) => Err(BusFault::ReadError),
        }
    }

    /// Writes an address that may be past the end. The page `last` is looked at first, and is then the one of the word.
    fn write_at(&mut self, last: &mut usize, address: u64, word: u32) -> Result<(), BusFault>
        ensures written { OnOk result (write_word self.old address word ≡ Ok self.new) }
        ensures refused { IfErr result (λ fault. write_word self.old address word ≡ Err fault) }
        ensures unchanged { OnErr result (self.new ≡ self.old) }
    {
        match u32::try_from(address) {
            Ok(address) => self.write_near(last, address, word),
            Err(_) => Err(BusFault::WriteError),
        }
    }
}

/// The info code of a transaction that ended so.
fn info_code(ended: Result<(), BusFault>) -> u8
    ensures value { result ≡ info_code (result_err ended) }
    ensures fits { result < 2 ^ 4 }
{
    match ended {
        Ok(()) => SUCCESS,
        Err(fault) => fault.code(),
    }
}

/// Appends the reply to a change of one word, which carries the word before.
fn answer_modified(
    tid: u16,
    kind: u8,
    modified: Result<u32, BusFault>,
    out: &mut Vec<u32>,
) -> Result<(), BusFault>
    requires tid { tid < 2 ^ 12 }
    requires kind { kind < 2 ^ 4 }
    requires room { vec_len out.old + length (modified_words tid kind modified) ≤ vec_capacity out.old }
    ensures reply { out.new.items ≡ out.old.items ++ modified_words tid kind modified }
    ensures fault { result_err result ≡ result_err modified }
    ensures capacity { vec_capacity out.old ≤ vec_capacity out.new }
{
    match modified {
        Ok(before) => {
            push_within(out, header(tid, 1, kind, SUCCESS));
            push_within(out, before);
            Ok(())
        }
        Err(fault) => {
            push_within(out, header(tid, 0, kind, fault.code()));
            Err(fault)
        }
    }
}
