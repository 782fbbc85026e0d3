//! What is told of an operation, in memory that serves many operations.

ghost use Rattle.std.specs.Prelude.{◌≡◌, ◌++◌, [], OnOk, codes, slice_get, string_bytes};
ghost use Rattle.std.specs.List.{AllByRecursion};
ghost use Rattle.script_plans.specs.declared.board_run.ClientPart.{ClientPart as PartValue};
ghost use Rattle.script_plans.specs.Plan.{IsWithinBody};
ghost use Rattle.transcript.specs.Ends as of_ends;
ghost use Rattle.transcript.specs.Lines as spec;
ghost use Rattle.transcript.specs.Results as of_results;
ghost use Rattle.transcript.specs.Steps.{ends_on};
ghost use Rattle.transcript.specs.Text as texts;

use crate::body_end::BodyEnd;
use crate::line::{LinePlaces, OpLine, OpResult};
use crate::results::{op_result, or_value, push_op_places};
use crate::status::is_good;
use crate::text::{push_places, push_result, push_text, push_value};
use ipb_base::{NoMemory, Text};
use script_plans::{BoardRun, ClientPart, Greeting, PieceAt};
use script_steps::{RegOp, Verb};
use std::alloc::Global;
use std::marker::Model;

/// What is told of an operation: what it came to, and its places. It may be told of one operation after the other, and
/// keeps its memory. Contracts see the pair.
#[derive(Drop)]
pub(crate) struct Shown {
    /// What it came to, unless that is the value of these words.
    told: Option<OpResult>,
    words: Vec<u32>,
    places: Vec<(u64, u16)>,
}

impl Model for Shown {
    ghost use Rattle.transcript.specs.Lines.{Showing};
    ghost use Rattle.transcript.specs.Steps.{or_value};

    ghost Value = { Showing };

    ghost view = { λ s. (or_value s.told s.words.items, s.places.items) };
}

impl Shown {
    /// What is told of an operation that was never sent. It takes no memory.
    pub(crate) fn new(alloc: Global) -> Shown
        ensures { result ≡ spec.never_sent }
    {
        Shown {
            told: Some(OpResult::Unsent),
            words: Vec::new(alloc),
            places: Vec::new(alloc),
        }
    }

    /// The operation came to this, and has no place.
    fn tell_without_place(&mut self, came_to: OpResult)
        ensures { self.new ≡ (came_to, []) }
    {
        self.told = Some(came_to);
        self.places.clear();
    }

    /// Tells that this rule denies the operation, so it has no place.
    pub(crate) fn tell_denied(&mut self, rule: u32)
        ensures { self.new ≡ spec.denied_by rule }
    {
        self.tell_without_place(OpResult::Denied { rule });
    }

    /// Tells what an operation of these pieces came to, and its places.
    fn tell_pieces(
        &mut self,
        ends: &[BodyEnd],
        op: &RegOp,
        pieces: &[PieceAt],
    ) -> Result<(), NoMemory>
        requires { AllByRecursion IsWithinBody pieces.now }
        ensures { OnOk result (self.new
            ≡ (of_results.op_result ends.now op.now pieces.now, of_results.op_places ends.now pieces.now)) }
    {
        self.words.clear();
        self.told = op_result(&mut self.words, ends, op, pieces)?;
        self.places.clear();
        push_op_places(&mut self.places, ends, pieces)
    }

    /// Tells of operation `k`, from 0, of those of a client on a board.
    fn tell_in_part(
        &mut self,
        parts: &[ClientPart],
        client: usize,
        ends: &[BodyEnd],
        k: usize,
        op: &RegOp,
    ) -> Result<(), NoMemory>
        requires { (part : PartValue) → slice_get parts.now client ≡ Some part → ends.now ≡ of_ends.ends_of part }
        ensures { OnOk result (self.new ≡ spec.in_part (slice_get parts.now client) k op.now) }
    {
        let Some(part) = parts.get(client) else {
            self.tell_without_place(OpResult::Unsent);
            return Ok(());
        };
        let Some(pieces) = part.planned.pieces(k) else {
            self.tell_without_place(OpResult::Unsent);
            return Ok(());
        };
        self.tell_pieces(ends, op, pieces)
    }

    /// What a board's line shows, whatever its greeting told.
    pub(crate) fn tell(
        &mut self,
        run: &BoardRun,
        client: usize,
        ends: &[BodyEnd],
        k: usize,
        op: &RegOp,
    ) -> Result<(), NoMemory>
        requires { ends.now ≡ ends_on client run.now }
        ensures { OnOk result (self.new ≡ spec.showing run.now client k op.now) }
    {
        match run.greeting {
            Greeting::Live { .. } => self.tell_in_part(run.parts.as_slice(), client, ends, k, op)?,
            Greeting::Silent => self.tell_without_place(OpResult::Unsent),
            Greeting::Down => self.tell_without_place(OpResult::LinkLost),
        }
        Ok(())
    }

    /// The line of this number and verb, of a register of a board, that shows what is told. It takes no memory.
    pub(crate) fn into_line(self, number: u32, verb: Verb, board: Text, name: Text) -> OpLine
        ensures { result ≡ record {
          number = number;
          verb = verb;
          board = board;
          name = name;
          result = self.0;
          places = self.1;
        } }
    {
        let Shown {
            told,
            words,
            places,
        } = self;
        OpLine {
            number,
            verb,
            board,
            name,
            result: or_value(told, words),
            places: LinePlaces::from_vec(places),
        }
    }

    /// Whether the operation was executed without a fault.
    pub(crate) fn is_good(&self) -> bool
        ensures { result ≡ of_results.is_good self.now.0 }
    {
        match &self.told {
            Some(told) => is_good(told),
            None => true,
        }
    }

    /// Puts what the operation came to behind a text.
    fn push_came_to(&self, text: &mut String) -> Result<(), NoMemory>
        ensures { OnOk result (string_bytes text.new ≡ string_bytes text.old ++ texts.result_text self.now.0) }
    {
        match &self.told {
            Some(told) => push_result(text, told),
            None => push_value(text, self.words.as_slice()),
        }
    }

    /// Puts what the operation came to, then its places, and a line feed behind a text.
    pub(crate) fn push_onto(&self, text: &mut String) -> Result<(), NoMemory>
        ensures { OnOk result (string_bytes text.new ≡ string_bytes text.old
            ++ (texts.result_text self.now.0 ++ (texts.places_text self.now.1 ++ codes "\n"))) }
    {
        self.push_came_to(text)?;
        push_places(text, self.places.as_slice())?;
        push_text(text, "\n")
    }
}
