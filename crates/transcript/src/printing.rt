//! The transcript of a run, printed line by line.

ghost use Rattle.std.specs.Prelude.{◌≡◌, ◌+◌, ◌++◌, [], ◌∷◌, true, IfOk, OnOk, map, option_map, option_to_list};
ghost use Rattle.std.specs.Prelude.{◌&&◌, slice_get, slice_index, string_bytes};
ghost use Rattle.transcript.specs.Lines as spec;
ghost use Rattle.transcript.specs.Printing.{HasPrinted};
ghost use Rattle.transcript.specs.Steps.{AreBelow, one_more_at, denied_line, ends_on, line_on};
ghost use Rattle.transcript.specs.Text as texts;

use crate::boards::board_lines;
use crate::body_end::BodyEnd;
use crate::counting::Counts;
use crate::lines::all_ends;
use crate::showing::Shown;
use crate::text::{push_asked, push_boards, push_heading};
use ipb_base::NoMemory;
use script_plans::BoardRun;
use script_steps::{RegOp, Step, Steps};
use std::alloc::Global;

/// The transcript of a run, and whether every line of an operation is a value, `done` or `was`.
#[derive(Drop)]
pub struct PrintedRuns {
    pub text: Vec<u8>,
    pub all_good: bool,
}

/// The transcript of a run so far.
#[derive(Drop)]
pub(crate) struct Printer {
    text: String,
    all_good: bool,
    /// What is told of the operation that is printed now.
    shown: Shown,
}

impl Printer {
    fn new(alloc: Global) -> Printer
        ensures text { string_bytes result.text ≡ [] }
        ensures good { result.all_good ≡ true }
    {
        Printer {
            text: String::new(alloc),
            all_good: true,
            shown: Shown::new(alloc),
        }
    }

    /// Prints the line of an operation on a board, of which what is told now is told.
    fn print_shown(&mut self, run: &BoardRun, number: u32, op: &RegOp) -> Result<(), NoMemory>
        ensures { OnOk result (HasPrinted self.old self.new
            (spec.line_with number op.now run.now.name self.old.shown ∷ [])) }
    {
        let board = run.name.as_str();
        push_asked(&mut self.text, number, op.verb, board, op.name.as_str())?;
        self.shown.push_onto(&mut self.text)?;
        self.all_good = self.all_good && self.shown.is_good();
        Ok(())
    }

    /// Prints the line of an operation: line `number` of its client, and operation `k`, from 0, of those on its board.
    fn print_line(
        &mut self,
        run: &BoardRun,
        client: usize,
        ends: &[BodyEnd],
        number: u32,
        k: usize,
        op: &RegOp,
    ) -> Result<(), NoMemory>
        requires { ends.now ≡ ends_on client run.now }
        ensures { OnOk result (HasPrinted self.old self.new (line_on client number k op.now run.now ∷ [])) }
    {
        self.shown.tell(run, client, ends, k, op)?;
        self.print_shown(run, number, op)
    }

    /// Prints the line of a client's next operation. One on a board that is not there has none.
    fn print_next(
        &mut self,
        runs: &[BoardRun],
        client: usize,
        ends: &[Vec<BodyEnd>],
        op: &RegOp,
        counts: &mut Counts,
    ) -> Result<(), NoMemory>
        requires ends { map (λ e. e.items) ends.now ≡ map (ends_on client) runs.now }
        requires below { AreBelow counts.old.number counts.old.on_boards.items }
        ensures number { OnOk result (counts.new.number ≡ counts.old.number + 1) }
        ensures counts { OnOk result (counts.new.on_boards.items ≡ one_more_at op.now.board counts.old.on_boards.items) }
        ensures lines { let number = counts.old.number + 1 in
            let k = slice_index counts.old.on_boards.items op.now.board in
            OnOk result (HasPrinted self.old self.new
            (option_to_list (option_map (line_on client number k op.now) (slice_get runs.now op.now.board)))) }
    {
        let board = op.board as usize;
        let k = counts.add(board)?;
        let Some(run) = runs.get(board) else {
            return Ok(());
        };
        self.print_line(run, client, ends[board].as_slice(), counts.number, k, op)
    }

    /// Prints the line of a client's next operation, which this rule denies: it has the next number and is counted on
    /// no board.
    fn print_denied(
        &mut self,
        runs: &[BoardRun],
        op: &RegOp,
        rule: u32,
        counts: &mut Counts,
    ) -> Result<(), NoMemory>
        ensures number { OnOk result (counts.new.number ≡ counts.old.number + 1) }
        ensures counts { OnOk result (counts.new.on_boards.items ≡ counts.old.on_boards.items) }
        ensures lines { let number = counts.old.number + 1 in
            OnOk result (HasPrinted self.old self.new
            (option_to_list (option_map (denied_line number op.now rule) (slice_get runs.now op.now.board)))) }
    {
        counts.raise_number()?;
        let Some(run) = runs.get(op.board as usize) else {
            return Ok(());
        };
        self.shown.tell_denied(rule);
        self.print_shown(run, counts.number, op)
    }

    /// Prints the lines of a client, counted from 0. Each reply is joined to its body once.
    fn print_client(
        &mut self,
        alloc: Global,
        runs: &[BoardRun],
        client: usize,
        steps: &[Step],
    ) -> Result<(), NoMemory>
        ensures { OnOk result (HasPrinted self.old self.new (spec.client_lines runs.now client steps.now)) }
    {
        let ends = all_ends(alloc, runs, client)?;
        let mut counts = Counts::new(alloc, runs.len())?;
        for step in steps {
            match step {
                Step::Do(op) => self.print_next(runs, client, ends.as_slice(), op, &mut counts)?,
                Step::Denied { rule, op } => self.print_denied(runs, op, *rule, &mut counts)?,
                Step::Dispatch => {}
            }
        }
        Ok(())
    }

    /// Prints each client's heading and lines, client 1 first.
    fn print_clients(
        &mut self,
        alloc: Global,
        runs: &[BoardRun],
        scripts: &[Steps],
    ) -> Result<(), NoMemory>
        ensures text { OnOk result (string_bytes self.new.text
            ≡ string_bytes self.old.text ++ texts.clients_text 1 (spec.lines_from runs.now 0 scripts.now)) }
        ensures good { OnOk result (self.new.all_good
            ≡ (self.old.all_good && spec.all_good (spec.lines_from runs.now 0 scripts.now))) }
    {
        for (client, steps) in scripts.iter().enumerate() {
            push_heading(&mut self.text, client as u64 + 1)?;
            self.print_client(alloc, runs, client, steps.as_slice())?;
        }
        Ok(())
    }

    /// Prints the lines of the boards, in their order.
    fn print_boards(&mut self, alloc: Global, runs: &[BoardRun]) -> Result<(), NoMemory>
        ensures text { OnOk result (string_bytes self.new.text
            ≡ string_bytes self.old.text ++ texts.boards_text (map spec.board_line runs.now)) }
        ensures good { OnOk result (self.new.all_good ≡ self.old.all_good) }
    {
        let boards = board_lines(alloc, runs)?;
        push_boards(alloc, &mut self.text, &boards)
    }

    /// What was printed. It takes no memory.
    fn into_printed(self) -> PrintedRuns
        ensures text { result.text.items ≡ string_bytes self.text }
        ensures good { result.all_good ≡ self.all_good }
    {
        let Printer { text, all_good, .. } = self;
        PrintedRuns {
            text: text.into_bytes(),
            all_good,
        }
    }
}

/// The transcript of a run, as `transcript_text` gives it of the lines of its clients and boards, and what `all_good`
/// tells of them. No line is kept. More than 2^32 - 1 operations of a client are answered by `NoMemory` too, and more
/// bodies of a board than 64 bits count.
pub fn print_runs(
    alloc: Global,
    runs: &[BoardRun],
    scripts: &[Steps],
) -> Result<PrintedRuns, NoMemory>
    ensures text { IfOk result (λ printed. printed.text.items
        ≡ texts.transcript_text (spec.transcript_of scripts.now runs.now)) }
    ensures good { IfOk result (λ printed. printed.all_good
        ≡ spec.all_good (spec.transcript_of scripts.now runs.now).clients) }
{
    let mut printer = Printer::new(alloc);
    printer.print_clients(alloc, runs, scripts)?;
    printer.print_boards(alloc, runs)?;
    Ok(printer.into_printed())
}
