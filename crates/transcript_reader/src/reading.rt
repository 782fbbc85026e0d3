//! Reading the text of a transcript.

ghost use Rattle.std.specs.Prelude.{◌≡◌, ◌+◌, ◌<◌, ◌^◌, ℕ, [], ◌∷◌, List, IfOk, IfErr, OnOk, length, map};
ghost use Rattle.std.specs.List.{AllByRecursion};
ghost use Rattle.script_steps.specs.Packing.{CanBePacked};
ghost use Rattle.script_steps.specs.Rulings as rulings;
ghost use Rattle.script_steps.specs.Rulings.{asked_operations};
ghost use Rattle.board_specs.specs.declared.spec.BoardSpec.{BoardSpec as BoardSpecValue};
ghost use Rattle.script_plans.specs.declared.greeting.Greeting.{Greeting as GreetingValue};
ghost use Rattle.transcript.specs.Text as texts;
ghost use Rattle.transcript_reader.specs.Entries as places;
ghost use Rattle.transcript_reader.specs.Entries.{IsHere, clients_from, entries, lines_of, operations_from};
ghost use Rattle.transcript_reader.specs.Faults.{IsUnshown};
ghost use Rattle.ipb_base.specs.Fronts.{Finds};
ghost use Rattle.transcript_reader.specs.Shown.{IsShownBy};
ghost use Rattle.transcript_reader.specs.Walks.{AreBoards, AreClients, AreOperations, CanBeSent, HasRoom, IsClient};
ghost use Rattle.transcript_reader.specs.Walks.{IsLeftOver, IsMissing, IsNextBoard, IsNextOperation, IsStuckBehind, IsTaken, asking};

use crate::boards::read_board;
use crate::front::same_bytes;
use crate::greeting::told_boards;
use crate::lines::first_line;
use crate::operation::read_operation;
use crate::shown::{BoardLines, Shown, ShownClients, ShownOp, ShownOps, Unshown};
use crate::writing::push_heading;
use board_specs::BoardSpec;
use ipb_base::NoMemory;
use script_plans::Greeting;
use script_steps::{RegOp, Step, Steps};
use std::alloc::Global;
use transcript::BoardLine;

/// The text behind the lines that were read, and how many they are.
#[derive(Drop)]
pub(crate) struct Reader<'a> {
    text: &'a [u8],
    line: u32,
    /// What a line is compared with.
    written: String,
}

/// The boards of a session, and what is told of each.
#[derive(Clone, Copy)]
struct Session<'a> {
    boards: &'a [BoardSpec],
    told: &'a [Greeting],
}

impl<'a> Reader<'a> {
    /// The next line, which is now the last that was read.
    fn next(&mut self) -> Result<&'a [u8], Unshown>
        ensures taken { IfOk result (λ line. IsTaken self.old self.new line.now) }
        ensures missing { IfErr result (IsMissing self.old) }
    {
        self.line = one_more(self.line)?;
        match first_line(self.text) {
            Some((line, rest)) => {
                self.text = rest;
                Ok(line)
            }
            None => Err(Unshown::At { line: self.line }),
        }
    }

    /// Reads the line of an operation, by its number among those of its client.
    fn read_next(
        &mut self,
        alloc: Global,
        session: &Session<'_>,
        number: u32,
        denied: Option<u32>,
        op: &RegOp,
    ) -> Result<ShownOp, Unshown>
        requires room { AllByRecursion HasRoom session.now.told.now }
        requires sound { CanBeSent denied op.now }
        ensures shows { IfOk result (IsNextOperation session.now.boards.now session.now.told.now number
            (asking denied op.now) self.old self.new) }
        ensures stuck { IfErr result (IsStuckBehind session.now.boards.now session.now.told.now
            (places.Operation number (asking denied op.now) ∷ [])
            (lines_of self.old.text.now) self.old.line) }
    {
        let line = self.next()?;
        let boards = session.boards;
        let told = session.told;
        match read_operation(
            alloc,
            &mut self.written,
            boards,
            told,
            number,
            denied,
            op,
            line,
        )? {
            Some(shown) => Ok(shown),
            None => Err(Unshown::At { line: self.line }),
        }
    }

    /// Reads the lines of a client's operations.
    fn read_operations(
        &mut self,
        alloc: Global,
        session: &Session<'_>,
        steps: &[Step],
    ) -> Result<ShownOps, Unshown>
        requires room { AllByRecursion HasRoom session.now.told.now }
        requires packed { AllByRecursion CanBePacked steps.now }
        ensures shows { IfOk result (AreOperations session.now.boards.now session.now.told.now (asked_operations steps.now)
            self.old self.new) }
        ensures stuck { IfErr result (IsStuckBehind session.now.boards.now session.now.told.now
            (operations_from 1 (asked_operations steps.now)) (lines_of self.old.text.now) self.old.line) }
    {
        let mut shows = Vec::new(alloc);
        let mut number: u32 = 1;
        for step in steps {
            let Some((denied, op)) = asked_in(step) else {
                continue;
            };
            let shown = self.read_next(alloc, session, number, denied, op)?;
            shows.push(shown)?;
            number = one_more(number)?;
        }
        Ok(ShownOps::from_vec(shows))
    }

    /// Reads the heading of a client.
    fn read_heading(&mut self, client: u64) -> Result<(), Unshown>
        ensures taken { OnOk result (IsTaken self.old self.new (texts.heading client)) }
        ensures stuck { IfErr result (λ unshown. (boards : List BoardSpecValue) (told : List GreetingValue) →
            IsStuckBehind boards told (places.Heading client ∷ []) (lines_of self.old.text.now) self.old.line unshown) }
    {
        let line = self.next()?;
        self.written.clear();
        push_heading(&mut self.written, client)?;
        if same_bytes(self.written.as_bytes(), line) {
            Ok(())
        } else {
            Err(Unshown::At { line: self.line })
        }
    }

    /// Reads the heading of a client and the lines of its operations.
    fn read_client(
        &mut self,
        alloc: Global,
        session: &Session<'_>,
        client: u64,
        steps: &[Step],
    ) -> Result<ShownOps, Unshown>
        requires room { AllByRecursion HasRoom session.now.told.now }
        requires packed { AllByRecursion CanBePacked steps.now }
        ensures shows { IfOk result (IsClient session.now.boards.now session.now.told.now client steps.now
            self.old self.new) }
        ensures stuck { IfErr result (IsStuckBehind session.now.boards.now session.now.told.now
            (places.Heading client ∷ operations_from 1 (asked_operations steps.now)) (lines_of self.old.text.now) self.old.line) }
    {
        self.read_heading(client)?;
        self.read_operations(alloc, session, steps)
    }

    /// Reads the lines of all clients, client 1 first.
    fn read_clients(
        &mut self,
        alloc: Global,
        session: &Session<'_>,
        scripts: &[Steps],
    ) -> Result<ShownClients, Unshown>
        requires room { AllByRecursion HasRoom session.now.told.now }
        requires packed { AllByRecursion (AllByRecursion CanBePacked) scripts.now }
        ensures shows { IfOk result (AreClients session.now.boards.now session.now.told.now scripts.now
            self.old self.new) }
        ensures stuck { IfErr result (IsStuckBehind session.now.boards.now session.now.told.now
            (clients_from 1 scripts.now) (lines_of self.old.text.now) self.old.line) }
    {
        let mut clients = Vec::new(alloc);
        for (i, steps) in scripts.iter().enumerate() {
            let shows = self.read_client(alloc, session, i as u64 + 1, steps.as_slice())?;
            clients.push(shows)?;
        }
        Ok(ShownClients::from_vec(clients))
    }

    /// Reads the line of a board.
    fn read_next_board(&mut self, alloc: Global, board: &BoardSpec) -> Result<BoardLine, Unshown>
        ensures shows { IfOk result (IsNextBoard board.now self.old self.new) }
        ensures stuck { IfErr result (λ unshown. (boards : List BoardSpecValue) (told : List GreetingValue) →
            IsStuckBehind boards told (places.Board board.now ∷ []) (lines_of self.old.text.now) self.old.line unshown) }
    {
        let line = self.next()?;
        match read_board(alloc, &mut self.written, board, line)? {
            Some(shown) => Ok(shown),
            None => Err(Unshown::At { line: self.line }),
        }
    }

    /// Fails with the next line where one is left.
    fn finish(&self) -> Result<(), Unshown>
        ensures done { OnOk result (lines_of self.now.text.now ≡ []) }
        ensures left { IfErr result (IsLeftOver self.now) }
    {
        if first_line(self.text).is_none() {
            return Ok(());
        }
        let line = one_more(self.line)?;
        Err(Unshown::At { line })
    }

    /// Reads the lines of all boards, in board order.
    fn read_boards(&mut self, alloc: Global, boards: &[BoardSpec]) -> Result<BoardLines, Unshown>
        ensures shows { IfOk result (AreBoards boards.now self.old self.new) }
        ensures stuck { IfErr result (λ unshown. (told : List GreetingValue) →
            IsStuckBehind boards.now told (map places.Board boards.now) (lines_of self.old.text.now) self.old.line unshown) }
    {
        let mut shown = Vec::new(alloc);
        for board in boards {
            shown.push(self.read_next_board(alloc, board)?)?;
        }
        Ok(BoardLines::from_vec(shown))
    }
}

/// The next number. No text that fits memory has so many lines that there is none.
fn one_more(number: u32) -> Result<u32, NoMemory>
    ensures { IfOk result (λ more. more ≡ number + 1) }
{
    number.checked_add(1).ok_or(NoMemory)
}

/// The operation that a step asks for, and the number of the rule that denies it.
fn asked_in(step: &Step) -> Option<(Option<u32>, &RegOp)>
    ensures { Finds (λ found. asking found.0 found.1.now) result (rulings.asked_in step.now) }
{
    match step {
        Step::Do(op) => Some((None, op)),
        Step::Denied { rule, op } => Some((Some(*rule), op)),
        Step::Dispatch => None,
    }
}

/// What a text shows of a session, by its boards and the steps of each client, where it is a transcript of it; else the
/// first line that may not stand there, that is missing, or that is left over (profile).
pub fn read_transcript(
    alloc: Global,
    boards: &[BoardSpec],
    scripts: &[Steps],
    text: &[u8],
) -> Result<Shown, Unshown>
    requires boards { AllByRecursion IsHere boards.now }
    requires packed { AllByRecursion (AllByRecursion CanBePacked) scripts.now }
    requires few { length (entries boards.now scripts.now) + 1 < 2 ^ 32 }
    ensures found { IfOk result (IsShownBy boards.now scripts.now text.now) }
    ensures refused { IfErr result (IsUnshown boards.now scripts.now text.now) }
{
    let mut reader = Reader {
        text,
        line: 0,
        written: String::new(alloc),
    };
    let told = told_boards(alloc, &mut reader.written, boards, scripts, text)?;
    let session = Session {
        boards,
        told: told.as_slice(),
    };
    let clients = reader.read_clients(alloc, &session, scripts)?;
    let lines = reader.read_boards(alloc, boards)?;
    reader.finish()?;
    Ok(Shown {
        clients,
        boards: lines,
    })
}
