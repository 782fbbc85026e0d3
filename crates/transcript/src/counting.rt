//! Counting of a client's operations.

ghost use Rattle.std.specs.Prelude.{◌≡◌, ◌+◌, IfOk, OnOk, replicate, slice_index};
ghost use Rattle.transcript.specs.Steps.{one_more_at, AreBelow};

use ipb_base::NoMemory;
use std::alloc::Global;

/// How many operations of a client there were so far, and how many of them on each board.
#[derive(Drop)]
pub(crate) struct Counts {
    pub(crate) number: u32,
    pub(crate) on_boards: Vec<usize>,
}

impl Counts {
    pub(crate) fn new(alloc: Global, boards: usize) -> Result<Counts, NoMemory>
        ensures number { IfOk result (λ counts. counts.number ≡ 0) }
        ensures boards { IfOk result (λ counts. counts.on_boards.items ≡ replicate boards 0) }
    {
        Ok(Counts {
            number: 0,
            on_boards: vec![in alloc; 0; boards]?,
        })
    }

    /// Counts an operation on no board, as one that is denied is. More than 2^32 - 1 operations are answered by
    /// `NoMemory`.
    pub(crate) fn raise_number(&mut self) -> Result<(), NoMemory>
        ensures number { OnOk result (self.new.number ≡ self.old.number + 1) }
        ensures counts { OnOk result (self.new.on_boards.items ≡ self.old.on_boards.items) }
    {
        let Some(number) = self.number.checked_add(1) else {
            return Err(NoMemory);
        };
        self.number = number;
        Ok(())
    }

    /// Counts an operation on a board, which may be none that is there, and tells how many there were on it before.
    /// More than 2^32 - 1 operations are answered by `NoMemory`.
    pub(crate) fn add(&mut self, board: usize) -> Result<usize, NoMemory>
        requires { AreBelow self.old.number self.old.on_boards.items }
        ensures before { IfOk result (λ before. before ≡ slice_index self.old.on_boards.items board) }
        ensures number { OnOk result (self.new.number ≡ self.old.number + 1) }
        ensures counts { OnOk result (self.new.on_boards.items ≡ one_more_at board self.old.on_boards.items) }
    {
        self.raise_number()?;
        if board >= self.on_boards.len() {
            return Ok(0);
        }
        let before = self.on_boards[board];
        self.on_boards[board] = before + 1;
        Ok(before)
    }
}
