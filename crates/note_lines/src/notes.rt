//! Lines that are said.

ghost use Rattle.std.specs.Prelude.{◌≡◌};
ghost use Rattle.std.specs.Result.{result_ok};

use crate::escaping::OneLine;
use ipb_base::NoMemory;
use std::alloc::Global;
use std::fmt::Display;

/// So many of many are named, and the others counted.
const MOST_NAMED: u32 = 10;

/// Lines that are said, one behind another: first those on what was done, which are said whatever becomes of the text of
/// an answer, then those on that text. Where memory ran out for one of them, none is said.
#[derive(Drop)]
pub struct Notes {
    pub alloc: Global,
    lines: Vec<String>,
    /// How many speak of what was done. `None` where all do.
    of_deeds: Option<usize>,
    lacks_memory: bool,
}

impl Notes {
    /// A list of notes in which nothing stands yet. It takes no memory.
    pub fn new(alloc: Global) -> Notes {
        Notes {
            alloc,
            lines: Vec::new(alloc),
            of_deeds: None,
            lacks_memory: false,
        }
    }

    /// All lines, where there was memory for them.
    pub fn lines(&self) -> &[String] {
        if self.lacks_memory {
            return &[];
        }
        self.lines.as_slice()
    }

    /// The lines on what was done, where there was memory for all.
    pub fn lines_of_deeds(&self) -> &[String] {
        let lines = self.lines();
        let count = self.of_deeds.unwrap_or(lines.len());
        lines.get(..count).unwrap_or(lines)
    }

    /// The lines that come speak of the text of the answer.
    pub fn begin_text(&mut self) {
        self.of_deeds = Some(self.lines.len());
    }

    /// The lines, where there was memory for all that was to be said.
    pub fn finish(self) -> Result<Vec<String>, NoMemory> {
        if self.lacks_memory {
            return Err(NoMemory);
        }
        Ok(self.lines)
    }

    /// Keeps that memory ran out.
    pub fn lack_memory(&mut self) {
        self.lacks_memory = true;
    }

    /// What was made, if there was memory for it. Where there was not, that is kept.
    pub fn made<T: Drop>(&mut self, made: Result<T, NoMemory>) -> Option<T>
        ensures { result ≡ result_ok made }
    {
        match made {
            Ok(value) => Some(value),
            Err(NoMemory) => {
                self.lacks_memory = true;
                None
            }
        }
    }

    /// How many there are.
    pub fn count(&self) -> usize {
        self.lines.len()
    }

    /// Adds a line to what is said.
    pub fn say<D: Display + Drop>(&mut self, line: D) {
        if self.push(line).is_err() {
            self.lacks_memory = true;
        }
    }

    fn push<D: Display + Drop>(&mut self, line: D) -> Result<(), NoMemory> {
        let line = line.to_string(self.alloc)?;
        Ok(self.lines.push(line)?)
    }

    /// Adds some lines to what is said.
    pub fn say_each(&mut self, lines: &[&str]) {
        for line in lines {
            self.say(*line);
        }
    }

    /// Says a rule, and in front of it what breaks it, by its name.
    pub fn say_of(&mut self, what: &str, name: &str, rule: &str) {
        self.say(format_args!("{what} {}: {rule}", OneLine(name)));
    }

    /// Says a rule on a register, or where there is no name of one, on the table or the board that has it.
    pub fn say_in(&mut self, what: &str, name: &str, register: &str, rule: &str) {
        if register.is_empty() {
            return self.say_of(what, name, rule);
        }
        let name = OneLine(name);
        let register = OneLine(register);
        self.say(format_args!("{what} {name}, register {register}: {rule}"));
    }

    /// Says a rule on a line of an input, by its number from 1.
    pub fn say_line(&mut self, line: u64, rule: &str) {
        self.say(format_args!("line {line}: {rule}"));
    }

    /// Says the line of one of many, by its number from 1, if it is one of those that are named.
    pub fn name<D: Display + Drop>(&mut self, number: u32, line: D) {
        if number <= MOST_NAMED {
            self.say(line);
        }
    }

    /// Says how many of so many are not named, if any.
    pub fn say_others(&mut self, count: u32) {
        if count > MOST_NAMED {
            let more = count - MOST_NAMED;
            self.say(format_args!("and {more} more"));
        }
    }

    /// Puts the last line in front of those that stand behind so many.
    pub fn put_behind(&mut self, count: usize) {
        if let Some(lines) = self.lines.as_mut_slice().get_mut(count..)
            && !lines.is_empty()
        {
            lines.rotate_right(1);
        }
    }
}
