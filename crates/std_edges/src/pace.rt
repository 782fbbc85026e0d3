//! Lines on whether a board answers, one a second at the most.

use std::time::Duration;

/// At least so many seconds lie between two lines on one board (profile).
pub const SECONDS_BETWEEN: u64 = 1;

/// A line that is due.
#[derive(Clone, Copy, PartialEq, Eq)]
pub struct Line {
    /// Whether the board is silent; else it answers again.
    pub is_silent: bool,
    /// How many lines were left out since the last one.
    pub left_out: u32,
}

/// Whether a board answers, as it was said last and as it is now. Times are those of a clock that never goes back.
#[derive(Drop)]
pub struct Pace {
    was_said: bool,
    is_silent: bool,
    changes: u32,
    last: Option<Duration>,
}

impl Pace {
    /// Of a board that counts as one that answers. A line may be said at once.
    pub fn new() -> Pace {
        Pace {
            was_said: false,
            is_silent: false,
            changes: 0,
            last: None,
        }
    }

    /// No line is said for a second from this time on.
    pub fn hold(&mut self, now: Duration) {
        self.last = Some(now);
    }

    /// A line may be said at once, unless the last one told of a silence.
    pub fn release(&mut self) {
        if !self.was_said {
            self.last = None;
        }
    }

    /// The board is silent from now on, or answers.
    pub fn change(&mut self, is_silent: bool) {
        if self.is_silent != is_silent {
            self.is_silent = is_silent;
            self.changes = self.changes.saturating_add(1);
        }
    }

    /// Whether something else is so than what was said.
    pub fn has_news(&self) -> bool {
        self.was_said != self.is_silent
    }

    /// The line that is due at this time, if one is. It counts as said.
    pub fn due(&mut self, now: Duration) -> Option<Line> {
        if let Some(last) = self.last
            && now.saturating_sub(last) < Duration::from_secs(SECONDS_BETWEEN)
        {
            return None;
        }
        let line = self.last_line()?;
        self.last = Some(now);
        Some(line)
    }

    /// The line that has to be said where none can be said later.
    pub fn last_line(&mut self) -> Option<Line> {
        if !self.has_news() {
            return None;
        }
        let left_out = self.changes.saturating_sub(1);
        self.was_said = self.is_silent;
        self.changes = 0;
        Some(Line {
            is_silent: self.is_silent,
            left_out,
        })
    }
}
