//! How long a board has been silent.

ghost use Rattle.std.specs.Prelude.{◌≡◌, ◌+◌, ◌-◌, ◌^◌, ◌==◌, min, nat_le};
ghost use Rattle.std_edges.specs.Numbers.{silent_after};

use std::marker::Model;

/// After so many quiet receives in a row a board counts as silent (profile).
pub const SILENT_AFTER: u32 = 2;

/// The quiet receives of a link since it last received, counted in 32 bits. Contracts see that number.
#[derive(Drop)]
pub struct Silence {
    quiets: u32,
}

impl Model for Silence {
    ghost use Rattle.std.specs.Prelude.{ℕ};

    ghost Value = { ℕ };

    ghost view = { λ silence. silence.quiets };
}

impl Silence {
    /// The state of a link on which nothing was received yet.
    pub fn new() -> Silence
        ensures { result ≡ 0 }
    {
        Silence { quiets: 0 }
    }

    /// Counts a quiet receive, and answers whether the board counts as silent from it on.
    pub fn quiet(&mut self) -> bool
        ensures counted { self.new ≡ min (self.old + 1) (2 ^ 32 - 1) }
        ensures first { result ≡ (self.new == silent_after) }
    {
        self.quiets = self.quiets.saturating_add(1);
        self.quiets == SILENT_AFTER
    }

    /// Ends the silence at a receive, and answers whether the board counted as silent.
    pub fn ended(&mut self) -> bool
        ensures over { self.new ≡ 0 }
        ensures was { result ≡ nat_le silent_after self.old }
    {
        let was_silent = SILENT_AFTER <= self.quiets;
        self.quiets = 0;
        was_silent
    }
}
