ghost use Rattle.std.specs.Prelude.{◌≡◌, IfSome, IsSome, ◌↔◌};
ghost use Rattle.world_model.specs.Settings.{AreLimits};

use std::marker::Model;

/// The greatest window of a session (profile).
pub const MAX_WINDOW: u8 = 16;

/// How long a hub waits for a board, and how many bodies go ahead of their replies (profile). Contracts see the two
/// numbers.
#[derive(Clone, Copy, PartialEq, Eq)]
pub struct Settings {
    rounds: u8,
    window: u8,
}

impl Model for Settings {
    ghost use Rattle.world_model.specs.Settings.{Limits, AreLimits};

    ghost Value = { Limits };

    ghost view = { λ s. record { rounds = s.rounds; window = s.window } };

    ghost invariant = { λ s. AreLimits (record { rounds = s.rounds; window = s.window }) };

    ghost inverse = { λ v. record { rounds = v.rounds; window = v.window } };
}

impl Settings {
    /// The settings with these numbers: rounds from 1, and a window from 1 to `MAX_WINDOW`. `None` for others.
    pub fn new(rounds: u8, window: u8) -> Option<Settings>
        ensures some { IsSome result ↔ AreLimits (record { rounds = rounds; window = window }) }
        ensures value { IfSome result (λ s. s ≡ record { rounds = rounds; window = window }) }
    {
        if rounds == 0 || window == 0 || window > MAX_WINDOW {
            return None;
        }
        Some(Settings { rounds, window })
    }

    /// After how many rounds in a row the hub gives up: 1 to 255. A round is a status request and a receive that ends
    /// quiet, with no place settled between them.
    pub fn rounds(self) -> u8
        ensures value { result ≡ self.rounds }
        ensures range { AreLimits self }
    {
        self.rounds
    }

    /// How many places, from the lowest without a reply on, may have been sent: 1 to `MAX_WINDOW`. The board's buffers
    /// bound the window too.
    pub fn window(self) -> u8
        ensures value { result ≡ self.window }
        ensures range { AreLimits self }
    {
        self.window
    }
}
