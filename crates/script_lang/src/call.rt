//! What a line of a script says.

ghost use Rattle.std.specs.Prelude.{◌≡◌};

use crate::Verb;
use ipb_base::Words;
use std::marker::Model;

/// A name that the line lends. Contracts see its bytes.
#[derive(Drop)]
pub(crate) struct Name<'a> {
    text: &'a str,
}

impl<'a> Model for Name<'a> {
    ghost use Rattle.std.specs.Prelude.{List, ℕ};

    ghost Value = { List ℕ };

    ghost view = { λ name. name.text.now };
}

impl<'a> Name<'a> {
    pub(crate) fn of(text: &'a str) -> Name<'a>
        ensures { result ≡ text.now }
    {
        Name { text }
    }

    pub(crate) fn as_str(&self) -> &str
        ensures { result.now ≡ self.now }
    {
        self.text
    }
}

/// An operation as a line asks for it.
#[derive(Drop)]
pub(crate) struct Call<'a> {
    pub verb: Verb,
    /// The name of the board, before the first colon.
    pub board: Name<'a>,
    /// The name of the register, after it.
    pub name: Name<'a>,
    /// The numbers that follow.
    pub numbers: Words,
}

/// What a line says.
#[derive(Drop)]
pub(crate) enum Command<'a> {
    /// No words, or a comment.
    Nothing,
    Dispatch,
    Ask(Call<'a>),
}
