//! What a transcript was judged by.

use script_lang::Session;
use script_steps::Steps;

/// A transcript, with the session and the steps of each client by which it was judged.
#[derive(Clone, Copy)]
pub struct Judged<'a> {
    pub session: &'a Session,
    /// The steps of each client under the policy of the session.
    pub steps: &'a [Steps],
    pub transcript: &'a [u8],
}

impl<'a> Judged<'a> {
    /// The name of the board at this position.
    pub(crate) fn board_name(self, position: usize) -> &'a str {
        match self.session.boards.as_slice().get(position) {
            Some(board) => board.name.as_str(),
            None => "",
        }
    }
}
