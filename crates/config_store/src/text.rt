//! The text of a configuration.

ghost use Rattle.std.specs.Prelude.{◌≡◌, ◌++◌, codes, IfOk, OnOk, string_bytes};
ghost use Rattle.std.specs.List.{filter, flat_map};
ghost use Rattle.config_store.specs.Text as spec;

use board_specs::BoardSpec;
use ipb_base::NoMemory;
use script_steps::Verb;
use std::alloc::Global;
use transcript::{OpLine, OpResult, push_result, push_word};

/// The text of a configuration (TOML, profile): for each board, in their order, a table `[state.NAME]` and in it, for
/// each line that read a register of the board, its value as `"REGISTER" = 0xWORD`, or else a comment that says what
/// became of the read.
pub fn state_text(
    alloc: Global,
    boards: &[BoardSpec],
    lines: &[OpLine],
) -> Result<Vec<u8>, NoMemory>
    ensures { IfOk result (λ text. text.items ≡ spec.state_text boards.now lines.now) }
{
    let mut text = String::new(alloc);
    push_boards(&mut text, boards, lines)?;
    Ok(text.into_bytes())
}

fn push_boards(text: &mut String, boards: &[BoardSpec], lines: &[OpLine]) -> Result<(), NoMemory>
    ensures { OnOk result (string_bytes text.new
        ≡ string_bytes text.old ++ spec.state_text boards.now lines.now) }
{
    for board in boards {
        push_heading(text, board.name.as_str())?;
        push_registers(text, board.name.as_slice(), lines)?;
    }
    Ok(())
}

fn push_heading(text: &mut String, board: &str) -> Result<(), NoMemory>
    ensures { OnOk result (string_bytes text.new ≡ string_bytes text.old ++ spec.heading board.now) }
{
    Ok(write!(text, "[state.{board}]\n")?)
}

/// What the reads on a board gave.
fn push_registers(text: &mut String, board: &[u8], lines: &[OpLine]) -> Result<(), NoMemory>
    ensures { OnOk result (string_bytes text.new ≡ string_bytes text.old
        ++ spec.registers_text (filter (spec.is_read_on board.now) lines.now)) }
{
    for line in lines {
        if is_read_on(board, line) {
            push_register(text, line.name.as_str(), &line.result)?;
        }
    }
    Ok(())
}

/// Whether a line is a read on the board of this name.
fn is_read_on(board: &[u8], line: &OpLine) -> bool
    ensures { result ≡ spec.is_read_on board.now line.now }
{
    line.verb == Verb::Read && line.board.as_slice() == board
}

fn one_word(words: &[u32]) -> Option<u32>
    ensures { result ≡ spec.one_word words.now }
{
    if words.len() == 1 {
        Some(words[0])
    } else {
        None
    }
}

/// The word that a read gave.
fn value_of(came_to: &OpResult) -> Option<u32>
    ensures { result ≡ spec.value_of came_to.now }
{
    match came_to {
        OpResult::Value(words) => one_word(words.as_slice()),
        _ => None,
    }
}

fn push_register(text: &mut String, name: &str, came_to: &OpResult) -> Result<(), NoMemory>
    ensures { OnOk result (string_bytes text.new ≡ string_bytes text.old
        ++ spec.by_value name.now came_to.now (spec.value_of came_to.now)) }
{
    match value_of(came_to) {
        Some(word) => push_value(text, name, word),
        None => push_comment(text, name, came_to),
    }
}

/// `"REGISTER" = 0xWORD`
fn push_value(text: &mut String, name: &str, word: u32) -> Result<(), NoMemory>
    ensures { OnOk result (string_bytes text.new ≡ string_bytes text.old ++ spec.value_text name.now word) }
{
    write!(text, "\"{name}\" = ")?;
    push_word(text, word)?;
    Ok(text.push_str("\n")?)
}

/// `# "REGISTER" RESULT`
fn push_comment(text: &mut String, name: &str, came_to: &OpResult) -> Result<(), NoMemory>
    ensures { OnOk result (string_bytes text.new
        ≡ string_bytes text.old ++ spec.comment_text name.now came_to.now) }
{
    write!(text, "# \"{name}\" ")?;
    push_result(text, came_to)?;
    Ok(text.push_str("\n")?)
}
