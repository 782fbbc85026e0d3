//! The line of a refusal.

ghost use Rattle.std.specs.Prelude.{◌≡◌, ◌++◌, IfOk, codes, string_bytes};
ghost use Rattle.session_input.specs.Lines.{shown_path};
ghost use Rattle.config_input.specs.Lines as spec;
ghost use Rattle.config_input.specs.Names as names;

use crate::refusal::ConfigRefusal;
use config_store::StoreWhy;
use ipb_base::NoMemory;
use std::alloc::Global;

impl ConfigRefusal {
    /// The line that tells the refusal, with its line feed.
    pub fn line(&self, alloc: Global) -> Result<String, NoMemory>
        ensures { IfOk result (λ text. string_bytes text ≡ spec.refusal_line self.now) }
    {
        match self {
            ConfigRefusal::OfSession(refusal) => refusal.line(alloc),
            ConfigRefusal::OfState { board, name, why } => {
                state_line(
                    alloc,
                    shown(board.as_str()),
                    shown(name.as_str()),
                    store_rule(*why),
                )
            }
        }
    }
}

/// An empty name is shown as a hyphen.
fn shown(name: &str) -> &str
    ensures { result.now ≡ shown_path name.now }
{
    if name.is_empty() { "-" } else { name }
}

fn store_rule(why: StoreWhy) -> &'static str
    ensures { result.now ≡ names.store_rule why }
{
    match why {
        StoreWhy::Shape => "Shape",
        StoreWhy::Overlap => "Overlap",
        StoreWhy::TooMany => "TooMany",
        StoreWhy::UnknownBoard => "UnknownBoard",
        StoreWhy::UnknownName => "UnknownName",
        StoreWhy::NotKept => "NotKept",
        StoreWhy::BitsOutside => "BitsOutside",
    }
}

fn state_line(alloc: Global, board: &str, name: &str, rule: &str) -> Result<String, NoMemory>
    ensures { IfOk result (λ text. string_bytes text ≡ codes "refused: state " ++ (board.now
        ++ (codes " " ++ (name.now ++ (codes " " ++ (rule.now ++ codes "\n")))))) }
{
    Ok(format!(in alloc; "refused: state {board} {name} {rule}\n")?)
}
