//! The way to a place in a document.

ghost use Rattle.std.specs.Prelude.{◌≡◌, ◌++◌, [], List, IfOk, IfErr, OnOk, string_bytes};
ghost use Rattle.script_lang.specs.declared.steps.PathStep.TheVariants.{Key, Item};
ghost use Rattle.script_lang.specs.Paths.{path, tail, step_text};
ghost use Rattle.script_lang.specs.Walk.{Way as SpecWay, below, here, unless};
ghost use Rattle.script_lang.specs.Reading.{TellsFirst};

use ipb_base::{NoMemory, Text};
use std::alloc::Global;
use std::marker::Model;

/// One step of the way to a place: into a table by a key, or into an array by a position from 0.
#[derive(Drop)]
pub enum PathStep {
    Key(Text),
    Item(u64),
}

/// The steps from a value to a place in it.
#[derive(Drop)]
pub(crate) struct Way {
    steps: Vec<PathStep>,
}

impl Model for Way {
    ghost use Rattle.std.specs.Prelude.{List};
    ghost use Rattle.script_lang.specs.declared.steps.PathStep.{PathStep};

    ghost Value = { List PathStep };

    ghost view = { λ way. way.steps.items };
}

/// Why a value is not what it should be.
#[derive(Drop)]
pub(crate) enum Misfit {
    /// The first faulty place.
    At(Way),
    NoMemory,
}

impl Way {
    /// The path of a way: its steps, joined by dots.
    pub(crate) fn path(&self, alloc: Global) -> Result<Text, NoMemory>
        ensures { IfOk result (λ text. text ≡ path self.now) }
    {
        match self.steps.as_slice() {
            [] => Ok(Text::from_string(String::new(alloc))),
            [first, rest @ ..] => {
                let mut text = step_text(alloc, first)?;
                push_tail(alloc, &mut text, rest)?;
                Ok(Text::from_string(text))
            }
        }
    }
}

/// A key as it stands, a position in decimal digits.
fn step_text(alloc: Global, step: &PathStep) -> Result<String, NoMemory>
    ensures { IfOk result (λ text. string_bytes text ≡ step_text step.now) }
{
    match step {
        PathStep::Key(name) => Ok(String::from_str(alloc, name.as_str())?),
        PathStep::Item(i) => Ok(format!(in alloc; "{i}")?),
    }
}

/// Adds steps, each after a dot.
fn push_tail(alloc: Global, text: &mut String, steps: &[PathStep]) -> Result<(), NoMemory>
    ensures { OnOk result (string_bytes text.new ≡ string_bytes text.old ++ tail steps.now) }
{
    for step in steps {
        let next = step_text(alloc, step)?;
        text.push_str(".")?;
        text.push_str(next.as_str())?;
    }
    Ok(())
}

/// A fault of the value itself.
pub(crate) fn misfit_here(alloc: Global) -> Misfit
    ensures { TellsFirst here result }
{
    Misfit::At(Way {
        steps: Vec::new(alloc),
    })
}

/// A fault of the value itself, unless the test holds.
pub(crate) fn check(alloc: Global, holds: bool) -> Result<(), Misfit>
    ensures none { OnOk result (unless holds ≡ []) }
    ensures first { IfErr result (TellsFirst (unless holds)) }
{
    if holds {
        Ok(())
    } else {
        Err(misfit_here(alloc))
    }
}

/// A fault of a value under a key, as it is seen from the table.
pub(crate) fn below_key(alloc: Global, name: &str, misfit: Misfit) -> Misfit
    ensures { (ways : List SpecWay) → TellsFirst ways misfit → TellsFirst (below (Key name.now) ways) result }
{
    match Text::copy_of(alloc, name) {
        Ok(name) => below_step(PathStep::Key(name), misfit),
        Err(NoMemory) => Misfit::NoMemory,
    }
}

/// A fault of an item, as it is seen from the array.
pub(crate) fn below_item(position: u64, misfit: Misfit) -> Misfit
    ensures { (ways : List SpecWay) → TellsFirst ways misfit → TellsFirst (below (Item position) ways) result }
{
    below_step(PathStep::Item(position), misfit)
}

fn below_step(step: PathStep, misfit: Misfit) -> Misfit
    ensures { (ways : List SpecWay) → TellsFirst ways misfit → TellsFirst (below step ways) result }
{
    match misfit {
        Misfit::At(way) => {
            let Way { mut steps } = way;
            match steps.insert(0, step) {
                Ok(()) => Misfit::At(Way { steps }),
                Err(_) => Misfit::NoMemory,
            }
        }
        Misfit::NoMemory => Misfit::NoMemory,
    }
}
