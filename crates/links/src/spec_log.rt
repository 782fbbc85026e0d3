//! The specs that links were made of.

ghost use Rattle.std.specs.Prelude.{◌≡◌, [], length};
ghost use Rattle.links.specs.Racks.{made_after};

use board_specs::LinkSpec;
use ipb_base::NoMemory;
use std::alloc::Global;
use std::marker::Model;
use std::snapshot::Snapshot;

/// The specs that a rack made links of, in order. Contracts see that list. It has no copy of a spec: where the program
/// runs it is their number.
#[derive(Drop)]
pub struct SpecLog {
    specs: Vec<Snapshot<LinkSpec>>,
}

impl Model for SpecLog {
    ghost use Rattle.std.specs.Prelude.{List, map};
    ghost use Rattle.board_specs.specs.declared.spec.LinkSpec.{LinkSpec};

    ghost Value = { List LinkSpec };

    ghost view = { λ log. map (λ spec. spec.value) log.specs.items };
}

impl SpecLog {
    /// A log with no specs. It takes no memory.
    pub fn new(alloc: Global) -> SpecLog
        ensures { result ≡ [] }
    {
        SpecLog {
            specs: Vec::new(alloc),
        }
    }

    /// How many there are.
    pub fn count(&self) -> usize
        ensures { result ≡ length self.now }
    {
        self.specs.len()
    }

    /// Adds one behind the others.
    pub fn add(&mut self, spec: &LinkSpec) -> Result<(), NoMemory>
        ensures { self.new ≡ made_after result spec.now self.old }
    {
        self.specs.push(Snapshot::of(spec))?;
        Ok(())
    }
}
