//! A rack that keeps taps, and makes none.

ghost use Rattle.std.specs.Prelude.{◌≡◌, ◌∷◌, [], length, IfOk};

use crate::tap::TapLink;
use board_specs::{BoardSpec, LinkSpec};
use ipb_base::NoMemory;
use links::{Link, Rack, RackFault, SpecLog};
use std::alloc::Global;
use std::marker::{Model, Send};

/// A rack for one tap that was made elsewhere, which is given back to it. It makes none itself: each make fails, and is
/// counted.
#[derive(Drop)]
pub(crate) struct Taps<L: Link> {
    kept: Vec<TapLink<L>>,
    made: SpecLog,
    faults: u64,
}

impl<L: Link> Model for Taps<L> {
    ghost use Rattle.std.specs.Prelude.{◌≤◌, length};
    ghost use Rattle.std.specs.Vec.{vec_capacity};
    ghost use Rattle.record_command.specs.Taps.{TapsState};

    ghost Value = { TapsState L };

    ghost view = { λ taps. record { kept = taps.kept.items; made = taps.made; faults = taps.faults } };

    ghost invariant = { λ taps.
        (length taps.kept.items ≤ length taps.made) × (length taps.made ≤ vec_capacity taps.kept) };
}

impl<L: Link + Drop> Taps<L> {
    /// A rack with room for one tap, of a link that was made of this spec.
    pub(crate) fn new(alloc: Global, spec: &LinkSpec) -> Result<Taps<L>, NoMemory>
        ensures { IfOk result (λ taps. taps ≡ record { kept = []; made = spec.now ∷ []; faults = 0 }) }
    {
        let kept = Vec::with_capacity(alloc, 1)?;
        let mut made = SpecLog::new(alloc);
        made.add(spec)?;
        Ok(Taps {
            kept,
            made,
            faults: 0,
        })
    }

    /// The one tap that was given back.
    pub(crate) fn into_tap(self) -> TapLink<L>
        requires { length self.kept ≡ 1 }
        ensures { self.kept ≡ result ∷ [] }
    {
        let Taps { kept, .. } = self;
        let mut kept = kept;
        let Some(tap) = kept.pop() else {
            unreachable!();
        };
        tap
    }
}

impl<L: Link + Send + Drop> Rack for Taps<L> {
    type L = TapLink<L>;

    ghost kept = { λ taps. taps.kept };

    ghost made = { λ taps. taps.made };

    ghost faults = { λ taps. taps.faults };

    fn make(&mut self, _spec: &BoardSpec) -> Result<TapLink<L>, RackFault> {
        self.faults = self.faults.saturating_add(1);
        Err(RackFault::Failed)
    }

    fn keep(&mut self, link: TapLink<L>) {
        self.kept.push_reserved(link);
    }
}
