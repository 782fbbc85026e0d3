ghost use Rattle.std.specs.Prelude.{◌≡◌, IfOk};

use ipb_base::NoMemory;
use smallvec::SmallVec;
use std::alloc::Global;
use std::marker::Model;

/// The words that a transaction read. One or two of them take no memory. Contracts see that list.
#[derive(Drop)]
pub struct ReadWords {
    items: SmallVec<u32, 2>,
}

impl Model for ReadWords {
    ghost use Rattle.std.specs.Prelude.{List, ℕ};

    ghost Value = { List ℕ };

    ghost view = { λ words. words.items.items };
}

impl PartialEq for ReadWords {
    ghost use Rattle.std.specs.Cmp.{partial_equiv_from_equiv};
    ghost use Rattle.std.specs.Cmp.Lexicographic.{pointwise, nat_list_eq_equiv};
    ghost use Rattle.std.specs.Prelude.{nat_eq};

    ghost eq = { pointwise nat_eq };

    ghost laws = { partial_equiv_from_equiv nat_list_eq_equiv };

    fn eq(&self, other: &ReadWords) -> bool {
        self.as_slice() == other.as_slice()
    }
}

impl Eq for ReadWords {
    ghost use Rattle.std.specs.Cmp.Lexicographic.{nat_list_eq_equiv};

    ghost laws = { nat_list_eq_equiv };
}

impl ReadWords {
    /// A copy of these words.
    pub fn copy_of(alloc: Global, words: &[u32]) -> Result<ReadWords, NoMemory>
        ensures { IfOk result (λ copied. copied ≡ words.now) }
    {
        let items = SmallVec::from_slice(alloc, words)?;
        Ok(ReadWords { items })
    }

    /// The words that were read, in order.
    pub fn as_slice(&self) -> &[u32]
        ensures { result.now ≡ self.now }
    {
        self.items.as_slice()
    }
}
