//! Values with a record of what was done to them.

ghost use Rattle.std.specs.Prelude.{◌≡◌, length};

/// What a caller did (profile): who, which kind of call, and its number among those of this caller and kind, from 0.
/// Which kinds there are is for the value to say.
#[derive(Clone, Copy, PartialEq, Eq)]
pub struct Entry {
    pub maker: u32,
    pub kind: u8,
    pub seq: u64,
}

/// A value that has a record.
pub trait Chronicle {
    ghost use Rattle.turn_pass.specs.Record.{Record};

    /// The record: a head, and the entries with a content each.
    ghost entries: { Self → Record };

    /// How many entries the record has.
    fn count(&self) -> u64
        ensures { result ≡ length (entries self.now).entries };
}
