//! A source that keeps what it gave.

ghost use Rattle.std.specs.Prelude.{◌≡◌};

use crate::copying::appended;
use ipb_outside::{Failed, Source};
use std::alloc::Global;
use std::marker::Model;

/// A source that keeps a copy of the bytes that it gave, as many as it is to keep at the most. Where there is no memory
/// for them it keeps none. Contracts see the source.
#[derive(Drop)]
pub struct KeptSource<S: Source + Drop> {
    source: S,
    copy: Option<Vec<u8>>,
    most: usize,
}

impl<S: Source + Drop> Model for KeptSource<S> {
    ghost Value = { S };

    ghost view = { λ kept. kept.source };
}

impl<S: Source + Drop> KeptSource<S> {
    /// The source, of which up to `most` bytes are kept.
    pub fn new(alloc: Global, source: S, most: usize) -> KeptSource<S>
        ensures { result ≡ source }
    {
        KeptSource {
            source,
            copy: Some(Vec::new(alloc)),
            most,
        }
    }

    /// The bytes that it gave, if it kept them all.
    pub fn given(&self) -> Option<&[u8]> {
        match &self.copy {
            Some(copy) => Some(copy.as_slice()),
            None => None,
        }
    }

    fn keep(&mut self, bytes: &[u8])
        ensures { self.new ≡ self.old }
    {
        if !appended(&mut self.copy, bytes, self.most) {
            self.copy = None;
        }
    }
}

impl<S: Source + Drop> Source for KeptSource<S> {
    ghost left = { λ kept. S.left kept };

    ghost faults = { λ kept. S.faults kept };

    /// One read of the source.
    fn read(&mut self, buf: &mut [u8]) -> Result<usize, Failed> {
        let count = self.source.read(buf)?;
        self.keep(&buf[..count]);
        Ok(count)
    }
}
