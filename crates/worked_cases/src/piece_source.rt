//! A source that gives little at a time.

ghost use Rattle.std.specs.Prelude.{◌≡◌, ◌≤◌};

use outer_io::{Failed, Source};

/// A source of which no read gives more than so many bytes, one at least.
#[derive(Drop)]
pub struct PieceSource<S: Source> {
    source: S,
    most: usize,
    ghost some: { 1 ≤ most },
}

impl<S: Source> PieceSource<S> {
    pub fn new(source: S, most: usize) -> PieceSource<S>
        ensures { result.source ≡ source }
    {
        PieceSource {
            source,
            most: most.max(1),
        }
    }
}

impl<S: Source> Source for PieceSource<S> {
    ghost faults = { λ s. S.faults s.source };

    ghost left = { λ s. S.left s.source };

    fn read(&mut self, into: &mut [u8]) -> Result<usize, Failed> {
        let room = into.len().min(self.most);
        self.source.read(&mut into[..room])
    }
}
