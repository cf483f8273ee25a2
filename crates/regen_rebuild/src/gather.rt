ghost use Rattle.std.specs.Prelude.{◌≡◌, ◌*◌, ◌<◌, false, not, replicate, length, Some, None, IfOk, IfErr, IfSome, OnOk, OnErr, MatchResult};
ghost use Rattle.std.specs.List.{count_by, position};
ghost use Rattle.blocks_core.specs.Xor.{zeros};
ghost use Rattle.regen_rebuild.specs.Gatherings.{Awaits, Meets, accepted_one, fresh, size};

use blocks_core::{Bytes, Memory, XorSum};
use std::alloc::Global;
use std::marker::Model;

/// Why the bytes of a source weren't accepted.
#[derive(Clone, Copy, Debug, PartialEq, Eq)]
pub enum GatherFault {
    /// There is no source of this number.
    Stranger { source: u8 },
    /// The source was accepted already. Folded in twice, its bytes would be gone from the exclusive-or.
    Double { source: u8 },
    /// The source gave another number of bytes than the blocks have.
    Size { want: u64, got: u64 },
}

/// The least source that wasn't accepted yet.
#[derive(Clone, Copy, Debug, PartialEq, Eq)]
pub struct Missing {
    pub source: u8,
}

/// The exclusive-or of the blocks of so many sources, each accepted once, in any order.
#[derive(Drop)]
pub struct Gather {
    size: u32,
    blocks: u32,
    taken: Vec<bool>,
    folded: XorSum,
}

impl Model for Gather {
    ghost use Rattle.std.specs.Prelude.{◌≡◌, ◌*◌, ◌<◌, length};
    ghost use Rattle.regen_rebuild.specs.Gatherings.{Gathering};

    ghost Value = { Gathering };

    ghost view = { λ g. record { block = g.size; count = g.blocks; accepted = g.taken.items; sum = g.folded } };

    ghost invariant = { λ g. (length g.folded ≡ g.blocks * g.size) × (length g.taken.items < 256) };
}

impl Gather {
    /// A gathering from so many sources, of which each gives `count` blocks. None is accepted yet, and the
    /// exclusive-or is zeros.
    pub fn new(alloc: Global, block: u32, count: u32, sources: u8) -> Result<Gather, Memory>
        ensures { IfOk result (λ g. g ≡ fresh block count sources) }
    {
        Ok(Gather {
            size: block,
            blocks: count,
            taken: vec![in alloc; false; sources as usize]?,
            folded: XorSum::new(alloc, count as usize * block as usize)?,
        })
    }

    /// Takes the blocks of one source, without taking memory.
    pub fn accept(&mut self, source: u8, bytes: &[u8]) -> Result<(), GatherFault>
        ensures accepts { OnOk result (self.new ≡ accepted_one self.old source bytes.now) }
        ensures awaited { OnOk result (Awaits self.old source × (length bytes.now ≡ size self.old)) }
        ensures refuses { IfErr result (Meets self.old source (length bytes.now)) }
        ensures unchanged { OnErr result (self.new ≡ self.old) }
    {
        self.check(source, bytes.len())?;
        self.fold(source, bytes);
        Ok(())
    }

    /// The fault that so many bytes of a source meet.
    fn check(&self, source: u8, len: usize) -> Result<(), GatherFault>
        ensures awaited { OnOk result (Awaits self.now source × (len ≡ size self.now)) }
        ensures refuses { IfErr result (Meets self.now source len) }
    {
        match self.taken.get(source as usize) {
            None => return Err(GatherFault::Stranger { source }),
            Some(true) => return Err(GatherFault::Double { source }),
            Some(false) => {}
        }
        let want = self.folded.as_slice().len();
        if len != want {
            return Err(GatherFault::Size {
                want: want as u64,
                got: len as u64,
            });
        }
        Ok(())
    }

    /// Folds in the blocks of a source that is awaited.
    fn fold(&mut self, source: u8, bytes: &[u8])
        requires awaited { Awaits self.old source }
        requires size { length bytes.now ≡ size self.old }
        ensures { self.new ≡ accepted_one self.old source bytes.now }
    {
        self.folded.add_within(bytes);
        self.taken[source as usize] = true;
    }

    /// How many sources aren't accepted yet.
    pub fn left(&self) -> u8
        ensures { result ≡ count_by not self.now.accepted }
    {
        self.taken.iter().filter(|taken| !**taken).count() as u8
    }

    /// The exclusive-or of the sources that were accepted so far.
    pub fn sum(&self) -> &[u8]
        ensures sum { result.now ≡ self.now.sum }
        ensures size { length result.now ≡ size self.now }
    {
        self.folded.as_slice()
    }

    /// The exclusive-or of all sources, where each was accepted, without taking memory.
    pub fn result(self) -> Result<Bytes, Missing>
        ensures { MatchResult result
            (λ bytes. (position not self.accepted ≡ None) × (bytes ≡ self.sum))
            (λ missing. position not self.accepted ≡ Some missing.source) }
    {
        match first_missing(self.taken.as_slice()) {
            Some(source) => Err(Missing {
                source: source as u8,
            }),
            None => Ok(self.folded.into_bytes()),
        }
    }
}

/// The first place at which none was taken.
fn first_missing(taken: &[bool]) -> Option<usize>
    ensures value { result ≡ position not taken.now }
    ensures within { IfSome result (λ place. place < length taken.now) }
{
    taken.iter().position(|taken| !*taken)
}
