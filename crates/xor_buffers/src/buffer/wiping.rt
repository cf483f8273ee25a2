//! Letting go all that a buffer holds, or all of an owner; and who the owners are.

ghost use Rattle.std.specs.Prelude.{◌≡◌, ◌==◌, ◌<◌, ◌+◌, ◌/◌, ◌++◌, [], not, filter, length, take, drop, slice_index_or, IfOk};
ghost use Rattle.xor_buffers.specs.declared.held.HeldBlocks.{HeldBlocks};
ghost use Rattle.xor_buffers.specs.Held.{held_blocks, owners_of};

use super::Held;
use super::table::{Run, cut};
use crate::owners::OwnerSet;
use blocks_core::{Memory, Owners};
use std::alloc::Global;

impl Held {
    /// Lets go all that is held, as a reset or a loss does.
    pub fn wipe(&mut self)
        ensures { self.new ≡ record self.old { list = [] } }
    {
        self.runs.clear();
        self.used = 0;
        self.first = u32::MAX;
        self.end = 0;
    }

    /// Lets go what one owner holds. From the newest on, so that as few slots as can be change their places.
    pub fn wipe_owner(&mut self, owner: u32)
        ensures { self.new ≡ record self.old { list = filter (λ h. not (h.owner == owner)) self.old.list } }
    {
        let len = self.len();
        let mut at = self.held();
        for done in 0..len {
            let index = len - 1 - done;
            let run = self.run_at(index);
            at -= run.count;
            if run.owner == owner {
                self.drop_run(index, at);
            }
        }
    }

    /// The owners of what is held, rising, each once.
    pub fn owners(&self, alloc: Global) -> Result<Owners, Memory>
        ensures { IfOk result (λ owners. owners ≡ owners_of self.now.list) }
    {
        let mut owners = OwnerSet::new(alloc);
        let len = self.len();
        for back in 0..len {
            let owner = self.run_at(len - 1 - back).owner;
            owners.add(alloc, owner)?;
        }
        owners.rising(alloc)
    }

    /// How many pieces are held.
    fn len(&self) -> usize
        ensures { result ≡ length self.now.list }
    {
        self.runs.len()
    }

    /// The piece at a place.
    fn run_at(&self, index: usize) -> Run
        requires { index < length self.now.list }
        ensures owner { (d : HeldBlocks) → result.owner ≡ (slice_index_or self.now.list index d).owner }
        ensures count { (d : HeldBlocks) → result.count ≡ length (slice_index_or self.now.list index d).bytes / self.now.block }
    {
        self.runs[index]
    }

    /// Lets the piece at a place go, in front of which there are so many blocks.
    fn drop_run(&mut self, index: usize, at: u32)
        requires inside { index < length self.old.list }
        requires at { at ≡ held_blocks self.old.block (take index self.old.list) }
        ensures { self.new ≡ record self.old { list = take index self.old.list ++ drop (index + 1) self.old.list } }
    {
        let run = self.runs[index];
        self.slots.release(at, run.count, self.used);
        cut(&mut self.runs, index, run, 0, run.count);
        self.used -= run.count;
    }
}
