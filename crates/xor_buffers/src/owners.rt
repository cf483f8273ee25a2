//! Owners, rising, each once.

ghost use Rattle.std.specs.Prelude.{◌≡◌, ◌<◌, ◌++◌, ◌∷◌, [], List, ℕ, Some, IfOk, OnOk};
ghost use Rattle.xor_buffers.specs.Held.{with_owner};
ghost use Rattle.xor_buffers.specs.Steps.{put_in, lowest_of};

use blocks_core::{Memory, Owners};
use std::alloc::Global;
use std::marker::Model;

/// Owners, rising, each once, to which more are added. They are kept falling, so that one below all others,
/// as each is where owners rise and are gone through from the last on, goes to the end in one step.
#[derive(Debug, Drop)]
pub struct OwnerSet {
    falling: Vec<u32>,
    lowest: Option<u32>,
}

impl Model for OwnerSet {
    ghost use Rattle.std.specs.Prelude.{◌≡◌, List, ℕ, reverse};
    ghost use Rattle.xor_buffers.specs.Steps.{lowest_of};

    ghost Value = { List ℕ };

    ghost view = { λ o. reverse o.falling.items };

    ghost invariant = { λ o. o.lowest ≡ lowest_of (reverse o.falling.items) };
}

impl OwnerSet {
    /// No owners. Takes no memory.
    pub fn new(alloc: Global) -> OwnerSet
        ensures { result ≡ [] }
    {
        OwnerSet {
            falling: Vec::new(alloc),
            lowest: None,
        }
    }

    /// One more, unless it is there.
    pub fn add(&mut self, alloc: Global, owner: u32) -> Result<(), Memory>
        ensures { OnOk result (self.new ≡ with_owner owner self.old) }
    {
        match self.lowest {
            Some(lowest) if lowest == owner => Ok(()),
            Some(lowest) if lowest < owner => self.insert(alloc, lowest, owner),
            _ => {
                self.falling.push(owner)?;
                self.lowest = Some(owner);
                Ok(())
            }
        }
    }

    /// One more, which isn't the lowest.
    fn insert(&mut self, alloc: Global, lowest: u32, owner: u32) -> Result<(), Memory>
        requires found { lowest_of self.old ≡ Some lowest }
        requires above { lowest < owner }
        ensures { OnOk result (self.new ≡ with_owner owner self.old) }
    {
        let mut kept = self.rising(alloc)?;
        kept = with_owner(alloc, &kept, owner)?;
        let mut falling = Vec::from_slice(alloc, kept.as_slice())?;
        falling.reverse();
        self.falling = falling;
        Ok(())
    }

    /// The owners.
    pub fn rising(&self, alloc: Global) -> Result<Owners, Memory>
        ensures { IfOk result (λ owners. owners ≡ self.now) }
    {
        let mut rising = Vec::from_slice(alloc, self.falling.as_slice())?;
        rising.reverse();
        let mut owners = Owners::new(alloc);
        for owner in rising {
            owners.push(owner)?;
        }
        Ok(owners)
    }
}

/// Keeps a number of a rising list, and before it one more, if that is smaller and wasn't put yet.
/// Whether it is there now.
fn keep_owner(left: &mut Owners, number: u32, owner: u32, done: bool) -> Result<bool, Memory>
    ensures { IfOk result (λ now. (others : List ℕ) → left.new ++ put_in now owner others ≡ left.old ++ put_in done owner (number ∷ others)) }
{
    let before = !done && owner < number;
    if before {
        left.push(owner)?;
    }
    left.push(number)?;
    Ok(done || before || owner == number)
}

/// Rising numbers with one more, once.
fn with_owner(alloc: Global, owners: &Owners, owner: u32) -> Result<Owners, Memory>
    ensures { IfOk result (λ all. all ≡ with_owner owner owners.now) }
{
    let mut left = Owners::new(alloc);
    let mut done = false;
    for number in owners.as_slice() {
        done = keep_owner(&mut left, *number, owner, done)?;
    }
    if !done {
        left.push(owner)?;
    }
    Ok(left)
}
