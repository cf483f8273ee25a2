//! The list of what a buffer holds.

ghost use Rattle.std.specs.Prelude.{◌≡◌, ◌==◌, ◌≤◌, ◌<◌, ◌++◌, [], ◌∷◌, not, filter, List, MatchOption, OnOk, OnErr, IfOk, length, get_or, option_map, None, Some};
ghost use Rattle.xor_buffers.specs.declared.held.HeldBlocks.{HeldBlocks};
ghost use Rattle.xor_buffers.specs.Held.{take_rows, rows_held, owners_of};
ghost use Rattle.xor_buffers.specs.Steps.{left_of, rows_in};

use crate::held::{HeldBlocks, Rows, place_in, push_rest};
use crate::owners::OwnerSet;
use blocks_core::{Bytes, Memory, Owners};
use std::alloc::Global;
use std::marker::Model;

/// What a buffer holds, the oldest first.
#[derive(Debug, Drop)]
pub struct HeldList {
    kept: Vec<HeldBlocks>,
}

impl Model for HeldList {
    ghost use Rattle.std.specs.Prelude.{List};
    ghost use Rattle.xor_buffers.specs.declared.held.HeldBlocks.{HeldBlocks};

    ghost Value = { List HeldBlocks };

    ghost view = { λ l. l.kept.items };
}

/// The held blocks without rows, which are taken from the first that contain them.
fn without_rows(alloc: Global, kept: Vec<HeldBlocks>, rows: Rows) -> Result<Vec<HeldBlocks>, Memory>
    requires { 1 ≤ rows.block }
    ensures { IfOk result (λ left. left.items ≡ take_rows rows.block rows.row rows.len kept.items) }
{
    let mut left = Vec::new(alloc);
    let mut taken = false;
    for held in kept {
        taken = keep_rest(alloc, &mut left, held, rows, taken)?;
    }
    Ok(left)
}

/// Keeps held blocks, or what is left of them where rows are first taken out. Whether they were.
fn keep_rest(
    alloc: Global,
    left: &mut Vec<HeldBlocks>,
    held: HeldBlocks,
    rows: Rows,
    taken: bool,
) -> Result<bool, Memory>
    requires { 1 ≤ rows.block }
    ensures { IfOk result (λ now. (others : List HeldBlocks) → left.new.items ++ left_of now rows.block rows.row rows.len others
        ≡ left.old.items ++ left_of taken rows.block rows.row rows.len (held ∷ others)) }
{
    if taken {
        left.push(held)?;
        return Ok(true);
    }
    match place_in(&held, rows) {
        Some(start) => {
            push_rest(alloc, left, &held, rows, start)?;
            Ok(true)
        }
        None => {
            left.push(held)?;
            Ok(false)
        }
    }
}

/// The rows in held blocks, if a command holds them there.
fn rows_in(held: &HeldBlocks, owner: u32, rows: Rows) -> Option<&[u8]>
    ensures { option_map (λ bytes. bytes.now) result ≡ rows_in rows.block owner rows.row rows.len held.now }
{
    if held.owner != owner {
        return None;
    }
    match place_in(held, rows) {
        Some(start) => Some(&held.bytes.as_slice()[start..start + rows.len]),
        None => None,
    }
}

impl HeldList {
    /// Nothing held. Takes no memory.
    pub fn new(alloc: Global) -> HeldList
        ensures { result ≡ [] }
    {
        HeldList {
            kept: Vec::new(alloc),
        }
    }

    /// Holds more blocks, behind the others.
    pub fn hold(&mut self, owner: u32, row: u32, bytes: Bytes) -> Result<(), Memory>
        ensures ok { OnOk result (self.new ≡ self.old ++ record { owner = owner; row = row; bytes = bytes } ∷ []) }
        ensures err { OnErr result (self.new ≡ self.old) }
    {
        self.kept.push(HeldBlocks {
            owner,
            row: u64::from(row),
            bytes,
        })?;
        Ok(())
    }

    /// Lets go all that is held, as a reset or a loss does.
    pub fn wipe(&mut self)
        ensures { self.new ≡ [] }
    {
        self.kept.clear();
    }

    /// Lets go what one command holds.
    pub fn wipe_owner(&mut self, owner: u32)
        ensures { self.new ≡ filter (λ h. not (h.owner == owner)) self.old }
    {
        self.kept.retain(|held| held.owner != owner);
    }

    /// Takes rows out of the first held blocks that contain them; what these hold before and behind the
    /// rows stays, as one or two rests. After want of memory nothing is held any more.
    pub fn take(&mut self, alloc: Global, rows: Rows) -> Result<(), Memory>
        requires { 1 ≤ rows.block }
        ensures ok { OnOk result (self.new ≡ take_rows rows.block rows.row rows.len self.old) }
        ensures err { OnErr result (self.new ≡ []) }
    {
        let kept = std::mem::replace(&mut self.kept, Vec::new(alloc));
        self.kept = without_rows(alloc, kept, rows)?;
        Ok(())
    }

    /// The rows as a command holds them, if it holds them in one piece.
    pub fn rows_of(&self, owner: u32, rows: Rows) -> Option<&[u8]>
        ensures { MatchOption result (rows_held rows.block owner rows.row rows.len self.now ≡ None) (λ bytes. rows_held rows.block owner rows.row rows.len self.now ≡ Some bytes.now) }
    {
        for held in &self.kept {
            if let Some(bytes) = rows_in(held, owner, rows) {
                return Some(bytes);
            }
        }
        None
    }

    /// How many held blocks there are.
    fn count(&self) -> usize
        ensures { result ≡ length self.now }
    {
        self.kept.len()
    }

    /// The owner of the held blocks at a place.
    fn owner_at(&self, place: usize) -> u32
        requires { place < length self.now }
        ensures { (d : HeldBlocks) → result ≡ (get_or self.now place d).owner }
    {
        self.kept[place].owner
    }

    /// The owners of the held blocks, rising, each once.
    pub fn owners(&self, alloc: Global) -> Result<Owners, Memory>
        ensures { IfOk result (λ owners. owners ≡ owners_of self.now) }
    {
        let mut owners = OwnerSet::new(alloc);
        let len = self.count();
        for done in 0..len {
            let owner = self.owner_at(len - 1 - done);
            owners.add(alloc, owner)?;
        }
        owners.rising(alloc)
    }
}
