ghost use Rattle.std.specs.Prelude.{◌≡◌, ◌++◌, ◌∷◌, [], ◌≤◌, ◌+◌, ◌<◌, ◌^◌, ℕ, List, length, drop, Err, None, IfOk, IfErr, IsErrOf};
ghost use Rattle.target_frames.specs.declared.items.Item.{Item};
ghost use Rattle.target_frames.specs.declared.fault.FrameFault.TheVariants as faults;
ghost use Rattle.target_frames.specs.Frames.{Refused, Unfinished};
ghost use Rattle.target_frames.specs.State.{State, Follows, HasRoom, IsReading, unfinished, bytes_of};
ghost use Rattle.target_frames.specs.Splits.{Splits, passed, IsFieldOf};

use crate::fault::FrameFault;
use crate::items::Items;
use crate::splitting::{Split, cut};
use std::alloc::Global;
use std::marker::Model;
use std::mem;

/// A reader of the stream that targets are served over. It keeps the bytes of the item that isn't whole yet,
/// and nothing of those that it handed out.
#[derive(Debug, Drop)]
pub struct Frames {
    /// The number of targets, as soon as the opening told it.
    targets: Option<u8>,
    /// Where in the stream the unfinished item begins.
    at: u64,
    rest: Vec<u8>,
    /// Where in the stream the refused field begins, once there is one.
    refused: Option<u64>,
    /// The items before a refused field that nobody took yet.
    waiting: Items,
}

impl Model for Frames {
    ghost use Rattle.target_frames.specs.State.{State, end_of};

    ghost Value = { State };

    ghost view = { λ f. record { targets = f.targets; at = f.at; end = end_of f.refused f.rest.items; waiting = f.waiting } };
}

impl Frames {
    /// A reader of a stream of which nothing came yet. Takes no memory.
    pub fn new(alloc: Global) -> Frames
        ensures state { result ≡ record { targets = None; at = 0; end = Unfinished []; waiting = [] } }
        ensures follows { Follows [] [] result }
        ensures room { (n : ℕ) → n < 2 ^ 64 → HasRoom result n }
    {
        Frames {
            targets: None,
            at: 0,
            rest: Vec::new(alloc),
            refused: None,
            waiting: Items::new(alloc),
        }
    }

    /// Takes the next piece of the stream, and hands out the items that are whole now and weren't before. Once
    /// a field is refused, the same is answered to each further piece, and `take` has the items before it.
    pub fn feed(&mut self, alloc: Global, piece: &[u8]) -> Result<Items, FrameFault>
        requires { HasRoom self.old (length piece.now) }
        // However the stream was cut, the items that were handed out are those of the stream so far.
        ensures items { IfOk result (λ items. (stream : List ℕ) (given : List Item) → Follows stream given self.old → Follows (stream ++ piece.now) (given ++ items) self.new) }
        ensures reading { IfOk result (λ _. IsReading self.new) }

        // A field is refused where the stream so far has it and nothing before it is refused.
        ensures field { (byte : ℕ) → result ≡ Err (faults.Field byte) → self.new.end ≡ Refused byte }
        ensures refused { (byte : ℕ) → result ≡ Err (faults.Field byte) → (stream : List ℕ) (given : List Item) → Follows stream given self.old → Follows (stream ++ piece.now) given self.new }
        ensures again { (byte : ℕ) → self.old.end ≡ Refused byte → (result ≡ Err (faults.Field byte)) × (self.new ≡ self.old) }

        // As many bytes as came are fewer that may still come.
        ensures room { (n : ℕ) → HasRoom self.old (length piece.now + n) → HasRoom self.new n }

        // After want of memory nothing of the piece was taken.
        ensures memory { IsErrOf result FrameFault.Memory → self.new ≡ self.old }
    {
        if let Some(byte) = self.refused {
            return Err(FrameFault::Field { byte });
        }
        let before = self.rest.len();
        self.rest.extend_from_slice(piece)?;
        match cut(alloc, self.targets, self.rest.as_slice()) {
            Ok(split) => self.pass(split),
            Err(memory) => {
                self.rest.truncate(before);
                Err(memory.into())
            }
        }
    }

    /// The items before a refused field, once. Where no field is refused there are none.
    pub fn take(&mut self, alloc: Global) -> Items
        ensures items { result ≡ self.old.waiting }
        ensures rest { self.new ≡ record self.old { waiting = [] } }
        ensures follows { (stream : List ℕ) (given : List Item) → Follows stream given self.old → Follows stream (given ++ result) self.new }
    {
        mem::replace(&mut self.waiting, Items::new(alloc))
    }

    /// How many bytes came of an opening or a frame that isn't whole yet; none once a field is refused.
    pub fn rest(&self) -> u64
        ensures { result ≡ unfinished self.now.end }
    {
        match self.refused {
            Some(_) => 0,
            None => self.rest.len() as u64,
        }
    }

    /// Goes behind the items that the bytes were cut into: those behind them are kept, or a field of them is
    /// refused.
    fn pass(&mut self, split: Split) -> Result<Items, FrameFault>
        requires reading { IsReading self.old }
        requires room { HasRoom self.old 0 }
        requires split { Splits self.old.targets (bytes_of self.old.end) split }
        ensures state { self.new ≡ passed self.old split }
        ensures items { IfOk result (λ items. (split.wrong ≡ None) × (items ≡ split.items)) }
        ensures field { IfErr result (IsFieldOf self.old split) }
    {
        self.targets = split.targets;
        self.at += split.used as u64;
        match split.wrong {
            None => {
                drop_front(&mut self.rest, split.used);
                Ok(split.items)
            }
            Some(field) => {
                let byte = self.at + u64::from(field);
                self.refused = Some(byte);
                self.waiting = split.items;
                Err(FrameFault::Field { byte })
            }
        }
    }
}

/// Drops so many bytes from the front, without taking memory. Nothing moves where there are none to drop.
fn drop_front(bytes: &mut Vec<u8>, count: usize)
    requires { count ≤ length bytes.old.items }
    ensures { bytes.new.items ≡ drop count bytes.old.items }
{
    if count > 0 {
        let left = bytes.len() - count;
        bytes.copy_within(count.., 0);
        bytes.truncate(left);
    }
}
