//! What a REBUILD or REGENERATE gathers from other targets (SBC).

ghost use Rattle.std.specs.Prelude.{◌≡◌, ◌<◌, ◌≤◌, ◌+◌, ◌&&◌, nat_lt, length, IfOk, MatchOption, None, Some, slice_get};
ghost use Rattle.sbc_cdbs.specs.Cdbs.{cdb_bytes};
ghost use Rattle.regen_rebuild.specs.Gatherings.{accepted_one, size};
ghost use Rattle.xor_target.specs.Admission.{count_of};
ghost use Rattle.xor_params.specs.Contents.{HasRoom};
ghost use Rattle.xor_target.specs.Waits.{sets_aside, row_aside, count_aside};
ghost use Rattle.xor_target.specs.Gathers.{IsFirst, accepted, done_order, read_request};

use crate::admission::Admitted;
use crate::names::joined;
use crate::order::{Order, PeerRequest};
use array_journal::Names;
use blocks_core::{Bytes, Memory, XorSum};
use regen_rebuild::Gather;
use sbc_cdbs::{Command, encode};
use std::alloc::Global;
use std::marker::Model;
use xor_params::{Descriptor, Descriptors, intermediate_in, sources_in};

/// A gathering under way: its order, with the intermediate data in place of the list; the order's command and
/// CDB; the sources in the order of the list, how many of these have answered, and the exclusive-or of their
/// blocks.
#[derive(Drop)]
pub struct Gathering {
    order: Order,
    admitted: Admitted,
    sources: Descriptors,
    answered: usize,
    gather: Gather,
}

impl Model for Gathering {
    ghost use Rattle.xor_target.specs.Gathers.{GatheringState, AwaitsRest};

    ghost Value = { GatheringState };

    ghost view = { λ g. record { order = g.order; admitted = g.admitted; sources = g.sources; answered = g.answered; gather = g.gather } };

    ghost invariant = { λ g. AwaitsRest g.answered g.sources g.gather };
}

impl Gathering {
    /// The gathering of an order with a sound list, over blocks of this size; no source has answered yet.
    pub fn new(
        alloc: Global,
        order: &Order,
        admitted: &Admitted,
        block: u32,
    ) -> Result<Gathering, Memory>
        requires list { HasRoom order.now.bytes }
        requires sent { cdb_bytes admitted.now.cdb ≡ order.now.cdb }
        ensures { IfOk result (IsFirst block order.now admitted.now.command) }
    {
        let list = order.bytes.as_slice();
        let sources = sources_in(alloc, list)?;
        let count = admitted.command.block_count().unwrap_or(0);
        let gather = Gather::new(alloc, block, count, list[0])?;
        Ok(Gathering {
            order: Order {
                owner: order.owner,
                opened: order.opened,
                names: order.names.copy(alloc)?,
                stamp: order.stamp,
                cdb: order.cdb.copy(alloc)?,
                bytes: Bytes::from_slice(alloc, intermediate_in(list))?,
            },
            admitted: *admitted,
            sources,
            answered: 0,
            gather,
        })
    }

    /// The order's command and CDB.
    pub fn admitted(&self) -> Admitted
        ensures { result ≡ self.now.admitted }
    {
        self.admitted
    }

    /// The first source, which is asked first.
    pub fn first(&self) -> Option<Descriptor>
        ensures { result ≡ slice_get self.now.sources 0 }
    {
        self.source(0)
    }

    /// The source after the one that is asked.
    pub fn next(&self) -> Option<Descriptor>
        ensures { result ≡ slice_get self.now.sources (self.now.answered + 1) }
    {
        self.source(self.answered + 1)
    }

    fn source(&self, place: usize) -> Option<Descriptor>
        ensures { result ≡ slice_get self.now.sources place }
    {
        match self.sources.get(place) {
            Some(source) => Some(*source),
            None => None,
        }
    }

    /// How many blocks the command will hold, which are set aside until then.
    pub fn kept_count(&self) -> u32
        ensures { result ≡ count_aside (Some self.now) }
    {
        if self.admitted.command.is_kept() {
            self.admitted.command.block_count().unwrap_or(0)
        } else {
            0
        }
    }

    /// Whether one of these rows is among those that the command will hold.
    pub fn keeps(&self, row: u32, count: u32) -> bool
        ensures { result ≡ (sets_aside (Some self.now) && (nat_lt (row_aside (Some self.now)) (row + count) && nat_lt row (row_aside (Some self.now) + count_aside (Some self.now)))) }
    {
        let first = u64::from(self.admitted.command.first_block().unwrap_or(0));
        let end = first + u64::from(self.kept_count());
        let row = u64::from(row);
        let touches = first < row + u64::from(count) && row < end;
        self.admitted.command.is_kept() && touches
    }

    /// The request that a source's blocks be read. `stamp` is the greatest that this target has seen.
    pub fn request(
        &self,
        alloc: Global,
        source: Descriptor,
        from: u8,
        stamp: u64,
    ) -> Result<PeerRequest, Memory>
        requires { count_of self.now.admitted.command ≤ 65535 }
        ensures { IfOk result (λ r. r ≡ read_request from stamp self.now source) }
    {
        let count = self.admitted.command.block_count().unwrap_or(0);
        let read = encode(&Command::Read {
            dpo: false,
            fua: false,
            lba: source.lba,
            length: count as u16,
        });
        Ok(PeerRequest {
            from,
            to: source.target,
            order: Order {
                owner: self.order.owner,
                opened: self.order.opened,
                names: Names::new(alloc),
                stamp,
                cdb: Bytes::from_slice(alloc, read.as_slice())?,
                bytes: Bytes::new(alloc),
            },
        })
    }

    /// Takes the blocks of the source that is asked, without taking memory.
    pub fn accept(&mut self, bytes: &[u8])
        requires asked { self.old.answered < length self.old.sources }
        requires size { length bytes.now ≡ size self.old.gather }
        ensures { self.new ≡ accepted self.old bytes.now }
    {
        self.gather.accept(self.answered as u8, bytes).unwrap();
        self.answered += 1;
    }

    /// The order with the exclusive-or of all: the sources that have answered, the blocks of the last one, and
    /// the intermediate data. Behind its own names it has those of the entries that the sources were read by:
    /// whoever judges the journal asks where the blocks come from.
    pub fn done_order(
        &self,
        alloc: Global,
        made: &Names,
        last: &[u8],
        stamp: u64,
    ) -> Result<Order, Memory>
        ensures { IfOk result (λ order. order ≡ done_order self.now made.now last.now stamp) }
    {
        let mut sum = XorSum::new(alloc, self.gather.sum().len())?;
        sum.add(self.gather.sum())?;
        sum.add(last)?;
        sum.add(self.order.bytes.as_slice())?;
        Ok(Order {
            owner: self.order.owner,
            opened: self.order.opened,
            names: joined(alloc, &self.order.names, made)?,
            stamp,
            cdb: self.order.cdb.copy(alloc)?,
            bytes: sum.into_bytes(),
        })
    }
}
