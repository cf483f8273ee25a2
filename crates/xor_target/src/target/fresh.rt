//! Fresh disks.

ghost use Rattle.xor_target.specs.Befalls.{IsRenewed};

use super::Target;
use crate::answer::{Answer, GoneAt};
use array_journal::At;
use blocks_core::{Bytes, Memory};
use sector_media::Medium;
use std::alloc::Global;

impl<M: Medium + Drop> Target<M> {
    /// A fresh disk of zeros comes for a swap, with the first mode page; also where none was lost.
    pub fn fresh(&mut self, alloc: Global, call: u32, swap: At, stamp: u64) -> Answer
        ensures { IsRenewed M.NEVER_FAILS self.old call swap stamp result self.new }
    {
        match self.unit.renew(alloc, call, swap, stamp) {
            Ok(Ok(made)) => {
                self.page = self.first;
                Answer::Good {
                    bytes: Bytes::new(alloc),
                    made,
                }
            }
            Ok(Err(GoneAt { at, life })) => Answer::Gone {
                at,
                life,
                loss: None,
            },
            Err(Memory) => Answer::Memory,
        }
    }
}
