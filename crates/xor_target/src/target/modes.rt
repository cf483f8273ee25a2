//! MODE SENSE(10) and MODE SELECT(10) (SPC).

ghost use Rattle.std.specs.Prelude.{◌≡◌, ◌≤◌, ◌++◌, None, IfOk};
ghost use Rattle.xor_mode_page.specs.Pages.{list_fault, sense_header, spelling};
ghost use Rattle.xor_target.specs.Answers.{IsSensed, IsSelected, page_shown};

use super::Target;
use crate::answer::Answer;
use crate::order::Order;
use array_journal::Names;
use blocks_core::{Bytes, Memory};
use sector_media::Medium;
use std::alloc::Global;
use xor_mode_page::{select, sense};

/// The page control that asks for the first page.
const FIRST: u8 = 2;

impl<M: Medium + Drop> Target<M> {
    /// MODE SENSE: the header and a page, cut to the allocation length.
    pub(super) fn mode_sense(
        &self,
        alloc: Global,
        pc: u8,
        allocation: u16,
    ) -> Result<Answer, Memory>
        requires { pc ≤ 2 }
        ensures { IfOk result (λ answer. IsSensed self.now pc allocation answer self.now) }
    {
        let bytes = self.page_bytes(pc);
        let len = bytes.len().min(usize::from(allocation));
        Ok(Answer::Good {
            bytes: Bytes::from_slice(alloc, &bytes[..len])?,
            made: Names::new(alloc),
        })
    }

    /// The header and the page that a page control asks for.
    fn page_bytes(&self, pc: u8) -> [u8; 32]
        requires { pc ≤ 2 }
        ensures { result ≡ sense_header ++ spelling (page_shown self.now pc) }
    {
        if pc == FIRST {
            sense(&self.first, pc)
        } else {
            sense(&self.page, pc)
        }
    }

    /// MODE SELECT: sets the page by a list that was found sound.
    pub(super) fn mode_select(&mut self, alloc: Global, order: &Order) -> Answer
        requires { list_fault order.now.bytes ≡ None }
        ensures { IsSelected self.old order.now result self.new }
    {
        select(&mut self.page, order.bytes.as_slice()).unwrap();
        Answer::Good {
            bytes: Bytes::new(alloc),
            made: Names::new(alloc),
        }
    }
}
