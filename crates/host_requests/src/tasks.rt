//! The task of a piece.

ghost use Rattle.std.specs.Prelude.{◌≡◌, ◌↔◌, ◌&&◌, IsTrue, IfOk};
ghost use Rattle.stripe_layout.specs.Layout.{IsArray};
ghost use Rattle.host_requests.specs.Begins.{task_of_piece};
ghost use Rattle.host_requests.specs.Forms.{aim_as};
ghost use Rattle.host_requests.specs.Tasks.{same_places};

use crate::aims::Aim;
use array_journal::{Kind, Task};
use blocks_core::Memory;
use std::alloc::Global;
use stripe_layout::Geometry;

impl<'a> Aim<'a> {
    /// The task by which a command of this kind serves the aim, for a piece of a call. Takes memory for a
    /// copy of its bytes.
    pub fn task(
        self,
        alloc: Global,
        geometry: &Geometry,
        call: u32,
        piece: u32,
        kind: Kind,
    ) -> Result<Task, Memory>
        requires { IsArray geometry.now }
        ensures { IfOk result (λ task. task ≡ task_of_piece geometry.now call piece (aim_as self.entry) kind) }
    {
        let bytes = self.bytes.copy(alloc)?;
        Ok(self.rows.task(geometry, call, piece, kind, bytes))
    }

    /// Whether a task is the one that a command of this kind serves the aim by.
    pub fn is_task(self, geometry: &Geometry, kind: Kind, task: &Task) -> bool
        requires { IsArray geometry.now }
        ensures { IsTrue result ↔ (task_of_piece geometry.now task.now.call task.now.piece (aim_as self.entry) kind ≡ task.now) }
    {
        let same_kind = is_same_kind(kind, task.kind);
        let parity = geometry.parity(self.rows.stripe);
        let places = self.has_places(parity, task);
        let bytes = self.bytes.is(task.bytes.as_slice());
        both(both(same_kind, places), bytes)
    }

    fn has_places(self, parity: u8, task: &Task) -> bool
        ensures { result ≡ same_places (aim_as self.entry) parity task.now }
    {
        self.rows.stripe == task.stripe
            && self.rows.target == task.target
            && parity == task.parity
            && self.rows.row == task.row
            && self.rows.count == task.count
    }
}

fn is_same_kind(a: Kind, b: Kind) -> bool
    ensures { IsTrue result ↔ (a ≡ b) }
{
    a == b
}

fn both(a: bool, b: bool) -> bool
    ensures { result ≡ (a && b) }
{
    a && b
}
