ghost use Rattle.std.specs.Prelude.{◌≡◌, ◌*◌, ◌<◌, ◌^◌, [], length, replicate, IfOk, OnOk};
ghost use Rattle.blocks_core.specs.Xor.{zeros};
ghost use Rattle.array_journal.specs.EntryLists.{lists_in};
ghost use Rattle.stripe_layout.specs.Layout.{IsArray, capacity_of, rows_of};
ghost use Rattle.xor_cli.specs.Inputs.{IsRunnable};
ghost use Rattle.xor_cli.specs.Headline.{IsJournalOf};
ghost use Rattle.xor_cli.specs.Tasks.{task_at as task_of_blocks};

use crate::array::book::Book;
use crate::array::controller::Controller;
use crate::array::target::Target;
use array_journal::{Entries, Journal, Kind, Setting, Task, merge};
use blocks_core::{Bytes, Memory};
use host_requests::setting_of;
use host_scripts::{Action, Call, Script};
use std::alloc::Global;
use stripe_layout::Geometry;

impl Controller {
    ghost use Rattle.xor_cli.specs.Arrays.{array_of, lists_of, IsKept};
    ghost use Rattle.xor_cli.specs.Rest.{IsAtRest};
    ghost use Rattle.xor_cli.specs.Headline.{IsStart};
    ghost use Rattle.xor_cli.specs.Tasks.{CanServe, HasServed};

    /// An array of zeros in which nothing happened yet.
    pub fn start(alloc: Global, setting: Setting) -> Result<Controller, Memory>
        requires { IsStart setting }
        ensures kept { IfOk result (λ c. IsKept c) }
        ensures rest { IfOk result (λ c. IsAtRest (array_of c)) }
        ensures setting { IfOk result (λ c. c.setting ≡ setting) }
        ensures empty { IfOk result (λ c. (array_of c).journal ≡ []) }
    {
        let targets = blank_targets(alloc, &setting.geometry)?;
        Ok(Controller {
            setting,
            book: Book::new(alloc),
            targets,
            stamp: 0,
        })
    }

    /// Serves one call of one piece, which has this number among the calls.
    pub fn serve(&mut self, alloc: Global, number: u32, call: &Call) -> Result<(), Memory>
        requires kept { IsKept self.old }
        requires rest { IsAtRest (array_of self.old) }
        requires action { CanServe self.old.setting number call.now.action }
        ensures kept { OnOk result (IsKept self.new) }
        ensures served { OnOk result (HasServed (array_of self.old) (array_of self.new) number call.now.action) }
    {
        let geometry = &self.setting.geometry;
        match &call.action {
            Action::Read { lba, count } => {
                let count = u32::from(*count);
                let task = task_at(
                    &geometry,
                    number,
                    Kind::Read,
                    *lba,
                    count,
                    Bytes::new(alloc),
                );
                self.read(alloc, task)
            }
            Action::Write { lba, bytes } => {
                let count = (bytes.len() / geometry.block as usize) as u32;
                let bytes = bytes.copy(alloc)?;
                let task = task_at(geometry, number, Kind::Update, *lba, count, bytes);
                self.update(alloc, task)
            }
            // `first_later` refused every other action before the run began.
            _ => unreachable!(),
        }
    }

    /// The lists of entries in the order of their locks: the book's, and each target's.
    fn into_lists(self, alloc: Global) -> Result<Vec<Entries>, Memory>
        ensures { IfOk result (λ lists. lists_in lists.items ≡ lists_of self) }
    {
        let Controller {
            setting: _,
            book,
            targets,
            stamp: _,
        } = self;
        let Book {
            commands: _,
            entries,
        } = book;
        let mut lists = Vec::new(alloc);
        lists.push(entries.into_entries())?;
        for target in targets {
            lists.push(target.into_entries())?;
        }
        Ok(lists)
    }

    /// The journal of all that happened: the entries of all locks, in the order of their stamps.
    pub fn into_journal(self, alloc: Global) -> Result<Journal, Memory>
        requires kept { IsKept self }
        ensures { IfOk result (λ journal. journal ≡ (array_of self).journal) }
    {
        let lists = self.into_lists(alloc)?;
        let journal = merge(alloc, lists)?;
        Ok(journal)
    }
}

/// Targets of zeros, as many as the array has.
fn blank_targets(alloc: Global, geometry: &Geometry) -> Result<Vec<Target>, Memory>
    requires { IsArray geometry.now }
    ensures { IfOk result (λ v. v.items ≡ replicate geometry.now.targets (record {
      disk = record { medium = zeros (rows_of geometry.now * geometry.now.block); held = [] };
      entries = [];
    })) }
{
    let size = geometry.rows() as usize * geometry.block as usize;
    let mut targets = Vec::new(alloc);
    for _ in 0..geometry.targets {
        targets.push(Target::new(alloc, size)?)?;
    }
    Ok(targets)
}

/// The task of blocks of one unit.
fn task_at(geometry: &Geometry, number: u32, kind: Kind, lba: u32, count: u32, bytes: Bytes) -> Task
    requires array { IsArray geometry.now }
    requires in_range { lba < capacity_of geometry.now }
    ensures { result ≡ task_of_blocks geometry.now number kind lba count bytes }
{
    let place = geometry.place(lba);
    Task {
        call: number,
        piece: 0,
        kind,
        stripe: place.stripe,
        target: place.target,
        parity: place.parity,
        row: place.row,
        count,
        bytes,
    }
}

/// Runs a script: each call is served in its turn.
pub fn run(alloc: Global, script: &Script) -> Result<Journal, Memory>
    requires runnable { IsRunnable script.now }
    requires fewer { length script.now.calls < 2 ^ 32 }
    ensures { IfOk result (λ journal. IsJournalOf script.now journal) }
{
    let mut controller = Controller::start(alloc, setting_of(script))?;
    for (place, call) in script.calls.as_slice().iter().enumerate() {
        controller.serve(alloc, place as u32 + 1, call)?;
    }
    let journal = controller.into_journal(alloc)?;
    Ok(journal)
}
