//! A command at work: what it needs, what it is about, and what stops it.

ghost use Rattle.std.specs.Prelude.{◌≡◌, ◌*◌, IfOk, IfErr, length};

use crate::order::Order;
use array_journal::Names;
use blocks_core::{Memory, Owners};
use outer_io::Failed;
use sbc_cdbs::Cdb;
use std::alloc::Global;

/// What the entry of a command needs, or that of a loss in its place, taken before the medium is touched:
/// its stamp and its name, and the owners that a loss would name.
#[derive(Debug, Drop)]
pub struct Prepared {
    pub stamp: u64,
    pub made: Names,
    pub owners: Owners,
}

/// The rows that a command is about, its CDB, and the stamp of its entry.
#[derive(Clone, Copy, Debug)]
pub struct BlockAct {
    pub cdb: Cdb,
    pub row: u32,
    pub count: u32,
    pub stamp: u64,
}

/// What stops a command: want of memory, before it touched the medium, or a failure of the medium.
#[derive(Clone, Copy, Debug, PartialEq, Eq)]
pub enum ActStop {
    Memory,
    Failed,
}

impl From<Memory> for ActStop {
    ghost use Rattle.std.specs.Prelude.{◌≡◌};
    ghost use Rattle.xor_target.specs.declared.act.ActStop.TheVariants as stops;

    ghost from_gives = { λ _ stop. stop ≡ stops.Memory };

    fn from(_error: Memory) -> ActStop {
        ActStop::Memory
    }
}

impl From<Failed> for ActStop {
    ghost use Rattle.std.specs.Prelude.{◌≡◌};
    ghost use Rattle.xor_target.specs.declared.act.ActStop.TheVariants as stops;

    ghost from_gives = { λ _ stop. stop ≡ stops.Failed };

    fn from(_error: Failed) -> ActStop {
        ActStop::Failed
    }
}

/// What a command writes down and works with, taken before it touches the medium: the names that its entry
/// has, the bytes that it has, and room for its rows.
#[derive(Debug, Drop)]
pub struct Workspace {
    pub names: Names,
    pub kept: Vec<u8>,
    pub rows: Vec<u8>,
}

impl Workspace {
    /// For an entry that has the bytes of the order, with room for so many bytes of rows.
    pub fn of_data(alloc: Global, order: &Order, len: usize) -> Result<Workspace, Memory>
        ensures names { IfOk result (λ workspace. workspace.names ≡ order.now.names) }
        ensures kept { IfOk result (λ workspace. workspace.kept.items ≡ order.now.bytes) }
        ensures rows { IfOk result (λ workspace. length workspace.rows.items ≡ len) }
    {
        Ok(Workspace {
            names: order.names.copy(alloc)?,
            kept: Vec::from_slice(alloc, order.bytes.as_slice())?,
            rows: blank(alloc, len)?,
        })
    }

    /// For an entry that has so many bytes of rows.
    pub fn of_rows(alloc: Global, order: &Order, len: usize) -> Result<Workspace, Memory>
        ensures names { IfOk result (λ workspace. workspace.names ≡ order.now.names) }
        ensures kept { IfOk result (λ workspace. length workspace.kept.items ≡ len) }
        ensures rows { IfOk result (λ workspace. length workspace.rows.items ≡ len) }
    {
        Ok(Workspace {
            names: order.names.copy(alloc)?,
            kept: blank(alloc, len)?,
            rows: blank(alloc, len)?,
        })
    }
}

/// How many bytes some blocks have.
pub fn byte_count(count: u32, block: u32) -> usize
    ensures { result ≡ count * block }
{
    count as usize * block as usize
}

/// So many zero bytes.
pub fn blank(alloc: Global, len: usize) -> Result<Vec<u8>, Memory>
    ensures { IfOk result (λ bytes. length bytes.items ≡ len) }
{
    Ok(vec![in alloc; 0u8; len]?)
}
