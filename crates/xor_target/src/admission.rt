//! What a target refuses before it looks at its own state: one table, row by row (SBC, the XOR commands; SPC,
//! the MODE commands).

ghost use Rattle.std.specs.Prelude.{◌≡◌, ◌≤◌, ◌+◌, length, Some, None, IfOk, IfErr};
ghost use Rattle.sense_data.specs.Illegal.{illegal, in_cdb};
ghost use Rattle.sbc_cdbs.specs.Cdbs.{SpellsCdb, cdb_bytes};
ghost use Rattle.xor_target.specs.Admission.{first_some, command_in, row_of, count_of, maximum_of, is_over, too_long, wrong_secondary, wrong_select, saved_values, unknown_page, out_of_range, data_due, wrong_amount, wrong_list, cdb_rows, command_rows, refusal_of, AsksForKept, HasSoundList};
ghost use Rattle.xor_target.specs.Codes.{is_shut_out, fault_sense};

mod lists;

use crate::limits::TargetLimits;
use lists::wrong_list;
use sbc_cdbs::{Cdb, CdbFault, Command, decode, encode, is_xor_code};
use sense_data::{Pointer, Sense};
use xor_mode_page::XorPage;

/// A command that a target may look at its own state for, and the CDB that it came as.
#[derive(Clone, Copy, Debug, PartialEq, Eq)]
pub struct Admitted {
    pub command: Command,
    pub cdb: Cdb,
}

/// No command may have more blocks, since the CDB of a request to another target has 16 bits for them.
const MOST_BLOCKS: u32 = 65535;

/// Additional sense codes of the key ILLEGAL REQUEST (SPC).
const PARAMETER_LIST_LENGTH: u8 = 0x1a;

const OPERATION_CODE: u8 = 0x20;

const BLOCK_RANGE: u8 = 0x21;

const FIELD_IN_CDB: u8 = 0x24;

const SAVING: u8 = 0x39;

/// The command of a CDB that came with these bytes, or the sense of the first row of the table that refuses
/// it. What it asks of the target's state isn't looked at. No memory is taken.
pub fn admit(
    limits: &TargetLimits,
    page: &XorPage,
    cdb: &[u8],
    bytes: &[u8],
) -> Result<Admitted, Sense>
    // What is admitted is refused by no row, and what is refused, by this one first.
    ensures admitted { IfOk result (λ _. refusal_of limits.now page.now cdb.now bytes.now ≡ None) }
    ensures refused { IfErr result (λ sense. refusal_of limits.now page.now cdb.now bytes.now ≡ Some sense) }
    ensures decoded { IfOk result (λ a. SpellsCdb cdb.now a.command) }
    ensures fields { IfOk result (λ a. a.command ≡ command_in cdb.now) }
    ensures same { IfOk result (λ a. cdb_bytes a.cdb ≡ cdb.now) }
    ensures counted { IfOk result (λ a. count_of a.command ≤ 65535) }
    ensures in_range { IfOk result (λ a. row_of a.command + count_of a.command ≤ limits.now.rows) }
    ensures due { IfOk result (λ a. length bytes.now ≡ data_due limits.now.block a.command) }
    ensures kept { IfOk result (λ a. AsksForKept a.command) }
    ensures listed { IfOk result (λ a. HasSoundList limits.now a.command bytes.now) }
{
    let command = decoded(page, cdb)?;
    match command_refusal(limits, page, &command, bytes) {
        Some(sense) => Err(sense),
        None => Ok(Admitted {
            command,
            cdb: encode(&command),
        }),
    }
}

// ---- the rows that a CDB decides alone

/// The command that a CDB spells, or the sense of the first row that refuses it by its bytes alone.
fn decoded(page: &XorPage, cdb: &[u8]) -> Result<Command, Sense>
    ensures spelt { IfOk result (SpellsCdb cdb.now) }
    ensures passes { IfOk result (λ _. first_some (cdb_rows page.now cdb.now) ≡ None) }
    ensures refused { IfErr result (λ sense. first_some (cdb_rows page.now cdb.now) ≡ Some sense) }
{
    // Before the decoder, which would find a wrong length first.
    if is_shut_out(page, cdb) {
        return Err(Sense::illegal(OPERATION_CODE, 0, None));
    }
    match decode(cdb) {
        Ok(command) => Ok(command),
        Err(fault) => Err(fault_sense(fault)),
    }
}

/// Whether the operation code is that of an XOR command while the page forbids these (XORDIS).
fn is_shut_out(page: &XorPage, cdb: &[u8]) -> bool
    ensures { result ≡ is_shut_out page.now cdb.now }
{
    match cdb {
        [] => false,
        [code, ..] => page.xordis && is_xor_code(*code),
    }
}

fn fault_sense(fault: CdbFault) -> Sense
    ensures { result ≡ fault_sense fault }
{
    match fault {
        CdbFault::OpCode { .. } => Sense::illegal(OPERATION_CODE, 0, None),
        CdbFault::Length { .. } => Sense::illegal(FIELD_IN_CDB, 0, None),
        CdbFault::Bits { byte } => wrong_field(byte),
    }
}

/// INVALID FIELD IN CDB, with a pointer at the field's first byte.
fn wrong_field(byte: u16) -> Sense
    ensures { result ≡ illegal 0x24 0 (Some (in_cdb byte)) }
{
    Sense::illegal(FIELD_IN_CDB, 0, Some(Pointer::in_cdb(byte)))
}

// ---- the rows that ask for the command's fields

/// The sense of the first row that refuses a command by its fields or by the bytes that came with it.
fn command_refusal(
    limits: &TargetLimits,
    page: &XorPage,
    command: &Command,
    bytes: &[u8],
) -> Option<Sense>
    ensures { result ≡ first_some (command_rows limits.now page.now command.now bytes.now) }
{
    first_some(&[
        too_long(page, command),
        wrong_secondary(limits, command),
        wrong_select(command),
        saved_values(command),
        unknown_page(command),
        out_of_range(limits, command),
        wrong_amount(limits, command, bytes),
        wrong_list(limits, page, command, bytes),
    ])
}

fn first_some(rows: &[Option<Sense>]) -> Option<Sense>
    ensures { result ≡ first_some rows.now }
{
    for row in rows {
        if row.is_some() {
            return *row;
        }
    }
    None
}

/// More blocks than the page allows the command, or than any command may have.
fn too_long(page: &XorPage, command: &Command) -> Option<Sense>
    ensures { result ≡ too_long page.now command.now }
{
    let (Some(count), Some(byte)) = (command.block_count(), command.count_place()) else {
        return None;
    };
    if is_over(maximum_of(page, command), count) || count > MOST_BLOCKS {
        Some(wrong_field(byte))
    } else {
        None
    }
}

/// The most blocks of a command by the page; zero is no maximum.
fn maximum_of(page: &XorPage, command: &Command) -> u32
    ensures { result ≡ maximum_of page.now command.now }
{
    match command {
        Command::XdWrite { .. }
        | Command::XpWrite { .. }
        | Command::XdWriteRead { .. }
        | Command::XdWriteExtended { .. } => page.max_write,
        Command::Rebuild { .. } => page.max_rebuild,
        Command::Regenerate { .. } => page.max_regenerate,
        Command::Read { .. }
        | Command::Write { .. }
        | Command::XdRead { .. }
        | Command::ModeSelect { .. }
        | Command::ModeSense { .. } => 0,
    }
}

fn is_over(maximum: u32, count: u32) -> bool
    ensures { result ≡ is_over maximum count }
{
    maximum != 0 && count > maximum
}

/// A secondary address that is no target's, or this target's own.
fn wrong_secondary(limits: &TargetLimits, command: &Command) -> Option<Sense>
    ensures { result ≡ wrong_secondary limits.now command.now }
{
    let Command::XdWriteExtended { address, .. } = *command else {
        return None;
    };
    if address >= limits.targets || address == limits.number {
        Some(wrong_field(14))
    } else {
        None
    }
}

/// MODE SELECT: vendor specific pages (PF zero), or pages to be saved (SP).
fn wrong_select(command: &Command) -> Option<Sense>
    ensures { result ≡ wrong_select command.now }
{
    match *command {
        Command::ModeSelect { pf, sp, .. } if !pf || sp => Some(wrong_field(1)),
        _ => None,
    }
}

/// MODE SENSE of saved values, which aren't kept.
fn saved_values(command: &Command) -> Option<Sense>
    ensures { result ≡ saved_values command.now }
{
    match *command {
        Command::ModeSense { pc: 3, .. } => Some(Sense::illegal(SAVING, 0, None)),
        _ => None,
    }
}

/// MODE SENSE of another page than 10h, by its own code or by that of all pages.
fn unknown_page(command: &Command) -> Option<Sense>
    ensures { result ≡ unknown_page command.now }
{
    match *command {
        Command::ModeSense { page, .. } if page != 0x10 && page != 0x3f => Some(wrong_field(2)),
        _ => None,
    }
}

/// Blocks beyond the medium's rows.
fn out_of_range(limits: &TargetLimits, command: &Command) -> Option<Sense>
    ensures { result ≡ out_of_range limits.now command.now }
{
    let row = u64::from(command.first_block().unwrap_or(0));
    let count = u64::from(command.block_count().unwrap_or(0));
    if row + count > u64::from(limits.rows) {
        Some(Sense::illegal(BLOCK_RANGE, 0, None))
    } else {
        None
    }
}

/// Another number of bytes than comes with the command.
fn wrong_amount(limits: &TargetLimits, command: &Command, bytes: &[u8]) -> Option<Sense>
    ensures { result ≡ wrong_amount limits.now command.now bytes.now }
{
    if bytes.len() as u64 == data_due(limits.block, command) {
        None
    } else {
        Some(Sense::illegal(PARAMETER_LIST_LENGTH, 0, None))
    }
}

/// How many bytes come with a command: the blocks that it writes or folds, or its parameter list.
fn data_due(block: u32, command: &Command) -> u64
    ensures { result ≡ data_due block command.now }
{
    let command = *command;
    match command {
        Command::Write { length, .. }
        | Command::XdWrite { length, .. }
        | Command::XpWrite { length, .. }
        | Command::XdWriteRead { length, .. } => u64::from(length) * u64::from(block),
        Command::XdWriteExtended { length, .. } => u64::from(length) * u64::from(block),
        Command::ModeSelect { list, .. } => u64::from(list),
        Command::Rebuild { list, .. } | Command::Regenerate { list, .. } => u64::from(list),
        Command::Read { .. } | Command::XdRead { .. } | Command::ModeSense { .. } => 0,
    }
}
