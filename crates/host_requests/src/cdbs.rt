//! The tests of a host's CDB, over the decoder of the whole standard.

ghost use Rattle.std.specs.Prelude.{◌≡◌, IfOk, IfErr, Some, None, option_map};
ghost use Rattle.sbc_cdbs.specs.Cdbs.{SpellsCdb};
ghost use Rattle.sbc_cdbs.specs.Faults.{IsFault};
ghost use Rattle.host_requests.specs.Cdbs.{has_other_code, asked_by, fault_by};
ghost use Rattle.host_requests.specs.Forms.{sense_of, transfer_as};
ghost use Rattle.host_requests.specs.Requests.{is_write, cdb_fault, raw_transfer};

use crate::faults::RequestFault;
use crate::payloads::Payload;
use crate::requests::Transfer;
use array_journal::Want;
use sbc_cdbs::{CdbFault, Command, decode};

/// The operation codes of READ(10) and WRITE(10).
const READ: u8 = 0x28;

const WRITE: u8 = 0x2a;

/// Whether a CDB writes, by its operation code.
pub fn is_write(cdb: &[u8]) -> bool
    ensures { result ≡ is_write cdb.now }
{
    match cdb {
        [] => false,
        [code, ..] => *code == WRITE,
    }
}

/// What a CDB asks, with the bytes that came with it, or the first test of the CDB itself that fails: its
/// operation code, its length, its reserved bits.
pub fn decode_transfer<'a>(cdb: &[u8], bytes: &'a [u8]) -> Result<Transfer<'a>, RequestFault>
    ensures passes { IfOk result (λ transfer. cdb_fault cdb.now ≡ None) }
    ensures asked { IfOk result (λ transfer. transfer_as transfer ≡ raw_transfer cdb.now bytes.now) }
    ensures fails { IfErr result (λ fault. cdb_fault cdb.now ≡ Some (sense_of fault)) }
{
    match decode(cdb) {
        Ok(command) => served(cdb, command, bytes),
        Err(fault) => Err(first_fault(cdb, fault)),
    }
}

/// What a command asks, if the array serves it.
fn served<'a>(cdb: &[u8], command: Command, bytes: &'a [u8]) -> Result<Transfer<'a>, RequestFault>
    requires { SpellsCdb cdb.now command }
    ensures passes { IfOk result (λ transfer. cdb_fault cdb.now ≡ None) }
    ensures asked { IfOk result (λ transfer. transfer_as transfer ≡ raw_transfer cdb.now bytes.now) }
    ensures fails { IfErr result (λ fault. cdb_fault cdb.now ≡ Some (sense_of fault)) }
{
    match asked_by(command, bytes) {
        Some(transfer) => Ok(transfer),
        None => Err(RequestFault::OpCode),
    }
}

fn asked_by<'a>(command: Command, bytes: &'a [u8]) -> Option<Transfer<'a>>
    ensures { option_map transfer_as result ≡ asked_by command bytes.now }
{
    let (wanted, lba, length) = match command {
        Command::Read { lba, length, .. } => (Want::Read, lba, length),
        Command::Write { lba, length, .. } => (Want::Write, lba, length),
        _ => return None,
    };
    Some(Transfer {
        wanted,
        lba,
        count: u32::from(length),
        bytes: Payload::Given(bytes),
    })
}

/// The first test that a CDB fails, where it is no command's. Another operation code comes before all
/// else, also where the decoder knows it and finds a fault behind it.
fn first_fault(cdb: &[u8], fault: CdbFault) -> RequestFault
    requires { IsFault cdb.now fault }
    ensures { cdb_fault cdb.now ≡ Some (sense_of result) }
{
    if has_other_code(cdb) {
        RequestFault::OpCode
    } else {
        fault_by(fault)
    }
}

fn has_other_code(cdb: &[u8]) -> bool
    ensures { result ≡ has_other_code cdb.now }
{
    match cdb {
        [] => false,
        [code, ..] => !(*code == READ || *code == WRITE),
    }
}

fn fault_by(fault: CdbFault) -> RequestFault
    ensures { result ≡ fault_by fault }
{
    match fault {
        CdbFault::OpCode { .. } => RequestFault::OpCode,
        CdbFault::Length { .. } => RequestFault::Length,
        CdbFault::Bits { byte } => RequestFault::Bits { byte },
    }
}
