//! What a call line asks of the array.

ghost use Rattle.std.specs.Prelude.{◌≡◌, ◌≤◌, ◌+◌, ◌*◌, length};
ghost use Rattle.stripe_layout.specs.Layout.{IsArray, capacity_of};
ghost use Rattle.host_scripts.specs.Scripts.{IsScript};
ghost use Rattle.host_requests.specs.Begins.{transfer_pieces};
ghost use Rattle.host_requests.specs.Requests.{unless, moved, cdb_fault, raw_transfer, bytes_due, request_of};
ghost use Rattle.host_requests.specs.Forms.{transfer_of, transfer_as, request_as, IsWithin};

use crate::cdbs::decode_transfer;
use crate::faults::RequestFault;
use crate::payloads::Payload;
use crate::settings::most_blocks;
use array_journal::{Want, What};
use host_scripts::{Action, Script};
use stripe_layout::Geometry;

/// Blocks to be read or written, and the bytes that came with the command.
#[derive(Clone, Copy, Debug)]
pub struct Transfer<'a> {
    /// `Want::Read` or `Want::Write`.
    pub wanted: Want,
    pub lba: u32,
    pub count: u32,
    pub bytes: Payload<'a>,
}

impl<'a> Transfer<'a> {
    /// How many pieces its blocks are cut into.
    pub fn piece_count(self, script: &Script) -> u32
        requires script { IsScript script.now }
        requires in_range { self.lba + self.count ≤ capacity_of script.now.geometry }
        ensures { result ≡ length (transfer_pieces script.now (transfer_as self.entry)) }
    {
        let max = most_blocks(script);
        script.geometry.piece_count(self.lba, self.count, max)
    }
}

/// What a call line asks.
#[derive(Clone, Copy, Debug)]
pub enum Request<'a> {
    /// A host's call that fails a test.
    Illegal { fault: RequestFault },
    /// A host's call that passes all tests.
    Blocks { transfer: Transfer<'a> },
    /// The operator's calls.
    Lose { target: u8 },
    Wipe { target: u8, what: What },
    Replace { slot: u8 },
    Rebuild { slot: u8 },
    Resync,
}

/// How many bytes have to come with a command: those of its blocks where it writes, and none else.
pub fn bytes_due(geometry: &Geometry, wanted: Want, count: u32) -> u64
    requires { IsArray geometry.now }
    ensures { result ≡ bytes_due geometry.now wanted count }
{
    match wanted {
        Want::Write => u64::from(count) * u64::from(geometry.block),
        _ => 0,
    }
}

/// What a host's call asks that passed the tests of its CDB: its blocks have to be within the capacity,
/// and as many bytes to come as are due.
fn moved<'a>(
    geometry: &Geometry,
    wanted: Want,
    lba: u32,
    count: usize,
    bytes: Payload<'a>,
) -> Request<'a>
    requires { IsArray geometry.now }
    ensures value { request_as result ≡ moved geometry.now (transfer_of wanted lba count bytes.entry) }
    ensures within { IsWithin geometry.now result }
{
    let end = u128::from(lba) + count as u128;
    if u128::from(geometry.capacity()) < end {
        return Request::Illegal {
            fault: RequestFault::Range,
        };
    }
    let count = count as u32;
    if bytes.len() as u64 == bytes_due(geometry, wanted, count) {
        let transfer = Transfer {
            wanted,
            lba,
            count,
            bytes,
        };
        Request::Blocks { transfer }
    } else {
        Request::Illegal {
            fault: RequestFault::Size,
        }
    }
}

/// What a host's CDB asks, with the bytes that came with it. It is refused for the first test that it fails, in the order of
/// `request_of`.
pub fn raw_request<'a>(geometry: &Geometry, cdb: &[u8], bytes: &'a [u8]) -> Request<'a>
    requires { IsArray geometry.now }
    ensures value { request_as result ≡ unless (cdb_fault cdb.now) (moved geometry.now (raw_transfer cdb.now bytes.now)) }
    ensures within { IsWithin geometry.now result }
{
    match decode_transfer(cdb, bytes) {
        Ok(transfer) => {
            let count = transfer.count as usize;
            moved(
                geometry,
                transfer.wanted,
                transfer.lba,
                count,
                transfer.bytes,
            )
        }
        Err(fault) => Request::Illegal { fault },
    }
}

/// What a call line asks of an array of this shape. A host's call is refused for the first test that it
/// fails, in this order: its operation code, its length and reserved bits, its range, its bytes.
pub fn request_of<'a>(geometry: &Geometry, action: &'a Action) -> Request<'a>
    requires { IsArray geometry.now }
    ensures value { request_as result ≡ request_of geometry.now action.now }
    ensures within { IsWithin geometry.now result }
{
    let block = geometry.block as usize;
    match action {
        // A read brings no bytes.
        Action::Read { lba, count } => {
            let count = usize::from(*count);
            moved(geometry, Want::Read, *lba, count, Payload::none())
        }
        Action::Write { lba, bytes } => {
            let count = bytes.len() / block;
            let bytes = Payload::Given(bytes.as_slice());
            moved(geometry, Want::Write, *lba, count, bytes)
        }
        Action::Fill { lba, count, byte } => {
            let count = usize::from(*count);
            let bytes = Payload::Repeated {
                byte: *byte,
                len: count * block,
            };
            moved(geometry, Want::Write, *lba, count, bytes)
        }
        Action::Raw { cdb, bytes } => raw_request(geometry, cdb.as_slice(), bytes.as_slice()),
        Action::Lose { target } => Request::Lose { target: *target },
        Action::Reset { target } => Request::Wipe {
            target: *target,
            what: What::Buffers,
        },
        Action::DropNext { target } => Request::Wipe {
            target: *target,
            what: What::Request,
        },
        Action::Replace { target } => Request::Replace { slot: *target },
        Action::Rebuild { target } => Request::Rebuild { slot: *target },
        Action::Resync => Request::Resync,
    }
}
