ghost use Rattle.std.specs.Prelude.{◌≡◌, ◌<◌, ◌≤◌, ◌-◌, ◌^◌, ℕ, length, Some, None, OnOk, IfErr, MatchOption};
ghost use Rattle.xor_params.specs.declared.lists.Params.{Params};
ghost use Rattle.xor_params.specs.declared.lists.ParamFault.{ParamFault};
ghost use Rattle.xor_params.specs.declared.lists.ParamFault.TheVariants as param_fault;
ghost use Rattle.xor_params.specs.ParameterLists.{SpellsParams, HasHead, IsRefused, due, wrong_bits, announced_sources};
ghost use Rattle.xor_params.specs.Contents.{HasRoom};
ghost use Rattle.xor_params.specs.ListFaults.{list_fault};

use crate::lists::ParamFault;
use crate::tables::{offence, table_of};

/// The first fault of the bytes as a parameter list (SBC), in the order in which `decode` looks for faults, and with its
/// parameters; none where they spell a list. No memory is taken, so want of it isn't answered.
pub fn fault_of(bytes: &[u8], intdata: bool, bytes_wanted: u64) -> Option<ParamFault>
    requires { bytes_wanted ≤ 2 ^ 64 - 65540 }
    ensures first { result ≡ list_fault bytes.now intdata bytes_wanted }
    // What the answer says of the bytes.
    ensures means { MatchOption result ((p : Params) × SpellsParams bytes.now intdata bytes_wanted p) (IsRefused bytes.now intdata bytes_wanted) }
    // When there is none, and when each fault is answered.
    ensures none { (p : Params) → SpellsParams bytes.now intdata bytes_wanted p → result ≡ None }
    ensures refused { (e : ParamFault) → IsRefused bytes.now intdata bytes_wanted e → result ≡ Some e }
    // What can then be read of them.
    ensures room { result ≡ None → HasRoom bytes.now }
    // A field pointer has room for the byte.
    ensures near { (byte : ℕ) → result ≡ Some (param_fault.Field byte) → byte < 2 ^ 16 }
{
    check(bytes, intdata, bytes_wanted).err()
}

/// Whether the bytes are a parameter list, or their first fault.
pub fn check(bytes: &[u8], intdata: bool, bytes_wanted: u64) -> Result<(), ParamFault>
    requires { bytes_wanted ≤ 2 ^ 64 - 65540 }
    ensures head { OnOk result (HasHead bytes.now) }
    ensures whole { OnOk result (length bytes.now ≡ due bytes.now intdata bytes_wanted) }
    ensures clean { OnOk result ((k i : ℕ) → k < announced_sources bytes.now → i < 16 → wrong_bits bytes.now k i ≡ 0) }
    ensures refused { IfErr result (IsRefused bytes.now intdata bytes_wanted) }
{
    check_head(bytes, intdata, bytes_wanted)?;
    match offence(table_of(bytes)) {
        Some(place) => Err(ParamFault::Field { byte: 4 + place }),
        None => Ok(()),
    }
}

/// The same for all but the descriptors.
fn check_head(bytes: &[u8], intdata: bool, bytes_wanted: u64) -> Result<(), ParamFault>
    requires { bytes_wanted ≤ 2 ^ 64 - 65540 }
    ensures head { OnOk result (HasHead bytes.now) }
    ensures whole { OnOk result (length bytes.now ≡ due bytes.now intdata bytes_wanted) }
    ensures refused { IfErr result (IsRefused bytes.now intdata bytes_wanted) }
{
    let got = bytes.len() as u64;
    let Some(head) = bytes.first_chunk::<4>() else {
        return Err(ParamFault::Length { want: 4, got });
    };
    let [sources, reserved, high, low] = *head;
    if reserved != 0 {
        return Err(ParamFault::Field { byte: 1 });
    }
    let room = u16::from_be_bytes([high, low]);
    if room < 16 * u16::from(sources) {
        return Err(ParamFault::Field { byte: 2 });
    }
    let data = if intdata { bytes_wanted } else { 0 };
    let want = 4 + u64::from(room) + data;
    if got != want {
        return Err(ParamFault::Length { want, got });
    }
    Ok(())
}
