ghost use Rattle.std.specs.Prelude.{◌≡◌, ◌≤◌, ◌-◌, ◌^◌, ℕ, length, Err, IfOk, IfErr, MatchResult};
ghost use Rattle.xor_params.specs.declared.lists.Params.{Params};
ghost use Rattle.xor_params.specs.declared.lists.ParamFault.TheVariants as param_fault;
ghost use Rattle.xor_params.specs.ParameterLists.{SpellsParams, IsFault, IsShort, HasReserved, IsCrowded, HasWrongLength, OffendsFirst, due};
ghost use Rattle.xor_params.specs.Contents.{HasRoom, params_in};

use crate::contents::{intermediate_in, pad_in, sources_in};
use crate::faults::check;
use crate::lists::{ParamFault, Params};
use blocks_core::{Bytes, Memory};
use std::alloc::Global;

/// The parameter list that the bytes spell (SBC), for a command with this INTDATA bit, which takes
/// `bytes_wanted` bytes of intermediate data where the bit is one. A fault is the first in this order:
/// fewer than four bytes; the reserved byte of the head; more descriptors than find room; another length
/// than the head announces; the lowest byte of the descriptors with a bit that must be zero.
pub fn decode(
    alloc: Global,
    bytes: &[u8],
    intdata: bool,
    bytes_wanted: u64,
) -> Result<Params, ParamFault>
    requires { bytes_wanted ≤ 2 ^ 64 - 65540 }
    // What is read is spelt so.
    ensures found { IfOk result (SpellsParams bytes.now intdata bytes_wanted) }
    // What is spelt so is read, unless memory runs out.
    ensures only { (p : Params) → SpellsParams bytes.now intdata bytes_wanted p → MatchResult result (λ q. q ≡ p) (λ e. e ≡ param_fault.Memory) }
    // What is read is what the bytes say.
    ensures contents { IfOk result (λ p. p ≡ params_in bytes.now) }
    // What an answered fault says of the bytes.
    ensures fault { IfErr result (IsFault bytes.now intdata bytes_wanted) }
    // When each fault is answered.
    ensures short { IsShort bytes.now → result ≡ Err (param_fault.Length 4 (length bytes.now)) }
    ensures reserved { HasReserved bytes.now → result ≡ Err (param_fault.Field 1) }
    ensures crowded { IsCrowded bytes.now → result ≡ Err (param_fault.Field 2) }
    ensures length { HasWrongLength bytes.now intdata bytes_wanted → result ≡ Err (param_fault.Length (due bytes.now intdata bytes_wanted) (length bytes.now)) }
    ensures offends { (byte : ℕ) → OffendsFirst bytes.now intdata bytes_wanted byte → result ≡ Err (param_fault.Field byte) }
{
    check(bytes, intdata, bytes_wanted)?;
    Ok(parts_of(alloc, bytes)?)
}

/// The parts of bytes that are a parameter list.
fn parts_of(alloc: Global, bytes: &[u8]) -> Result<Params, Memory>
    requires { HasRoom bytes.now }
    ensures { IfOk result (λ p. p ≡ params_in bytes.now) }
{
    Ok(Params {
        sources: sources_in(alloc, bytes)?,
        pad: Bytes::from_slice(alloc, pad_in(bytes))?,
        intermediate: Bytes::from_slice(alloc, intermediate_in(bytes))?,
    })
}
