ghost use Rattle.std.specs.Prelude.{◌≡◌, ◌<◌, ◌≤◌, ◌^◌, ◌++◌, ℕ, Bool, OnOk, IfOk, length};
ghost use Rattle.std.specs.List.{flat_map, All};
ghost use Rattle.xor_params.specs.declared.lists.Params.{Params};
ghost use Rattle.xor_params.specs.ParameterLists.{descriptor, room, data_due, spelling, Fits, SpellsParams};

use crate::lists::Params;
use crate::sources::Descriptor;
use crate::tables::bytes_of;
use blocks_core::{Bytes, Memory};
use std::alloc::Global;

/// The bytes of a parameter list (SBC): a head of four bytes, sixteen bytes for each source, the pad, and
/// the intermediate data.
pub fn encode(alloc: Global, params: &Params) -> Result<Bytes, Memory>
    requires few { length params.now.sources ≤ 255 }
    requires short { room params.now ≤ 65535 }
    ensures bytes { IfOk result (λ bytes. bytes ≡ spelling params.now) }
    // So it is read again, for a command that takes as much intermediate data.
    ensures again { (intdata : Bool) (wanted : ℕ) → length params.now.intermediate ≡ data_due intdata wanted → IfOk result (λ bytes. SpellsParams bytes intdata wanted params.now) }
{
    let room = 16 * params.sources.len() + params.pad.len();
    let [high, low] = (room as u16).to_be_bytes();
    let mut bytes = Bytes::from_slice(alloc, &[params.sources.len() as u8, 0, high, low])?;
    push_sources(&mut bytes, params.sources.as_slice())?;
    bytes.push_slice(params.pad.as_slice())?;
    bytes.push_slice(params.intermediate.as_slice())?;
    Ok(bytes)
}

/// Two lists with equally much intermediate data are never spelt alike.
pub fn spelling_law()
    ensures { (p q : Params) → Fits p → Fits q → length p.intermediate ≡ length q.intermediate → spelling p ≡ spelling q → p ≡ q }
{}

/// Puts the descriptors of the sources at the end.
fn push_sources(bytes: &mut Bytes, sources: &[Descriptor]) -> Result<(), Memory>
    ensures bytes { OnOk result (bytes.new ≡ bytes.old ++ flat_map descriptor sources.now) }
    ensures addresses { OnOk result (All (λ d. d.lba < 2 ^ 32) sources.now) }
{
    for source in sources {
        bytes.push_slice(&bytes_of(source))?;
    }
    Ok(())
}
