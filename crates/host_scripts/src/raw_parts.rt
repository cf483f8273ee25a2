ghost use Rattle.host_scripts.specs.Loose.{raw_parts_of};
ghost use Rattle.host_scripts.specs.Reading.{Gives, judged, any};

use crate::script::{Cause, ScriptFault, refused};
use blocks_core::Bytes;
use std::alloc::Global;
use text_fields::{cut, data_bytes, filled_bytes};

/// A CDB of at least one byte and the bytes sent with it, which stand behind `cdb `.
#[tactic(auto, unfolding(crate::specs::Loose::raw_parts_of))]
pub fn raw_parts(alloc: Global, line: u32, text: &[u8]) -> Result<(Bytes, Bytes), ScriptFault>
    ensures { Gives (λ x. (x.0, x.1)) result (judged line any any (raw_parts_of text.now)) }
{
    let Some((cdb, behind)) = cut(text, b' ') else {
        return Err(refused(line, Cause::Form));
    };
    let Some(cdb) = filled_bytes(alloc, cdb)? else {
        return Err(refused(line, Cause::Form));
    };
    let Some(bytes) = data_bytes(alloc, behind)? else {
        return Err(refused(line, Cause::Form));
    };
    Ok((cdb, bytes))
}
