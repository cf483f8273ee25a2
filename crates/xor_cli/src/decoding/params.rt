//! The text of a parameter list.

ghost use Rattle.std.specs.Prelude.{◌≡◌, ◌++◌, OnOk};
ghost use Rattle.std.specs.Io.{StartsWith};
ghost use Rattle.std.specs.List.{flat_map};
ghost use Rattle.xor_cli.specs.DecodeTexts.{source_text, lengths_text, params_text};

use crate::text::push_field;
use blocks_core::{Bytes, Memory};
use xor_params::{Descriptor, Params};

/// A source: its target, and the block that it begins at.
#[tactic(auto, using(text_fields::proofs::Fronts::fronts), unfolding(crate::specs::DecodeTexts::source_text))]
fn push_source(text: &mut Bytes, source: &Descriptor) -> Result<(), Memory>
    ensures ok { OnOk result (text.new ≡ text.old ++ source_text source.now) }
    ensures front { StartsWith text.new text.old }
{
    push_field(text, b"source", u64::from(source.target))?;
    push_field(text, b"lba", u64::from(source.lba))
}

#[tactic(auto, using(text_fields::proofs::Fronts::fronts))]
fn push_sources(text: &mut Bytes, sources: &[Descriptor]) -> Result<(), Memory>
    ensures ok { OnOk result (text.new ≡ text.old ++ flat_map source_text sources.now) }
    ensures front { StartsWith text.new text.old }
{
    for source in sources {
        push_source(text, source)?;
    }
    Ok(())
}

/// The number of sources, and how many bytes the pad and the intermediate data have.
#[tactic(auto, using(text_fields::proofs::Fronts::fronts), unfolding(crate::specs::DecodeTexts::lengths_text))]
fn push_lengths(text: &mut Bytes, params: &Params) -> Result<(), Memory>
    ensures ok { OnOk result (text.new ≡ text.old ++ lengths_text params.now) }
    ensures front { StartsWith text.new text.old }
{
    push_field(text, b"sources", params.sources.len() as u64)?;
    push_field(text, b"pad", params.pad.len() as u64)?;
    push_field(text, b"intermediate", params.intermediate.len() as u64)
}

#[tactic(auto, using(text_fields::proofs::Fronts::fronts))]
pub fn push_params(text: &mut Bytes, params: &Params) -> Result<(), Memory>
    ensures ok { OnOk result (text.new ≡ text.old ++ params_text params.now) }
    ensures front { StartsWith text.new text.old }
{
    text.push_slice(b"params")?;
    push_lengths(text, params)?;
    push_sources(text, params.sources.as_slice())
}
