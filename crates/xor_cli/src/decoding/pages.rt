//! The text of the XOR control mode page.

ghost use Rattle.std.specs.Prelude.{◌≡◌, ◌++◌, OnOk, codes};
ghost use Rattle.std.specs.Io.{StartsWith};
ghost use Rattle.xor_cli.specs.DecodeTexts.{field, page_text};

use crate::text::{push_field, push_flag};
use blocks_core::{Bytes, Memory};
use xor_mode_page::XorPage;

/// The most blocks of each XOR command.
#[tactic(auto, using(text_fields::proofs::Fronts::fronts))]
fn push_maxima(text: &mut Bytes, page: &XorPage) -> Result<(), Memory>
    ensures ok { OnOk result (text.new ≡ text.old
        ++ (field (codes "write") page.now.max_write ++ (field (codes "regenerate") page.now.max_regenerate ++ field (codes "rebuild") page.now.max_rebuild))) }
    ensures front { StartsWith text.new text.old }
{
    push_field(text, b"write", u64::from(page.max_write))?;
    push_field(text, b"regenerate", u64::from(page.max_regenerate))?;
    push_field(text, b"rebuild", u64::from(page.max_rebuild))
}

#[tactic(auto, using(text_fields::proofs::Fronts::fronts))]
pub fn push_page(text: &mut Bytes, page: &XorPage) -> Result<(), Memory>
    ensures ok { OnOk result (text.new ≡ text.old ++ page_text page.now) }
    ensures front { StartsWith text.new text.old }
{
    text.push_slice(b"page")?;
    push_flag(text, b"xordis", page.xordis)?;
    push_maxima(text, page)?;
    push_field(text, b"delay", u64::from(page.delay))
}
