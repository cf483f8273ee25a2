//! Fields of a text, put at the end of its bytes.

ghost use Rattle.std.specs.Prelude.{◌≡◌, ◌++◌, OnOk};
ghost use Rattle.std.specs.Io.{StartsWith};
ghost use Rattle.xor_cli.specs.DecodeTexts.{field, flag, optional};

use blocks_core::{Bytes, Memory};
use text_fields::push_number;

/// A number in decimal, or a dash for none.
pub fn push_optional(text: &mut Bytes, number: Option<u64>) -> Result<(), Memory>
    ensures ok { OnOk result (text.new ≡ text.old ++ optional number) }
    ensures front { StartsWith text.new text.old }
{
    match number {
        None => text.push(b'-'),
        Some(number) => push_number(text, number),
    }
}

/// A word and a number, behind a space.
#[tactic(auto, using(text_fields::proofs::Fronts::fronts), unfolding(crate::specs::DecodeTexts::field))]
pub fn push_field(text: &mut Bytes, word: &[u8], number: u64) -> Result<(), Memory>
    ensures ok { OnOk result (text.new ≡ text.old ++ field word.now number) }
    ensures front { StartsWith text.new text.old }
{
    text.push(b' ')?;
    text.push_slice(word)?;
    text.push(b' ')?;
    push_number(text, number)
}

/// A word and 0 or 1, behind a space.
#[tactic(auto, unfolding(crate::specs::DecodeTexts::flag))]
pub fn push_flag(text: &mut Bytes, word: &[u8], one: bool) -> Result<(), Memory>
    ensures ok { OnOk result (text.new ≡ text.old ++ flag word.now one) }
    ensures front { StartsWith text.new text.old }
{
    if one {
        push_field(text, word, 1)
    } else {
        push_field(text, word, 0)
    }
}
