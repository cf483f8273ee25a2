//! Numbers of a script's lines, before their ranges are tested.

ghost use Rattle.text_fields.specs.Reading.{Reads};
ghost use Rattle.host_scripts.specs.Loose.{numeral_of, number_of, addressed_of, two_of};

use text_fields::{capped_number, cut, strip};

/// More than each number that a script may have: what is too great is out of range, and no fault of form.
const CAP: u64 = 4_294_967_296;

/// The value of a numeral, or 2^32 where it is greater.
pub fn numeral(text: &[u8]) -> Option<u64>
    ensures { Reads (λ n. n) result (numeral_of text.now) }
{
    capped_number(text, CAP)
}

/// The same of a numeral behind a keyword.
#[tactic(auto, unfolding(crate::specs::Loose::number_of))]
pub fn number_behind(text: &[u8], keyword: &[u8]) -> Option<u64>
    ensures { Reads (λ n. n) result (number_of keyword.now text.now) }
{
    let text = strip(text, keyword)?;
    numeral(text)
}

/// A number, which is 2^32 where it is greater, a space and what stands behind it.
#[tactic(auto, unfolding(crate::specs::Loose::addressed_of))]
pub fn addressed(text: &[u8]) -> Option<(u64, &[u8])>
    ensures { Reads (λ x. (x.0, x.1.now)) result (addressed_of text.now) }
{
    let (number, rest) = cut(text, b' ')?;
    let number = numeral(number)?;
    Some((number, rest))
}

/// Two numbers, each of which is 2^32 where it is greater.
#[tactic(auto, unfolding(crate::specs::Loose::two_of))]
pub fn two_numbers(text: &[u8]) -> Option<(u64, u64)>
    ensures { Reads (λ x. x) result (two_of text.now) }
{
    let (first, rest) = addressed(text)?;
    let second = numeral(rest)?;
    Some((first, second))
}
