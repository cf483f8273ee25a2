//! Numbers in decimal, without sign or leading zero.

ghost use Rattle.std.specs.Prelude.{◌≡◌, ◌≤◌, IfSome, Option, Some, None, min, if◌then◌else◌};
ghost use Rattle.std.specs.Str.{all_ascii_digits};
ghost use Rattle.std.specs.Str.Parse.{digits_value};
ghost use Rattle.text_fields.specs.Reading.{Reads, capped_of, number_of};

/// More than each number of 64 bits. A longer numeral counts as this, so that one of any length is read
/// without wrapping, and none that is too great passes for a smaller one.
const CAP: u128 = 18_446_744_073_709_551_616;

/// The number that digits spell, or the cap where it is greater.
fn capped_value(text: &[u8]) -> Option<u128>
    ensures { Reads (λ n. n) result (if all_ascii_digits text.now then Some (min (digits_value 10 text.now) 18446744073709551616) else None) }
{
    let mut value: u128 = 0;
    for &digit in text {
        if !digit.is_ascii_digit() {
            return None;
        }
        value = CAP.min(value * 10 + u128::from(digit - b'0'));
    }
    Some(value)
}

/// The number that a numeral spells, or the cap where it is greater.
#[tactic(auto, unfolding(crate::specs::Reading::capped_of))]
fn numeral(text: &[u8]) -> Option<u128>
    ensures { Reads (λ n. n) result (capped_of 18446744073709551616 text.now) }
{
    match text {
        [] => None,
        [b'0', _, ..] => None,
        _ => capped_value(text),
    }
}

/// The number that a numeral of any length spells, or `cap` where it is greater. Takes no memory; the time
/// is linear in the digits.
pub fn capped_number(text: &[u8], cap: u64) -> Option<u64>
    ensures { Reads (λ n. n) result (capped_of cap text.now) }
{
    let number = numeral(text)?;
    Some(number.min(u128::from(cap)) as u64)
}

/// The number that a numeral spells, where it is at most so great.
pub fn number_up_to(text: &[u8], most: u64) -> Option<u64>
    ensures value { Reads (λ n. n) result (number_of most text.now) }
    ensures range { IfSome result (λ n. n ≤ most) }
{
    let number = numeral(text)?;
    if number <= u128::from(most) {
        Some(number as u64)
    } else {
        None
    }
}

/// The number that a numeral spells, where it fits 32 bits.
pub fn number_u32(text: &[u8]) -> Option<u32>
    ensures { Reads (λ n. n) result (number_of 4294967295 text.now) }
{
    let number = number_up_to(text, 4_294_967_295)?;
    Some(number as u32)
}

/// The number that a numeral spells, where it fits 16 bits.
pub fn number_u16(text: &[u8]) -> Option<u16>
    ensures { Reads (λ n. n) result (number_of 65535 text.now) }
{
    let number = number_up_to(text, 65_535)?;
    Some(number as u16)
}

/// The number that a numeral spells, where it fits 8 bits.
pub fn number_u8(text: &[u8]) -> Option<u8>
    ensures { Reads (λ n. n) result (number_of 255 text.now) }
{
    let number = number_up_to(text, 255)?;
    Some(number as u8)
}
