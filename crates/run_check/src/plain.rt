//! Comparisons of plain values, with clauses in the words of the definitions' tests.

ghost use Rattle.std.specs.Prelude.{◌≡◌, option_map};
ghost use Rattle.run_check.specs.Plain.{same_bool, same_found, same_kind, same_place};

use crate::names::is_same_name;
use array_journal::{At, Kind};

/// `==` of truth values.
pub fn is_same(a: bool, b: bool) -> bool
    ensures { result ≡ same_bool a b }
{
    a == b
}

/// `==` of kinds.
pub fn is_same_kind(a: Kind, b: Kind) -> bool
    ensures { result ≡ same_kind a b }
{
    a == b
}

/// `==` of names, where there are any.
pub fn is_same_place(a: Option<At>, b: Option<At>) -> bool
    ensures { result ≡ same_place a b }
{
    match (a, b) {
        (None, None) => true,
        (Some(a), Some(b)) => is_same_name(a, b),
        _ => false,
    }
}

/// Whether there are bytes, and they are these.
pub fn is_found(bytes: &[u8], found: Option<&[u8]>) -> bool
    ensures { result ≡ same_found bytes.now (option_map (λ b. b.now) found.entry) }
{
    match found {
        Some(found) => bytes == found,
        None => false,
    }
}
