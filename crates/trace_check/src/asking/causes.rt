//! Whether two refusals have one cause.

ghost use Rattle.std.specs.Prelude.{◌≡◌, ◌↔◌, IsTrue, true};
ghost use Rattle.array_journal.specs.declared.event.Why.TheVariants as causes;
ghost use Rattle.trace_check.specs.CauseNumbers.{number_of, is_plain};

use array_journal::Why;
use sense_data::{Sense, encode};

fn are_same_bytes(a: &[u8], b: &[u8]) -> bool
    ensures { IsTrue result ↔ (a.now ≡ b.now) }
{
    a == b
}

/// Whether two senses are one: they have one spelling.
fn is_same_sense(a: &Sense, b: &Sense) -> bool
    ensures { IsTrue result ↔ (a.now ≡ b.now) }
{
    let first = encode(a);
    let second = encode(b);
    are_same_bytes(&first, &second)
}

/// Whether a cause is this sense.
fn is_sense(sense: Sense, b: Why) -> bool
    ensures { IsTrue result ↔ (causes.Illegal sense ≡ b) }
{
    match b {
        Why::Illegal { sense: other } => is_same_sense(&sense, &other),
        _ => false,
    }
}

fn cause_number(why: Why) -> u8
    ensures { result ≡ number_of why }
{
    match why {
        Why::Illegal { .. } => 0,
        Why::Medium => 1,
        Why::NotReady => 2,
        Why::Unfitted => 3,
        Why::Present => 4,
        Why::Listed => 5,
        Why::Second => 6,
        Why::Clean => 7,
        Why::Absent => 8,
        Why::NotLost => 9,
    }
}

/// Whether a cause without a sense is another's.
fn is_plain(a: Why, b: Why) -> bool
    requires { is_plain a ≡ true }
    ensures { IsTrue result ↔ (a ≡ b) }
{
    cause_number(a) == cause_number(b)
}

/// Whether two causes are one.
pub fn is_same_cause(a: Why, b: Why) -> bool
    ensures { IsTrue result ↔ (a ≡ b) }
{
    match a {
        Why::Illegal { sense } => is_sense(sense, b),
        _ => is_plain(a, b),
    }
}
