//! The bits that are the same in each list of MODE SELECT, and so on each page.

ghost use Rattle.std.specs.Prelude.{◌≡◌, ◌<◌, ◌≤◌, ℕ, length, MatchOption};
ghost use Rattle.xor_mode_page.specs.Pages.{IsFine, OffendsFirst};

/// How many bytes the header of a list has.
pub const HEADER: usize = 8;

/// Which bits of a list are fixed, byte by byte: all of the header, the page code, the page length and
/// what is reserved on the page.
pub const BITS: [u8; 32] = [
    0xff, 0xff, 0xff, 0xff, 0xff, 0xff, 0xff, 0xff, 0xff, 0xff, 0xfd, 0xff, 0, 0, 0, 0, 0xff, 0xff,
    0xff, 0xff, 0, 0, 0, 0, 0, 0, 0, 0, 0xff, 0xff, 0, 0,
];

/// The values of these bits.
pub const VALUES: [u8; 32] = [
    0, 0, 0, 0, 0, 0, 0, 0, 0x10, 0x16, 0, 0, 0, 0, 0, 0, 0, 0, 0, 0, 0, 0, 0, 0, 0, 0, 0, 0, 0, 0,
    0, 0,
];

/// The lowest byte at which a fixed bit has another value.
pub fn offence(bits: &[u8], values: &[u8], bytes: &[u8]) -> Option<u16>
    requires bits { length bytes.now ≤ length bits.now }
    requires values { length bytes.now ≤ length values.now }
    requires short { length bytes.now ≤ 65535 }
    ensures { MatchOption result ((k : ℕ) → k < length bytes.now → IsFine bits.now values.now bytes.now k) (OffendsFirst bits.now values.now bytes.now) }
{
    for (place, byte) in bytes.iter().enumerate() {
        if *byte & bits[place] != values[place] {
            return Some(place as u16);
        }
    }
    None
}
