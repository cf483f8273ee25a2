ghost use Rattle.std.specs.Prelude.{◌≡◌, ◌<◌, ◌≤◌, ◌+◌, ◌^◌, ◌⊎◌, ℕ, List, length, slice_index};
ghost use Rattle.cdb_fields.specs.Fields.{number_at, with_number};

use byteorder::{BigEndian, ByteOrder};

/// The number in `WIDTH` bytes from `BYTE` on, its highest byte first.
pub struct Number<const BYTE: usize, const WIDTH: usize>;

impl<const BYTE: usize, const WIDTH: usize> Number<BYTE, WIDTH> {
    /// The number that stands there.
    pub fn get<const N: usize>(bytes: &[u8; N]) -> u32
        requires inside { BYTE + WIDTH ≤ N }
        requires width { (WIDTH ≡ 1) ⊎ (WIDTH ≡ 2) ⊎ (WIDTH ≡ 4) }
        ensures value { result ≡ number_at BYTE WIDTH bytes.now }
        ensures small { result < 256 ^ WIDTH }
    {
        let all = &bytes[..];
        match WIDTH {
            1 => all[BYTE] as u32,
            2 => BigEndian::read_u16(&all[BYTE..]) as u32,
            _ => BigEndian::read_u32(&all[BYTE..]),
        }
    }

    /// Writes a number there. All other bytes stay.
    pub fn put<const N: usize>(bytes: &mut [u8; N], value: u32)
        requires inside { BYTE + WIDTH ≤ N }
        requires width { (WIDTH ≡ 1) ⊎ (WIDTH ≡ 2) ⊎ (WIDTH ≡ 4) }
        requires fits { value < 256 ^ WIDTH }
        ensures { bytes.new ≡ with_number BYTE WIDTH bytes.old value }
    {
        let all = &mut bytes[..];
        match WIDTH {
            1 => all[BYTE] = value as u8,
            2 => BigEndian::write_u16(&mut all[BYTE..], value as u16),
            _ => BigEndian::write_u32(&mut all[BYTE..], value),
        }
    }
}

/// A number that is put is read again, and all other bytes stay.
pub fn number_law()
    ensures read { (place width value : ℕ) (bytes : List ℕ) → place + width ≤ length bytes → value < 256 ^ width
        → number_at place width (with_number place width bytes value) ≡ value }
    ensures others { (place width value : ℕ) (bytes : List ℕ) → place + width ≤ length bytes
        → (k : ℕ) → (k < place) ⊎ (place + width ≤ k)
        → slice_index (with_number place width bytes value) k ≡ slice_index bytes k }
{}
