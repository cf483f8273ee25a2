ghost use Rattle.std.specs.Prelude.{◌≡◌, ◌<◌, ◌≤◌, ◌+◌, ◌-◌, ◌/◌, ◌%◌, ◌^◌, ◌⊎◌, ℕ, slice_index, slice_set};
ghost use Rattle.std.specs.Int.{bit_at};
ghost use Rattle.cdb_fields.specs.Fields.{bits, with_bits};

/// The bits `HIGH` to `LOW` of the byte at `BYTE`, bit 7 being the highest of a byte.
pub struct Field<const BYTE: usize, const HIGH: u8, const LOW: u8>;

impl<const BYTE: usize, const HIGH: u8, const LOW: u8> Field<BYTE, HIGH, LOW> {
    /// The number in these bits.
    pub fn get<const N: usize>(bytes: &[u8; N]) -> u8
        requires inside { BYTE < N }
        requires order { LOW ≤ HIGH }
        requires top { HIGH ≤ 7 }
        ensures { result ≡ bits HIGH LOW (slice_index bytes.now BYTE) }
    {
        // In 16 bits, since a field may be the whole byte, and 1 << 8 is more than eight bits hold.
        let size = 1u16 << (HIGH + 1 - LOW);
        ((bytes[BYTE] >> LOW) as u16 % size) as u8
    }

    /// Writes a number into these bits. All other bits stay.
    pub fn put<const N: usize>(bytes: &mut [u8; N], value: u8)
        requires inside { BYTE < N }
        requires order { LOW ≤ HIGH }
        requires top { HIGH ≤ 7 }
        requires fits { value < 2 ^ (HIGH + 1 - LOW) }
        ensures { bytes.new ≡ slice_set bytes.old BYTE (with_bits HIGH LOW (slice_index bytes.old BYTE) value) }
    {
        // By subtraction and not by a mask: the definition is of numbers, and what is taken off and put on
        // is the field alone.
        let cleared = bytes[BYTE] - (Self::get(bytes) << LOW);
        bytes[BYTE] = cleared + (value << LOW);
    }
}

/// What is put into bits of a byte is read there again, and all other bits stay.
pub fn bits_law()
    ensures read { (high low byte value : ℕ) → value < 2 ^ (high + 1 - low)
        → bits high low (with_bits high low byte value) ≡ value }
    ensures others { (high low byte value : ℕ) → low ≤ high → value < 2 ^ (high + 1 - low)
        → (i : ℕ) → (i < low) ⊎ (high < i) → bit_at (with_bits high low byte value) i ≡ bit_at byte i }
{}
