ghost use Rattle.std.specs.Prelude.{◌≡◌, ◌≤◌, ◌<◌, ℕ, slice_index};

/// A command descriptor block of up to 16 bytes. The bytes from `len` on are zero.
#[derive(Clone, Copy, Debug, PartialEq, Eq)]
pub struct Cdb {
    pub bytes: [u8; 16],
    pub len: u8,
    pub ghost fits: { len ≤ 16 },
    pub ghost padded: { (k : ℕ) → len ≤ k → slice_index bytes k ≡ 0 },
}

impl Cdb {
    ghost use Rattle.sbc_cdbs.specs.Cdbs.{cdb_bytes};

    /// The `len` bytes of the block.
    pub fn as_slice(&self) -> &[u8]
        ensures { result.now ≡ cdb_bytes self.now }
    {
        &self.bytes[..self.len as usize]
    }

    pub(crate) fn of_ten(bytes: [u8; 10]) -> Cdb
        ensures { cdb_bytes result ≡ bytes }
    {
        let mut all = [0; 16];
        all[..10].copy_from_slice(&bytes);
        Cdb {
            bytes: all,
            len: 10,
        }
    }

    pub(crate) fn of_sixteen(bytes: [u8; 16]) -> Cdb
        ensures { cdb_bytes result ≡ bytes }
    {
        Cdb { bytes, len: 16 }
    }
}
