ghost use Rattle.std.specs.Prelude.{◌≡◌, ◌≤◌, ◌*◌, ℕ, Bool, List, Option, Some, length, IfSome, OnOk, OnErr, IsOk, IsTrue};
ghost use Rattle.blocks_core.specs.Lists.{slice, put};
ghost use Rattle.blocks_core.specs.Xor.{zeros};
ghost use Rattle.outer_io.specs.Outside.{HasRisen, TellsOn};
ghost use Rattle.sector_media.specs.Media.{AreRows};

use outer_io::Failed;

/// Rows of one block each, as a disk has them. No call changes how many there are or how long a block is,
/// whether it fails or not.
///
/// After a failed read, write or renewal any byte of any row may be another one, also of rows that the call
/// doesn't name: a disk that fails in the middle of a command tells nothing of what it did. A medium that told
/// its bytes goes on telling them as they then are. So whoever meets a failure takes the medium for lost,
/// reads nothing of it, and uses it again only after a renewal that didn't fail.
pub trait Medium {
    /// Whether no call of any value ever fails.
    const NEVER_FAILS: bool;

    /// The same, for clauses.
    ghost NEVER_FAILS: { Bool };

    /// How often it has failed.
    ghost faults: { Self → ℕ };

    /// A block's size in bytes.
    ghost block: { Self → ℕ };

    /// How many rows there are.
    ghost row_count: { Self → ℕ };

    /// The bytes of all rows, where it tells them.
    ghost contents: { Self → Option (List ℕ) };

    /// How many rows there are. The contents, where told, are the blocks of these.
    fn rows(&self) -> u32
        ensures count { result ≡ row_count self.now }
        ensures whole { IfSome (contents self.now) (λ bytes. length bytes ≡ row_count self.now * block self.now) };

    /// Puts the blocks of rows from one on into a slice of whole blocks.
    fn read(&mut self, row: u32, into: &mut [u8]) -> Result<(), Failed>
        requires rows { AreRows (block self.old) (row_count self.old) row (length into.old) }

        ensures gives { OnOk result (IfSome (contents self.old) (λ bytes. into.new ≡ slice bytes (row * block self.old) (length into.old))) }
        ensures keeps { OnOk result (contents self.new ≡ contents self.old) }

        ensures same_block { block self.new ≡ block self.old }
        ensures same_rows { row_count self.new ≡ row_count self.old }
        ensures tells_on { TellsOn (contents self.old) (contents self.new) }
        ensures tells_no_more { TellsOn (contents self.new) (contents self.old) }
        ensures never_falls { faults self.old ≤ faults self.new }
        ensures failed { OnErr result (HasRisen (faults self.old) (faults self.new)) }
        ensures never_fails { IsTrue NEVER_FAILS → IsOk result };

    /// Puts whole blocks over those of rows from one on, and leaves all others.
    fn write(&mut self, row: u32, blocks: &[u8]) -> Result<(), Failed>
        requires rows { AreRows (block self.old) (row_count self.old) row (length blocks.now) }

        ensures replaces { OnOk result (IfSome (contents self.old) (λ bytes. contents self.new ≡ Some (put bytes (row * block self.old) blocks.now))) }

        ensures same_block { block self.new ≡ block self.old }
        ensures same_rows { row_count self.new ≡ row_count self.old }
        ensures tells_on { TellsOn (contents self.old) (contents self.new) }
        ensures tells_no_more { TellsOn (contents self.new) (contents self.old) }
        ensures never_falls { faults self.old ≤ faults self.new }
        ensures failed { OnErr result (HasRisen (faults self.old) (faults self.new)) }
        ensures never_fails { IsTrue NEVER_FAILS → IsOk result };

    /// Makes all rows zeros, as those of a fresh disk are.
    fn renew(&mut self) -> Result<(), Failed>
        ensures zeros { OnOk result (IfSome (contents self.old) (λ bytes. contents self.new ≡ Some (zeros (row_count self.old * block self.old)))) }

        ensures same_block { block self.new ≡ block self.old }
        ensures same_rows { row_count self.new ≡ row_count self.old }
        ensures tells_on { TellsOn (contents self.old) (contents self.new) }
        ensures tells_no_more { TellsOn (contents self.new) (contents self.old) }
        ensures never_falls { faults self.old ≤ faults self.new }
        ensures failed { OnErr result (HasRisen (faults self.old) (faults self.new)) }
        ensures never_fails { IsTrue NEVER_FAILS → IsOk result };

    /// Where no call ever fails, the count of every value is 0.
    ghost never_counts: { IsTrue NEVER_FAILS → (medium : Self) → faults medium ≡ 0 };
}
