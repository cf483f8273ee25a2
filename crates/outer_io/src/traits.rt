ghost use Rattle.std.specs.Prelude.{◌≡◌, ◌≤◌, ◌<◌, ℕ, List, Option, length, take, IfOk, OnErr, MatchResult};
ghost use Rattle.std.specs.Io.KnownBytes.{Appends, Consumes, IsAtEnd};
ghost use Rattle.outer_io.specs.Outside.{HasRisen, TellsOn, AppendsPrefix};

/// A read or a write failed.
#[derive(Clone, Copy, Debug, PartialEq, Eq)]
pub struct Failed;

/// Where bytes come from.
pub trait Source {
    /// How often it has failed.
    ghost faults: { Self → ℕ };

    /// The bytes that are left, where it tells them.
    ghost left: { Self → Option (List ℕ) };

    /// Puts the next bytes at the start of `into`, and says how many. None for a nonempty `into` is
    /// the end.
    fn read(&mut self, into: &mut [u8]) -> Result<usize, Failed>
        ensures never_falls { faults self.old ≤ faults self.new }
        ensures failed { OnErr result (HasRisen (faults self.old) (faults self.new)) }
        ensures fits { IfOk result (λ count. count ≤ length into.new) }
        ensures bytes { IfOk result (λ count. Consumes (left self.old) (left self.new) (take count into.new)) }
        ensures end { IfOk result (λ count. count ≡ 0 → 0 < length into.new → IsAtEnd (left self.new)) }
        ensures tells_on { TellsOn (left self.old) (left self.new) };
}

/// Where bytes go to.
pub trait Sink {
    /// How often it has failed.
    ghost faults: { Self → ℕ };

    /// The bytes written, where it tells them.
    ghost written: { Self → Option (List ℕ) };

    /// Takes the first bytes of a piece, and says how many: at least one of a nonempty piece.
    fn write(&mut self, piece: &[u8]) -> Result<usize, Failed>
        ensures never_falls { faults self.old ≤ faults self.new }
        ensures failed { OnErr result (HasRisen (faults self.old) (faults self.new)) }
        ensures fits { IfOk result (λ count. count ≤ length piece.now) }
        ensures goes_on { IfOk result (λ count. 0 < length piece.now → 0 < count) }
        ensures bytes { MatchResult result
            (λ count. Appends (written self.old) (written self.new) (take count piece.now))
            (λ _. AppendsPrefix (written self.old) (written self.new) piece.now) };
}
