//! Laws of gatherings, each the contract of a function that does nothing.

ghost use Rattle.std.specs.Prelude.{◌≡◌, ◌*◌, ℕ, List};
ghost use Rattle.blocks_core.specs.Xor.{xor_all};
ghost use Rattle.regen_rebuild.specs.Gatherings.{Part, fresh, gathered, parts_bytes};

/// What was gathered is the exclusive-or of all that was accepted, in whatever order it came.
pub fn a_gathering_is_the_sum_of_its_sources()
    ensures { (block count sources : ℕ) (parts : List Part) → (gathered (fresh block count sources) parts).sum ≡ xor_all (count * block) (parts_bytes parts) }
{}
