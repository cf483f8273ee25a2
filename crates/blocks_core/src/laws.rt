//! Laws of the exclusive-or, each the contract of a function that does nothing.

ghost use Rattle.std.specs.Prelude.{◌≡◌, ℕ, List, [], length, replicate};
ghost use Rattle.blocks_core.specs.Xor.{xor, zeros};

/// How three lists are grouped makes no difference, whatever their lengths.
pub fn xor_is_associative()
    ensures { (a b c : List ℕ) → xor (xor a b) c ≡ xor a (xor b c) }
{}

/// Which of two lists comes first makes no difference, whatever their lengths.
pub fn xor_is_commutative()
    ensures { (a b : List ℕ) → xor a b ≡ xor b a }
{}

/// A list with itself gives zeros, and so what was folded in twice is gone.
pub fn xor_is_its_own_inverse()
    ensures zeros { (a : List ℕ) → xor a a ≡ zeros (length a) }
    ensures undone { (a b : List ℕ) → length a ≡ length b → xor (xor a b) b ≡ a }
{}
