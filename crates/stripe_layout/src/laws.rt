//! Laws of every array in its ranges. Each is the contract of a function that does nothing.

ghost use Rattle.stripe_layout.specs.Laws.{RowHasStripeLaw, OneStripeLaw, RowsBelowLaw, BlockOfPlaceLaw, PlaceOfBlockLaw, BesideParityLaw, PiecesJoinedLaw, PiecesInUnitsLaw, PiecesLongestLaw};

/// The rows of a target are those of the stripes, and each is in one stripe alone.
pub fn rows_are_those_of_stripes()
    ensures placed { RowHasStripeLaw }
    ensures alone { OneStripeLaw }
    ensures below { RowsBelowLaw }
{}

/// A block is the one that stands where it stands, and each row of a data unit is where its block stands;
/// so no two blocks share a place. No block stands on the parity unit of its stripe.
pub fn blocks_and_places_undo_each_other()
    ensures block { BlockOfPlaceLaw }
    ensures place { PlaceOfBlockLaw }
    ensures beside_parity { BesideParityLaw }
{}

/// The pieces of a run of blocks, joined, are the run; each is in one unit, and as long as its unit, the
/// most blocks of a piece, and the run allow.
pub fn pieces_are_the_run()
    ensures joined { PiecesJoinedLaw }
    ensures in_units { PiecesInUnitsLaw }
    ensures longest { PiecesLongestLaw }
{}
