//! Why blocks aren't held, or aren't found.

/// Blocks can't be held: a row of them is held already, first for this owner; or there is room for so many
/// blocks only.
#[derive(Clone, Copy, Debug, PartialEq, Eq)]
pub enum HoldFault {
    Overlap { owner: u32 },
    Full { room: u32 },
}

/// No one piece of held blocks contains the rows.
#[derive(Clone, Copy, Debug, PartialEq, Eq)]
pub struct NoMatch;
