ghost use Rattle.std.specs.Prelude.{◌≡◌, ◌<◌, ◌≤◌, ◌++◌, [], ◌∷◌, length, slice_get};

use std::marker::Model;

/// A run of stripes with units of one size.
#[derive(Clone, Copy, Debug, PartialEq, Eq)]
pub struct Area {
    /// Blocks of a unit: a stripe's share of one target.
    pub unit: u32,
    /// How many stripes.
    pub stripes: u32,
}

/// The areas of an array, one behind another: at least one, and at most eight. Takes no memory.
#[derive(Clone, Copy, Debug, PartialEq, Eq)]
pub struct Areas {
    kept: [Area; 8],
    len: u8,
}

impl Model for Areas {
    ghost use Rattle.std.specs.Prelude.{List};
    ghost use Rattle.stripe_layout.specs.declared.areas.Area.{Area};

    ghost Value = { List Area };

    ghost use Rattle.stripe_layout.specs.AreaLists.{areas_in, kept_as, IsKept};

    ghost view = { areas_in };

    ghost invariant = { IsKept };

    ghost inverse = { kept_as };
}

impl Areas {
    /// One area.
    pub fn new(first: Area) -> Areas
        ensures { result ≡ first ∷ [] }
    {
        let mut kept = [Area {
            unit: 0,
            stripes: 0,
        }; 8];
        kept[0] = first;
        Areas { kept, len: 1 }
    }

    /// No areas yet.
    pub(crate) fn none() -> Areas
        ensures { result ≡ [] }
    {
        Areas {
            kept: [Area {
                unit: 0,
                stripes: 0,
            }; 8],
            len: 0,
        }
    }

    /// Puts one area behind the others.
    pub fn push(&mut self, area: Area)
        requires { length self.now < 8 }
        ensures { self.new ≡ self.old ++ area ∷ [] }
    {
        self.kept[usize::from(self.len)] = area;
        self.len += 1;
    }

    pub fn len(&self) -> u8
        ensures value { result ≡ length self.now }
        ensures few { result ≤ 8 }
    {
        self.len
    }

    pub fn get(&self, place: u8) -> Option<Area>
        ensures { result ≡ slice_get self.now place }
    {
        if place < self.len {
            Some(self.kept[usize::from(place)])
        } else {
            None
        }
    }

    pub fn as_slice(&self) -> &[Area]
        ensures { result.now ≡ self.now }
    {
        &self.kept[..usize::from(self.len)]
    }
}
