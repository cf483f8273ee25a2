ghost use Rattle.std.specs.Prelude.{◌≡◌, ◌<◌, ◌≤◌, ◌+◌, ◌-◌, ◌/◌, ◌^◌, nat_lt, if◌then◌else◌};

use crate::areas::Areas;
use crate::rows::{Rows, all_rows, all_stripes, greatest_unit, rows_of_stripe, stripe_of_row};

/// The shape of an array. Each method but for the fields themselves wants 3 to 32 targets, 1 to 8 areas, and
/// 1 to 4096 of each other number.
///
/// How the stripes share the rows is a matter of the methods: nobody else multiplies a stripe by a unit.
#[derive(Clone, Copy, Debug, PartialEq, Eq)]
pub struct Geometry {
    /// How many targets, parity counted.
    pub targets: u8,
    /// Bytes of a block.
    pub block: u32,
    /// The runs of stripes with units of one size, in their order on the targets.
    pub areas: Areas,
}

/// Where a block of the host stands. Its row is its LBA at the target, and the row of its parity at
/// the parity target.
#[derive(Clone, Copy, Debug, PartialEq, Eq)]
pub struct Place {
    pub stripe: u32,
    pub target: u8,
    pub parity: u8,
    pub row: u32,
}

/// A stripe, and how many of its blocks stand before one of them.
#[derive(Clone, Copy)]
pub(crate) struct StripeOffset {
    pub stripe: u32,
    pub rows: Rows,
    pub offset: u32,
}

impl Geometry {
    ghost use Rattle.stripe_layout.specs.Layout.{IsArray, IsRowOf, stripes_of, first_row, unit_rows, greatest_unit, rows_of, stripe_of_row, parity_of, capacity_of, place_of, stripe_of, offset_in_stripe, lba_at, room_in_unit};

    /// How many stripes there are.
    pub fn stripes(&self) -> u32
        requires { IsArray self.now }
        ensures value { result ≡ stripes_of self.now }
        ensures some { 1 ≤ result }
        ensures few { result ≤ 32768 }
    {
        all_stripes(self.areas.as_slice())
    }

    /// How many rows each target has.
    pub fn rows(&self) -> u32
        requires { IsArray self.now }
        ensures value { result ≡ rows_of self.now }
        ensures some { 1 ≤ result }
        ensures few { result ≤ 2 ^ 27 }
    {
        all_rows(self.areas.as_slice())
    }

    /// The row that a stripe begins with, on each target. Behind the last stripe that is the end of the rows.
    pub fn first_row(&self, stripe: u32) -> u32
        requires { IsArray self.now }
        ensures value { result ≡ first_row self.now stripe }
        ensures few { result ≤ rows_of self.now }
    {
        self.stripe_rows(stripe).first
    }

    /// How many rows a stripe has: the blocks of each of its units. A stripe that isn't there has none.
    pub fn unit_rows(&self, stripe: u32) -> u32
        requires { IsArray self.now }
        ensures value { result ≡ unit_rows self.now stripe }
        ensures few { result ≤ 4096 }
    {
        self.stripe_rows(stripe).count
    }

    /// The blocks of the greatest unit.
    pub fn greatest_unit(&self) -> u32
        requires { IsArray self.now }
        ensures value { result ≡ greatest_unit self.now }
        ensures some { 1 ≤ result }
        ensures few { result ≤ 4096 }
    {
        greatest_unit(self.areas.as_slice())
    }

    /// The stripe that a row belongs to.
    pub fn stripe_of_row(&self, row: u32) -> u32
        requires array { IsArray self.now }
        requires in_range { row < rows_of self.now }
        ensures value { result ≡ stripe_of_row self.now row }
        ensures in_array { result < stripes_of self.now }
    {
        stripe_of_row(self.areas.as_slice(), row)
    }

    /// The target of a stripe's parity unit.
    pub fn parity(&self, stripe: u32) -> u8
        requires { IsArray self.now }
        ensures value { result ≡ parity_of self.now stripe }
        ensures target { result < self.now.targets }
    {
        self.targets - 1 - (stripe % u32::from(self.targets)) as u8
    }

    /// How many blocks a host sees.
    pub fn capacity(&self) -> u64
        requires { IsArray self.now }
        ensures value { result ≡ capacity_of self.now }
        ensures small { result < 2 ^ 32 }
    {
        u64::from(self.rows()) * u64::from(self.targets - 1)
    }

    /// Where a block stands.
    pub fn place(&self, lba: u32) -> Place
        requires array { IsArray self.now }
        requires in_range { lba < capacity_of self.now }
        ensures { result ≡ place_of self.now lba }
    {
        let found = self.stripe_offset(lba);
        let parity = self.parity(found.stripe);
        Place {
            stripe: found.stripe,
            target: target_of_unit((found.offset / found.rows.count) as u8, parity),
            parity,
            row: found.rows.first + found.offset % found.rows.count,
        }
    }

    /// The block of a data unit that stands on a row of its stripe.
    pub fn lba_at(&self, stripe: u32, unit: u8, row: u32) -> u32
        requires array { IsArray self.now }
        requires unit { unit < self.now.targets - 1 }
        requires row { IsRowOf self.now stripe row }
        ensures value { result ≡ lba_at self.now stripe unit row }
        ensures in_range { result < capacity_of self.now }
    {
        let data_units = u32::from(self.targets) - 1;
        let rows = self.stripe_rows(stripe);
        rows.first * data_units + u32::from(unit) * rows.count + (row - rows.first)
    }

    /// How many blocks of its unit stand from a block on, itself counted.
    pub fn room_in_unit(&self, lba: u32) -> u32
        requires array { IsArray self.now }
        requires in_range { lba < capacity_of self.now }
        ensures value { result ≡ room_in_unit self.now lba }
        ensures some { 1 ≤ result }
        ensures few { result ≤ 4096 }
    {
        let found = self.stripe_offset(lba);
        found.rows.count - found.offset % found.rows.count
    }

    /// The rows of a stripe.
    fn stripe_rows(&self, stripe: u32) -> Rows
        requires { IsArray self.now }
        ensures first { result.first ≡ first_row self.now stripe }
        ensures count { result.count ≡ unit_rows self.now stripe }
        ensures within { result.first ≤ rows_of self.now }
        ensures low { result.first ≤ 2 ^ 27 }
        ensures few { result.count ≤ 4096 }
    {
        rows_of_stripe(self.areas.as_slice(), stripe)
    }

    /// The stripe of a block, and which of its blocks it is.
    pub(crate) fn stripe_offset(&self, lba: u32) -> StripeOffset
        requires array { IsArray self.now }
        requires in_range { lba < capacity_of self.now }
        ensures stripe { result.stripe ≡ stripe_of self.now lba }
        ensures first { result.rows.first ≡ first_row self.now (stripe_of self.now lba) }
        ensures count { result.rows.count ≡ unit_rows self.now (stripe_of self.now lba) }
        ensures offset { result.offset ≡ offset_in_stripe self.now lba }
        ensures some { 1 ≤ result.rows.count }
        ensures few { result.rows.count ≤ 4096 }
        ensures low { result.rows.first ≤ 2 ^ 27 }
        ensures unit { result.offset / result.rows.count < self.now.targets - 1 }
    {
        let data_units = u32::from(self.targets) - 1;
        let stripe = self.stripe_of_row(lba / data_units);
        let rows = self.stripe_rows(stripe);
        StripeOffset {
            stripe,
            rows,
            offset: lba - rows.first * data_units,
        }
    }
}

/// The target of a data unit, the parity unit's place passed over.
fn target_of_unit(unit: u8, parity: u8) -> u8
    requires { unit < 32 }
    ensures { result ≡ (if nat_lt unit parity then unit else unit + 1) }
{
    if unit < parity { unit } else { unit + 1 }
}
