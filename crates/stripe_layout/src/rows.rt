//! What the areas of an array come to: where a stripe begins, and which stripe a row is in. Each takes a step an area.

ghost use Rattle.std.specs.Prelude.{◌≡◌, ◌<◌, ◌≤◌, ◌^◌};
ghost use Rattle.stripe_layout.specs.Layout.{stripes_in, rows_in, first_row_in, unit_rows_in, greatest_unit_in, stripe_of_row_in};

use crate::areas::Area;

/// The rows of a stripe: the first, and how many.
#[derive(Clone, Copy)]
pub struct Rows {
    pub first: u32,
    pub count: u32,
}

/// How many stripes there are.
pub fn all_stripes(areas: &[Area]) -> u32
    requires { stripes_in areas.now < 2 ^ 32 }
    ensures { result ≡ stripes_in areas.now }
{
    let mut stripes = 0;
    for area in areas {
        stripes += area.stripes;
    }
    stripes
}

/// How many rows each target has.
pub fn all_rows(areas: &[Area]) -> u32
    requires { rows_in areas.now < 2 ^ 32 }
    ensures { result ≡ rows_in areas.now }
{
    let mut rows = 0;
    for area in areas {
        rows += area.stripes * area.unit;
    }
    rows
}

/// The blocks of the greatest unit.
pub fn greatest_unit(areas: &[Area]) -> u32
    ensures { result ≡ greatest_unit_in areas.now }
{
    let mut greatest = 0;
    for area in areas {
        greatest = greatest.max(area.unit);
    }
    greatest
}

/// The rows of a stripe. Behind the last stripe that is none, from the end of all rows on.
pub fn rows_of_stripe(areas: &[Area], stripe: u32) -> Rows
    requires { rows_in areas.now < 2 ^ 32 }
    ensures first { result.first ≡ first_row_in areas.now stripe }
    ensures count { result.count ≡ unit_rows_in areas.now stripe }
{
    let mut first = 0;
    let mut left = stripe;
    for area in areas {
        if left < area.stripes {
            return Rows {
                first: first + left * area.unit,
                count: area.unit,
            };
        }
        first += area.stripes * area.unit;
        left -= area.stripes;
    }
    Rows { first, count: 0 }
}

/// The stripe that a row is in.
pub fn stripe_of_row(areas: &[Area], row: u32) -> u32
    requires rows { rows_in areas.now < 2 ^ 32 }
    requires stripes { stripes_in areas.now < 2 ^ 32 }
    requires in_range { row < rows_in areas.now }
    ensures { result ≡ stripe_of_row_in areas.now row }
{
    let mut stripe = 0;
    let mut left = row;
    for area in areas {
        let rows = area.stripes * area.unit;
        if left < rows {
            return stripe + left / area.unit;
        }
        stripe += area.stripes;
        left -= rows;
    }
    stripe
}
