//! The array: a controller over a bus.

ghost use Rattle.std.specs.Prelude.{◌≡◌};
ghost use Rattle.array_control.specs.Arrays.{IsArrayOf};

use stripe_layout::{Geometry, Mode};
use unit_plans::Bus;

/// A parity array, as one caller of a bus has it. Its calls of hosts are cut into pieces, and each piece is served by the plan of
/// one command.
#[derive(Drop)]
pub struct Array<B: Bus + Drop> {
    pub(crate) bus: B,
    pub(crate) geometry: Geometry,
    pub(crate) mode: Mode,
    /// The most blocks of a piece.
    pub(crate) max: u32,
}

impl<B: Bus + Drop> Array<B> {
    /// An array over a bus of this geometry and mode. No piece has more blocks than a buffer has room for, or than the maximum
    /// XOR write size of the targets' first page, where there is one.
    pub fn new(bus: B, geometry: Geometry, mode: Mode, max: u32) -> Array<B>
        requires { IsArrayOf (B.setting bus) geometry mode max }
        ensures { result ≡ record { bus = bus; geometry = geometry; mode = mode; max = max } }
    {
        Array {
            bus,
            geometry,
            mode,
            max,
        }
    }

    /// The bus, to be read.
    pub fn bus(&self) -> &B
        ensures { result.now ≡ self.now.bus }
    {
        &self.bus
    }

    /// The bus. Takes no memory.
    pub fn into_bus(self) -> B
        ensures { result ≡ self.bus }
    {
        self.bus
    }
}
