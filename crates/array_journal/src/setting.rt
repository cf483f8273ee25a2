use stripe_layout::{Geometry, Mode};

/// What an array is set to: its shape, the blocks that each target's buffer holds, and who moves the
/// deltas.
#[derive(Clone, Copy, Debug, PartialEq, Eq)]
pub struct Setting {
    pub geometry: Geometry,
    /// In blocks, for each target alike.
    pub buffer: u32,
    pub mode: Mode,
}
