//! Where a test may hold a thread.

use std::marker::Sync;

/// A place to be passed after an event or a reply. There is no contract: that what was made stands already,
/// and that others go on meanwhile since no lock is held, is for the one that passes.
pub trait Gate: Sync {
    /// Passes. A gate may return at once, or later.
    fn pass(&self, point: &GatePoint);
}

/// What was made just before a gate is passed.
#[derive(Clone, Copy, Debug, PartialEq, Eq)]
pub struct GatePoint {
    /// The place of the host's letter, A being 0.
    pub host: u8,
    /// The number of the host's call, counted from 1.
    pub call: u32,
    /// The piece of that call; 0 for a reply and for calls without pieces.
    pub piece: u32,
    /// The event's number, 0 to 15 in the order of the table of events, or 16 for a reply.
    pub kind: u8,
}

/// A gate that returns at once.
#[derive(Clone, Copy, Debug, PartialEq, Eq)]
pub struct OpenGate;

impl Gate for OpenGate {
    fn pass(&self, _point: &GatePoint) {}
}
