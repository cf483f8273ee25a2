use crate::bench_lines::BenchLines;
use blocks_core::Bytes;

/// Targets by themselves, with no array over them, and what is asked of each.
#[derive(Debug, Drop)]
pub struct Bench {
    /// How many targets, 1 to 16.
    pub targets: u8,
    /// Bytes of a block, 1 to 4096.
    pub block: u32,
    /// Blocks of each target's medium, 1 to 65536.
    pub rows: u32,
    /// Blocks that each target can hold as deltas, at most 65536.
    pub buffer: u32,
    pub lines: BenchLines,
}

/// What is asked of one target. Each line is an owner of its own: what one line holds, another may take.
#[derive(Debug, Drop)]
pub struct BenchLine {
    pub target: u8,
    pub action: BenchAction,
}

/// What is asked.
#[derive(Debug, Drop)]
pub enum BenchAction {
    /// A command descriptor block of at least one byte, and the bytes sent with it.
    Raw { cdb: Bytes, bytes: Bytes },
    /// The target loses its disk.
    Lose,
    /// The target is reset.
    Reset,
    /// The next request that the target sends to another is dropped.
    DropNext,
    /// The target gets a new disk.
    Fresh,
}
