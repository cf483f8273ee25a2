//! Targets that an opening told of, and what their frames have used up.

ghost use Rattle.std.specs.Prelude.{◌≡◌, ◌<◌, ◌≤◌, ◌*◌, [], ◌∷◌, length, Some, IfOk, IfErr};
ghost use Rattle.host_scripts.specs.declared.bench.BenchLine.{BenchLine};
ghost use Rattle.program_status.specs.Endings.{StopsBy};
ghost use Rattle.target_frames.specs.declared.items.Item.TheVariants.{Opening};
ghost use Rattle.target_frames.specs.Frames.{IsOpening};
ghost use Rattle.target_service.specs.Answered.{bench_of};
ghost use Rattle.target_service.specs.Limits.{passed};

use crate::findings::{ServiceFinding, ServiceLimit};
use crate::replies::reply_of;
use bench_runs::{answer_line, first_row};
use blocks_core::Bytes;
use host_scripts::{Bench, BenchLine, BenchLines, moved_blocks, over_bench};
use program_status::{ProgramStop, found};
use sector_media::MemoryMedium;
use std::alloc::Global;
use xor_target::Rig;

/// The most frames of a stream.
const MOST_FRAMES: u32 = 1_000_000;

/// Bytes that all frames of a stream move.
const MOST_MOVED: u64 = 67_108_864;

/// The targets of a stream.
#[derive(Drop)]
pub struct OpenService {
    pub row: Rig<MemoryMedium>,
    pub rows: u32,
    /// The bytes of a block.
    pub block: u32,
    /// How many frames were answered.
    pub frames: u32,
    /// How many blocks they moved.
    pub moved: u64,
}

/// The first limit that so many frames pass, which move so many blocks. The count of frames comes first.
fn passed(block: u32, frames: u32, moved: u64) -> Option<ServiceLimit>
    requires block { block ≤ 4096 }
    requires moved { moved ≤ 83886080 }
    ensures { result ≡ passed block frames moved }
{
    if frames > MOST_FRAMES {
        return Some(ServiceLimit::Frames);
    }
    if moved * u64::from(block) > MOST_MOVED {
        return Some(ServiceLimit::Moved);
    }
    None
}

/// The targets that an opening tells of, as those of a bench without lines. Takes no memory.
fn bench_of(alloc: Global, targets: u8, block: u16, buffer: u16, rows: u32) -> Bench
    ensures { result ≡ bench_of targets block buffer rows }
{
    Bench {
        targets,
        block: u32::from(block),
        rows,
        buffer: u32::from(buffer),
        lines: BenchLines::new(alloc),
    }
}

impl OpenService {
    ghost use Rattle.target_service.specs.Found.{finding_line};
    ghost use Rattle.target_service.specs.Progress.{IsCounting, IsOpen, IsReplyTo, Passes, TooMuch};

    /// Makes the targets that an opening tells of, as those of a bench: over media of zeros in memory.
    pub fn new(
        alloc: Global,
        targets: u8,
        block: u16,
        buffer: u16,
        rows: u32,
    ) -> Result<OpenService, ProgramStop<ServiceFinding>>
        requires { IsOpening targets block buffer rows }
        ensures counting { IfOk result (λ s. IsCounting s) }
        ensures count { IfOk result (λ s. length s.row ≡ targets) }
        ensures opened { IfOk result (λ s. IsOpen s (Opening targets block buffer rows ∷ []) []) }
        ensures stop { IfErr result (λ stop. StopsBy finding_line (TooMuch targets block buffer rows) stop) }
    {
        let bench = bench_of(alloc, targets, block, buffer, rows);
        // Without lines there can be too much of its media alone.
        if over_bench(&bench).is_some() {
            let limit = ServiceLimit::Media;
            return Err(found(alloc, ServiceFinding::Over { limit }));
        }
        Ok(OpenService {
            row: first_row(alloc, &bench)?,
            rows,
            block: u32::from(block),
            frames: 0,
            moved: 0,
        })
    }

    /// Answers the line of the next frame, where no limit is passed with it, and hands out the reply.
    pub fn answer(
        &mut self,
        alloc: Global,
        line: &BenchLine,
    ) -> Result<Bytes, ProgramStop<ServiceFinding>>
        requires counting { IsCounting self.old }
        requires target { line.now.target < length self.old.row }
        ensures counting { IfOk result (λ _. IsCounting self.new) }
        ensures replied { IfOk result (λ reply. IsReplyTo self.old line.now self.new reply) }
        ensures stop { IfErr result (λ stop. StopsBy finding_line (Passes self.old line.now) stop) }
    {
        let frames = self.frames + 1;
        let moved = self.moved + moved_blocks(self.rows, &line.action);
        match passed(self.block, frames, moved) {
            Some(limit) => Err(found(alloc, ServiceFinding::Over { limit })),
            None => {
                let came = answer_line(alloc, &mut self.row, frames, line)?;
                self.frames = frames;
                self.moved = moved;
                let reply = reply_of(alloc, &came)?;
                Ok(reply)
            }
        }
    }
}
