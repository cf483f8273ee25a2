ghost use Rattle.std.specs.Prelude.{◌<◌, ◌^◌, length, IfOk};
ghost use Rattle.host_scripts.specs.Benches.{IsBench};
ghost use Rattle.bench_runs.specs.BenchRuns.{IsBenchRun};

use crate::rows::{first_row, into_journal, serve_all};
use array_journal::Journal;
use blocks_core::{Bytes, Memory};
use host_scripts::Bench;
use std::alloc::Global;

/// What a bench came to: a line of text for each of its lines, and the entries of all targets.
#[derive(Drop)]
pub struct BenchRun {
    pub text: Bytes,
    pub journal: Journal,
}

/// Runs a bench over media in memory. Takes no longer than what its lines move, and its media take.
pub fn run_bench(alloc: Global, bench: &Bench) -> Result<BenchRun, Memory>
    requires ranged { IsBench bench.now }
    requires fewer { length bench.now.lines < 2 ^ 32 }
    ensures { IfOk result (λ run. IsBenchRun bench.now run.journal run.text) }
{
    let mut row = first_row(alloc, bench)?;
    let text = serve_all(alloc, &mut row, bench.lines.as_slice())?;
    let journal = into_journal(alloc, row)?;
    Ok(BenchRun { text, journal })
}
