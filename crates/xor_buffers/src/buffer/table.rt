//! The table of a buffer: whose blocks are held, and from which rows on.

ghost use Rattle.std.specs.Prelude.{◌≡◌, ◌<◌, ◌≤◌, ◌+◌, ◌++◌, ◌^◌, ◌-◌, ◌==◌, [], ◌∷◌, if◌then◌else◌, length, take, drop, false, MatchOption, vec_capacity};
ghost use Rattle.std.specs.List.{AllByRecursion};
ghost use Rattle.xor_buffers.specs.declared.buffer.table.Run.{Run};
ghost use Rattle.xor_buffers.specs.Runs.{blocks_in, run_holds, run_overlaps, run_overlap, run_rest, IsPlace};

/// Blocks that are held in one piece: whose they are, from which row on, and how many.
#[derive(Clone, Copy, Debug)]
pub(crate) struct Run {
    pub(crate) owner: u32,
    pub(crate) row: u32,
    pub(crate) count: u32,
}

/// Where a run stands: its place in the table, and how many blocks stand in front of it.
#[derive(Clone, Copy, Debug)]
pub(crate) struct RunPlace {
    pub(crate) index: usize,
    pub(crate) at: u32,
}

/// Whether a run has some of these rows.
fn overlaps(run: Run, row: u32, count: u32) -> bool
    ensures { result ≡ run_overlaps row count run }
{
    let end = u64::from(row) + u64::from(count);
    u64::from(run.row) < end && u64::from(row) < u64::from(run.row) + u64::from(run.count)
}

/// Whether a run contains these rows.
fn contains(run: Run, row: u32, count: u64) -> bool
    requires { count < 2 ^ 63 }
    ensures { result ≡ run_holds row count run }
{
    run.row <= row && u64::from(row) + count <= u64::from(run.row) + u64::from(run.count)
}

/// The owner of the first run that has some of these rows.
pub(crate) fn overlap_in(runs: &[Run], row: u32, count: u32) -> Option<u32>
    ensures { result ≡ run_overlap row count runs.now }
{
    for run in runs {
        if overlaps(*run, row, count) {
            return Some(run.owner);
        }
    }
    None
}

/// A run that contains these rows, if there is one. No row is in two runs of a table, so there is no other.
pub(crate) fn find_in(runs: &[Run], used: u32, row: u32, count: u64) -> Option<RunPlace>
    requires used { used ≡ blocks_in runs.now }
    requires count { count < 2 ^ 63 }
    ensures { MatchOption result (AllByRecursion (λ e. run_holds row count e ≡ false) runs.now) (λ place. IsPlace row count runs.now place.index place.at) }
{
    // Deltas are mostly taken in the order in which they were held, or in the opposite one. Looked for from both
    // ends at once, they are found at the first step either way.
    let mut front = 0;
    let mut at = used;
    for done in 0..runs.len() {
        let first = runs[done];
        if contains(first, row, count) {
            return Some(RunPlace {
                index: done,
                at: front,
            });
        }
        front += first.count;
        let index = runs.len() - 1 - done;
        let run = runs[index];
        at -= run.count;
        if contains(run, row, count) {
            return Some(RunPlace { index, at });
        }
    }
    None
}

/// What is left of a run behind so many blocks.
fn rest_behind(run: Run, behind: u32) -> Run
    requires within { behind < run.count }
    requires fits { run.row + run.count ≤ 2 ^ 32 }
    ensures { result ≡ record { owner = run.owner; row = run.row + behind; count = run.count - behind } }
{
    Run {
        owner: run.owner,
        row: run.row + behind,
        count: run.count - behind,
    }
}

/// Puts what is left of a run in its place, once so many blocks of it are let go, behind so many first ones:
/// nothing, or one or two runs.
pub(crate) fn cut(runs: &mut Vec<Run>, index: usize, run: Run, start: u32, count: u32)
    requires inside { index < length runs.old.items }
    requires within { start + count ≤ run.count }
    requires fits { run.row + run.count ≤ 2 ^ 32 }
    requires room { length runs.old.items + (run.count - count) ≤ vec_capacity runs.old + 1 }
    ensures items { runs.new.items ≡ take index runs.old.items ++ (run_rest start count run ++ drop (index + 1) runs.old.items) }
    ensures table { vec_capacity runs.old ≤ vec_capacity runs.new }
{
    let behind = start + count;
    if behind == run.count {
        cut_end(runs, index, run, start);
    } else if start == 0 {
        runs[index] = rest_behind(run, behind);
    } else {
        runs[index] = Run {
            count: start,
            ..run
        };
        // Each run has a block, and the table has room for a run a slot: a run of two rests had three blocks,
        // so there is room for one more, and this can't want memory.
        runs.insert(index + 1, rest_behind(run, behind)).unwrap();
    }
}

/// The same where the blocks are the last of the run.
fn cut_end(runs: &mut Vec<Run>, index: usize, run: Run, start: u32)
    requires inside { index < length runs.old.items }
    ensures items { runs.new.items ≡ take index runs.old.items ++ ((if start == 0 then [] else record run { count = start } ∷ []) ++ drop (index + 1) runs.old.items) }
    ensures table { vec_capacity runs.old ≤ vec_capacity runs.new }
{
    if start == 0 {
        runs.remove(index);
    } else {
        runs[index] = Run {
            count: start,
            ..run
        };
    }
}
