//! Runs of a bench: lines of commands and of what befalls a disk, each at a target of a row, with no array
//! over them.
#![tactic(auto)]

mod answers;
mod bench_run;
mod line_answer;
mod lines;
mod rows;

pub use bench_run::{BenchRun, run_bench};
pub use line_answer::LineAnswer;
pub use rows::{answer_line, first_row};
