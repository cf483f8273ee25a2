//! Scripts of host calls on a parity array, benches of targets by themselves, and the one way in which each is
//! spelt.
#![tactic(auto)]

mod actions;
mod bench;
mod bench_actions;
mod bench_header;
mod bench_limits;
mod bench_lines;
mod bench_parsing;
mod calls;
mod header;
mod limits;
mod lines;
mod modes;
mod number_lines;
mod numbers;
mod parsing;
mod printing;
mod raw_parts;
mod script;
mod shape;

pub use bench::{Bench, BenchAction, BenchLine};
pub use bench_limits::{moved_blocks, over_bench};
pub use bench_lines::BenchLines;
pub use bench_parsing::{one_bench_refusal, one_bench_spelling, parse_bench};
pub use calls::Calls;
pub use limits::over;
pub use parsing::{one_refusal, one_spelling, parse};
pub use printing::print;
pub use script::{Action, Call, Cause, Limit, Script, ScriptFault};
