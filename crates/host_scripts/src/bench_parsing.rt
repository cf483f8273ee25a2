ghost use Rattle.std.specs.Prelude.{◌≡◌, ◌<◌, ◌^◌, IfOk, IfErr, MatchResult, length, List, ℕ};
ghost use Rattle.host_scripts.specs.declared.bench.Bench.{Bench};
ghost use Rattle.host_scripts.specs.declared.script.Cause.{Cause};
ghost use Rattle.host_scripts.specs.Benches.{SpellsBench};
ghost use Rattle.host_scripts.specs.BenchRefusals.{IsBenchRefusal, RefusesBench};
ghost use Rattle.host_scripts.specs.BenchReading.{bench_at};
ghost use Rattle.host_scripts.specs.Reading.{Gives};

use crate::bench::Bench;
use crate::bench_actions::all_bench_lines;
use crate::bench_header::{BenchHeader, FIRST_BENCH_LINE, bench_header};
use crate::script::ScriptFault;
use std::alloc::Global;

/// The bench of the bytes, or their first fault.
#[tactic(auto, unfolding(crate::specs::BenchReading::bench_at))]
fn read_bench(alloc: Global, bytes: &[u8]) -> Result<Bench, ScriptFault>
    requires { length bytes.now < 2 ^ 32 }
    ensures { Gives (λ b. b) result (bench_at bytes.now) }
{
    let (header, rest) = bench_header(bytes)?;
    let lines = all_bench_lines(alloc, header.targets, FIRST_BENCH_LINE, rest)?;
    let BenchHeader {
        targets,
        block,
        rows,
        buffer,
    } = header;
    Ok(Bench {
        targets,
        block,
        rows,
        buffer,
        lines,
    })
}

/// The bench that the bytes spell, or else the first line that is refused, and the first cause in it, form
/// before range. A numeral of any length is a number. Takes memory for the lines and their bytes; the time
/// is linear in the bytes.
pub fn parse_bench(alloc: Global, bytes: &[u8]) -> Result<Bench, ScriptFault>
    requires { length bytes.now < 2 ^ 32 }
    // What is read is spelt so.
    ensures read { IfOk result (λ b. SpellsBench bytes.now b) }
    // What is spelt so is read, unless memory runs out.
    ensures spelt { (b : Bench) → SpellsBench bytes.now b → MatchResult result (λ t. t ≡ b) (λ e. e ≡ ScriptFault.Memory) }
    // What is refused spells no bench, and the line is the first that is refused, with its first cause.
    ensures refused { IfErr result (λ e. RefusesBench bytes.now e) }
{
    read_bench(alloc, bytes)
}

/// No two benches have one spelling. That a bench has only one is in the definition, a function of it.
pub fn one_bench_spelling()
    ensures { (a b : Bench) (bytes : List ℕ) → SpellsBench bytes a → SpellsBench bytes b → a ≡ b }
{}

/// Bytes have at most one refusal as a bench: one line, and one cause.
pub fn one_bench_refusal()
    ensures { (bytes : List ℕ) (m n : ℕ) (c d : Cause) → IsBenchRefusal bytes m c → IsBenchRefusal bytes n d → (m ≡ n) × (c ≡ d) }
{}
