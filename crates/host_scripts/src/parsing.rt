ghost use Rattle.std.specs.Prelude.{◌≡◌, ◌<◌, ◌≤◌, ◌+◌, ◌^◌, IfOk, IfErr, MatchResult, length, List, ℕ};
ghost use Rattle.host_scripts.specs.declared.script.Script.{Script};
ghost use Rattle.host_scripts.specs.declared.script.Cause.{Cause};
ghost use Rattle.host_scripts.specs.Scripts.{SpellsScript};
ghost use Rattle.host_scripts.specs.Refusals.{IsRefusal, Refuses};
ghost use Rattle.host_scripts.specs.Reading.{Gives, first_line, script_at};

use crate::header::{ScriptHeader, header_of, turns_line};
use crate::lines::{call_lines, order_line};
use crate::script::{Script, ScriptFault};
use blocks_core::Bytes;
use std::alloc::Global;

/// The line of the first call, behind that of the first turns where there is one.
fn first_call_line(line: u32, order: &Bytes) -> u32
    requires { line ≤ 18 }
    ensures value { result ≡ first_line line order.now }
    ensures most { result ≤ line + 1 }
    ensures turns { line < result → 1 ≤ length order.now }
{
    if order.is_empty() { line } else { line + 1 }
}

/// The script of the bytes, or their first fault.
#[tactic(auto, unfolding(crate::specs::Reading::script_at))]
fn read_script(alloc: Global, bytes: &[u8]) -> Result<Script, ScriptFault>
    requires { length bytes.now < 2 ^ 32 }
    ensures value { Gives (λ s. s) result (script_at bytes.now) }
    ensures fewer { IfOk result (λ s. length s.calls < 2 ^ 32) }
{
    // A `match` for the borrow checker's sake, as in `shape_lines`.
    let (header, rest) = match header_of(bytes) {
        Ok(read) => read,
        Err(fault) => return Err(fault),
    };
    let line = turns_line(&header);
    let (order, rest) = order_line(alloc, header.hosts, line, rest)?;
    let first = first_call_line(line, &order);
    let calls = call_lines(alloc, &header.geometry, header.hosts, first, rest)?;
    let ScriptHeader {
        version,
        geometry,
        buffer,
        maxima,
        mode,
        seed,
        hosts,
    } = header;
    Ok(Script {
        version,
        geometry,
        buffer,
        maxima,
        mode,
        seed,
        hosts,
        order,
        calls,
    })
}

/// The script that the bytes spell, or else the first line that is refused, and the first cause in it in
/// the order of `Cause`. A numeral of any length is a number. Takes memory for the calls and their bytes;
/// the time is linear in the bytes.
pub fn parse(alloc: Global, bytes: &[u8]) -> Result<Script, ScriptFault>
    requires { length bytes.now < 2 ^ 32 }
    // What is read is spelt so.
    ensures read { IfOk result (λ s. SpellsScript bytes.now s) }
    // What is spelt so is read, unless memory runs out.
    ensures spelt { (s : Script) → SpellsScript bytes.now s → MatchResult result (λ t. t ≡ s) (λ e. e ≡ ScriptFault.Memory) }
    // What is refused spells no script, and the line is the first that is refused, with its first cause.
    ensures refused { IfErr result (λ e. Refuses bytes.now e) }
    // Each call has a line.
    ensures fewer { IfOk result (λ s. length s.calls < 2 ^ 32) }
{
    read_script(alloc, bytes)
}

/// No two scripts have one spelling. That a script has only one is in the definition, a function of it.
pub fn one_spelling()
    ensures { (a b : Script) (bytes : List ℕ) → SpellsScript bytes a → SpellsScript bytes b → a ≡ b }
{}

/// Bytes have at most one refusal: one line, and one cause.
pub fn one_refusal()
    ensures { (bytes : List ℕ) (m n : ℕ) (c d : Cause) → IsRefusal bytes m c → IsRefusal bytes n d → (m ≡ n) × (c ≡ d) }
{}
