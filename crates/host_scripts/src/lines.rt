//! The call lines of a script, and the line of the first turns before them.

ghost use Rattle.std.specs.Prelude.{◌≡◌, ◌<◌, ◌≤◌, ◌+◌, ◌-◌, ◌^◌, ◌==◌, ◌&&◌, nat_lt, nat_le, true, IfOk, IfSome, length, map, Option, Some, None};
ghost use Rattle.std.specs.List.{list_all};
ghost use Rattle.host_scripts.specs.declared.script.Action.{Action};
ghost use Rattle.host_scripts.specs.Loose.{is_letter, are_letters, letters_of, order_of, called, call_of};
ghost use Rattle.host_scripts.specs.Reading.{Gives, judged, any, is_ranged, is_sized, are_turns, order_at, line_at, is_ranged_call, is_sized_call, call_at, calls_at};

use crate::actions::action;
use crate::calls::Calls;
use crate::number_lines::next_line;
use crate::script::{Action, Call, Cause, ScriptFault, refused};
use blocks_core::{Bytes, Memory};
use std::alloc::Global;
use stripe_layout::Geometry;
use text_fields::strip;

/// The most turns that a script may give.
const MOST_TURNS: usize = 1000;

fn all_letters(text: &[u8]) -> bool
    ensures { result ≡ list_all is_letter text.now }
{
    text.iter().all(|letter| letter.is_ascii_uppercase())
}

/// Whether a text is at least one upper-case letter, and nothing else.
fn are_letters(text: &[u8]) -> bool
    ensures { result ≡ are_letters text.now }
{
    0 < text.len() && all_letters(text)
}

/// Whether each letter is one of the hosts'. The difference stops at zero, as that of the definition does.
fn are_of_hosts(hosts: u8, letters: &[u8]) -> bool
    ensures { result ≡ list_all (λ l. nat_lt (l - 65) hosts) letters.now }
{
    letters
        .iter()
        .all(|letter| letter.saturating_sub(b'A') < hosts)
}

/// Whether letters are turns: no more than a script may give, each of a host.
#[tactic(auto, using(crate::proofs::Turns::are_turns_is))]
fn are_turns(hosts: u8, letters: &[u8]) -> bool
    ensures { result ≡ are_turns hosts (map (λ l. l - 65) letters.now) }
{
    letters.len() <= MOST_TURNS && are_of_hosts(hosts, letters)
}

fn hosts_of(alloc: Global, letters: &[u8]) -> Result<Bytes, Memory>
    ensures { IfOk result (λ hosts. hosts ≡ map (λ l. l - 65) letters.now) }
{
    let mut hosts = Bytes::new(alloc);
    for &letter in letters {
        hosts.push(letter.saturating_sub(b'A'))?;
    }
    Ok(hosts)
}

/// The hosts of the first turns, by their letters behind the keyword.
#[tactic(auto, unfolding(crate::specs::Loose::letters_of))]
fn turns(alloc: Global, hosts: u8, line: u32, text: &[u8]) -> Result<Bytes, ScriptFault>
    ensures { Gives (λ x. x) result (judged line (are_turns hosts) any (letters_of text.now)) }
{
    if !are_letters(text) {
        return Err(refused(line, Cause::Form));
    }
    if !are_turns(hosts, text) {
        return Err(refused(line, Cause::Range));
    }
    let turns = hosts_of(alloc, text)?;
    Ok(turns)
}

/// The same behind the keyword.
#[tactic(auto, unfolding(crate::specs::Loose::order_of))]
fn order_turns(alloc: Global, hosts: u8, line: u32, text: &[u8]) -> Result<Bytes, ScriptFault>
    ensures { Gives (λ x. x) result (judged line (are_turns hosts) any (order_of text.now)) }
{
    match strip(text, b"order ") {
        Some(letters) => turns(alloc, hosts, line, letters),
        None => Err(refused(line, Cause::Form)),
    }
}

/// The line of the first turns, and what stands after it.
#[tactic(auto, unfolding(crate::specs::Reading::line_at))]
fn given_order(
    alloc: Global,
    hosts: u8,
    line: u32,
    bytes: &[u8],
) -> Result<(Bytes, &[u8]), ScriptFault>
    ensures value { Gives (λ x. (x.0, x.1.now)) result (line_at line (are_turns hosts) any order_of bytes.now) }
    ensures shorter { IfOk result (λ x. length x.1.now < length bytes.now) }
{
    let (text, rest) = next_line(bytes, line)?;
    let turns = order_turns(alloc, hosts, line, text)?;
    Ok((turns, rest))
}

/// The same where such a line stands there, and else no turns.
#[tactic(auto, unfolding(crate::specs::Reading::order_at))]
pub fn order_line(
    alloc: Global,
    hosts: u8,
    line: u32,
    bytes: &[u8],
) -> Result<(Bytes, &[u8]), ScriptFault>
    ensures value { Gives (λ x. (x.0, x.1.now)) result (order_at hosts line bytes.now) }
    ensures shorter { IfOk result (λ x. length x.1.now ≤ length bytes.now) }
    ensures counted { IfOk result (λ x. 1 ≤ length x.0 → length x.1.now < length bytes.now) }
{
    match strip(bytes, b"order ") {
        Some(_) => given_order(alloc, hosts, line, bytes),
        None => Ok((Bytes::new(alloc), bytes)),
    }
}

/// The call of a host, where there is that host.
fn hosted(
    geometry: &Geometry,
    hosts: u8,
    line: u32,
    host: u8,
    asked: Result<Action, ScriptFault>,
) -> Result<Call, ScriptFault>
    ensures { (read : Option Action) → Gives (λ a. a) asked (judged line (is_ranged geometry.now) (is_sized geometry.now) read)
        → Gives (λ c. c) result (judged line (is_ranged_call geometry.now hosts) (is_sized_call geometry.now) (called host read)) }
{
    // What the host asks was read first, also where there is no such host: a line that is wrong in form is
    // refused for its form, and only else for its host's letter. With the letter tested first, a fault of
    // form would be told as one of range.
    if host < hosts {
        let action = asked?;
        return Ok(Call { host, action });
    }
    match asked {
        Err(
            ScriptFault::Refused {
                cause: Cause::Form,
                ..
            },
        ) => Err(refused(line, Cause::Form)),
        Err(ScriptFault::Memory) => Err(ScriptFault::Memory),
        _ => Err(refused(line, Cause::Range)),
    }
}

/// A host's letter, a space and what it asks.
#[tactic(auto, unfolding(crate::specs::Loose::call_of))]
fn call(
    alloc: Global,
    geometry: &Geometry,
    hosts: u8,
    line: u32,
    text: &[u8],
) -> Result<Call, ScriptFault>
    requires { 1 ≤ geometry.now.block }
    ensures { Gives (λ x. x) result (judged line (is_ranged_call geometry.now hosts) (is_sized_call geometry.now) (call_of text.now)) }
{
    match text {
        [letter @ b'A'..=b'Z', b' ', asked @ ..] => {
            let asked = action(alloc, geometry, line, asked);
            hosted(geometry, hosts, line, *letter - b'A', asked)
        }
        _ => Err(refused(line, Cause::Form)),
    }
}

/// The call of the next line, and what stands after it.
#[tactic(auto, unfolding(crate::specs::Reading::call_at, crate::specs::Reading::line_at))]
fn call_line<'a>(
    alloc: Global,
    geometry: &Geometry,
    hosts: u8,
    line: u32,
    bytes: &'a [u8],
) -> Result<(Call, &'a [u8]), ScriptFault>
    requires { 1 ≤ geometry.now.block }
    ensures value { Gives (λ x. (x.0, x.1.now)) result (call_at geometry.now hosts line bytes.now) }
    ensures shorter { IfOk result (λ x. length x.1.now < length bytes.now) }
{
    let (text, rest) = next_line(bytes, line)?;
    let call = call(alloc, geometry, hosts, line, text)?;
    Ok((call, rest))
}

/// All the call lines, to the last byte; the first of them is this line.
pub fn call_lines(
    alloc: Global,
    geometry: &Geometry,
    hosts: u8,
    first: u32,
    bytes: &[u8],
) -> Result<Calls, ScriptFault>
    requires block { 1 ≤ geometry.now.block }
    requires numbers { first + length bytes.now ≤ 2 ^ 32 }
    requires fewer { length bytes.now < 2 ^ 32 }
    ensures value { Gives (λ x. x) result (calls_at geometry.now hosts (length bytes.now) first bytes.now) }
    ensures fewer { IfOk result (λ x. length x ≤ length bytes.now) }
{
    let mut calls = Calls::new(alloc);
    let mut rest = bytes;
    while !rest.is_empty() {
        let line = first + calls.len() as u32;
        let (call, after) = call_line(alloc, geometry, hosts, line, rest)?;
        calls.push(call)?;
        rest = after;
    }
    Ok(calls)
}
