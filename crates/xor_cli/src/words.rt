ghost use Rattle.std.specs.Prelude.{◌≡◌, Some, IfOk, OnErr, IsSome, MatchOption};
ghost use Rattle.xor_cli.specs.declared.words.ToolCommand.{ToolCommand};
ghost use Rattle.program_status.specs.Words.{texts};
ghost use Rattle.text_fields.specs.Reading.{Reads};
ghost use Rattle.xor_cli.specs.Words.{SpellsToolCommand, SpellsNoToolCommand, IsCommand};
ghost use Rattle.xor_cli.specs.WordReading.{first_of, flag_of, params_at, format_at, last_at, decode_at, step_at, target_at, command_at};

use crate::decoding::Format;
use crate::numerals::{hex_of, number_of};
use blocks_core::{Bytes, Memory};
use program_status::single_word;
use std::alloc::Global;

/// A run of what the source gives.
#[derive(Clone, Copy, Debug, PartialEq, Eq)]
pub enum RunCommand {
    /// Runs a script on one thread, and writes the trace of its journal behind the report where that is
    /// asked for.
    Step { trace: bool },
    /// Runs a bench: sends its lines to targets without an array.
    Target,
}

/// What is to be done.
#[derive(Debug, Drop)]
pub enum ToolCommand {
    /// Reads the source and runs what it gives.
    Run(RunCommand),
    /// Says what value these bytes spell.
    Decode { format: Format, bytes: Bytes },
}

/// The first word, and the words after it.
fn first(words: &[String]) -> Option<(&str, &[String])>
    ensures { Reads (λ x. (x.0.now, texts x.1.now)) result (first_of (texts words.now)) }
{
    match words {
        [] => None,
        [word, rest @ ..] => Some((word.as_str(), rest)),
    }
}

fn flag_of(word: &str) -> Option<bool>
    ensures { result ≡ flag_of word.now }
{
    if word == "0" {
        Some(false)
    } else if word == "1" {
        Some(true)
    } else {
        None
    }
}

/// What stands behind `params`: the INTDATA bit, and how many bytes of intermediate data there are.
#[tactic(auto, unfolding(crate::specs::WordReading::params_at))]
fn params(words: &[String]) -> Option<(Format, &[String])>
    ensures { Reads (λ x. (x.0, texts x.1.now)) result (params_at (texts words.now)) }
{
    let (bit, rest) = first(words)?;
    let intdata = flag_of(bit)?;
    let (number, rest) = first(rest)?;
    let wanted = number_of(number)?;
    Some((Format::Params { intdata, wanted }, rest))
}

/// What stands behind `decode`: the name of a format.
#[tactic(auto, unfolding(crate::specs::WordReading::format_at))]
fn format(words: &[String]) -> Option<(Format, &[String])>
    ensures { Reads (λ x. (x.0, texts x.1.now)) result (format_at (texts words.now)) }
{
    let (name, rest) = first(words)?;
    if name == "cdb" {
        Some((Format::Cdb, rest))
    } else if name == "sense" {
        Some((Format::Sense, rest))
    } else if name == "page" {
        Some((Format::Page, rest))
    } else if name == "params" {
        params(rest)
    } else {
        None
    }
}

/// What stands behind a format: the bytes.
#[tactic(auto, unfolding(crate::specs::WordReading::last_at))]
fn last(alloc: Global, format: Format, words: &[String]) -> Result<Option<ToolCommand>, Memory>
    ensures found { IfOk result (λ found. found ≡ last_at format (texts words.now)) }
    ensures memory { OnErr result (IsSome (last_at format (texts words.now))) }
{
    let Some(text) = single_word(words) else {
        return Ok(None);
    };
    match hex_of(alloc, text)? {
        Some(bytes) => Ok(Some(ToolCommand::Decode { format, bytes })),
        None => Ok(None),
    }
}

/// What stands behind `decode`.
#[tactic(auto, unfolding(crate::specs::WordReading::decode_at))]
fn decode(alloc: Global, words: &[String]) -> Result<Option<ToolCommand>, Memory>
    ensures found { IfOk result (λ found. found ≡ decode_at (texts words.now)) }
    ensures memory { OnErr result (IsSome (decode_at (texts words.now))) }
{
    match format(words) {
        Some((format, rest)) => last(alloc, format, rest),
        None => Ok(None),
    }
}

/// What stands behind `step`.
fn step(words: &[String]) -> Option<ToolCommand>
    ensures { result ≡ step_at (texts words.now) }
{
    match words {
        [] => Some(ToolCommand::Run(RunCommand::Step { trace: false })),
        [word] if word.as_str() == "--trace" => {
            Some(ToolCommand::Run(RunCommand::Step { trace: true }))
        }
        _ => None,
    }
}

/// What stands behind `target`.
fn target(words: &[String]) -> Option<ToolCommand>
    ensures { result ≡ target_at (texts words.now) }
{
    match words {
        [] => Some(ToolCommand::Run(RunCommand::Target)),
        _ => None,
    }
}

/// The command that the words are read as.
#[tactic(auto, unfolding(crate::specs::WordReading::command_at))]
fn read_words(alloc: Global, words: &[String]) -> Result<Option<ToolCommand>, Memory>
    ensures found { IfOk result (λ found. found ≡ command_at (texts words.now)) }
    ensures memory { OnErr result (IsSome (command_at (texts words.now))) }
{
    match first(words) {
        Some((verb, rest)) if verb == "step" => Ok(step(rest)),
        Some((verb, rest)) if verb == "target" => Ok(target(rest)),
        Some((verb, rest)) if verb == "decode" => decode(alloc, rest),
        _ => Ok(None),
    }
}

/// The command that the words spell. Takes memory only for words that spell one.
pub fn command_of(alloc: Global, words: &[String]) -> Result<Option<ToolCommand>, Memory>
    ensures found { IfOk result (λ found. MatchOption found (SpellsNoToolCommand (texts words.now)) (λ command. SpellsToolCommand (texts words.now) command)) }
    ensures only { (command : ToolCommand) → SpellsToolCommand (texts words.now) command → IfOk result (λ found. found ≡ Some command) }
    ensures memory { OnErr result (IsCommand (texts words.now)) }
{
    read_words(alloc, words)
}
