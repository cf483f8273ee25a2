//! The words that a program is started with.

ghost use Rattle.std.specs.Prelude.{◌≡◌, [], ◌∷◌, IsTrue, IsFalse};
ghost use Rattle.program_status.specs.Words.{texts, single_of};
ghost use Rattle.text_fields.specs.Reading.{Reads};

use std::env::{self, Env};
use std::io;

/// The words after the program's name. Words that aren't text are none, which no program does anything for.
/// Any other failure is the caller's to answer: the programs take it for want of memory.
pub fn words_after_name<R: Env + AllocGlobal>(rt: &R) -> io::Result<Vec<String>> {
    match env::args(rt) {
        Ok(mut words) => {
            let _name = words.next();
            Ok(words.collect(rt.alloc())?)
        }
        Err(error) if error.kind() == io::ErrorKind::InvalidData => Ok(Vec::new(rt.alloc())),
        Err(error) => Err(error),
    }
}

/// The one word.
pub fn single_word(words: &[String]) -> Option<&str>
    ensures { Reads (λ x. x.now) result (single_of (texts words.now)) }
{
    match words {
        [word] => Some(word.as_str()),
        _ => None,
    }
}

/// Whether the words are this one alone.
#[tactic(auto, using(crate::proofs::OneWord::one_yes, crate::proofs::OneWord::one_no, crate::proofs::OneWord::one_none))]
pub fn is_single_word(words: &[String], word: &str) -> bool
    ensures yes { IsTrue result → texts words.now ≡ word.now ∷ [] }
    ensures no { IsFalse result → texts words.now ≡ word.now ∷ [] → ⊥ }
{
    match single_word(words) {
        Some(only) => only == word,
        None => false,
    }
}
