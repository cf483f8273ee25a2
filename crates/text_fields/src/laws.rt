//! What is read is what is spelt: each law is the contract of a function that does nothing.

ghost use Rattle.text_fields.specs.Laws.{NumeralsAreExact, NumbersAreExact, HexIsExact, FilledIsExact, OneByteIsExact, DataIsExact, CutsAreExact, StripsAreExact, WordsAreExact};

/// A number of any size is read of its numeral, and of no other text.
pub fn numerals_are_exact()
    ensures { NumeralsAreExact }
{}

/// The same of numbers that are at most so great.
pub fn numbers_are_exact()
    ensures { NumbersAreExact }
{}

/// Bytes are read of their pairs of digits, and of no other text.
pub fn hex_is_exact()
    ensures { HexIsExact }
{}

/// The same of at least one byte.
pub fn filled_is_exact()
    ensures { FilledIsExact }
{}

/// The same of just one byte.
pub fn one_byte_is_exact()
    ensures { OneByteIsExact }
{}

/// The same of bytes of which none are a dash.
pub fn data_is_exact()
    ensures { DataIsExact }
{}

/// A text is cut at the first mark, and nowhere else.
pub fn cuts_are_exact()
    ensures { CutsAreExact }
{}

/// What is read behind a keyword is all that stands behind it.
pub fn strips_are_exact()
    ensures { StripsAreExact }
{}

/// A word behind a space ends before the first mark, or with the text.
pub fn words_are_exact()
    ensures { WordsAreExact }
{}
