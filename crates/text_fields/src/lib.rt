//! Fields of a text: numerals, hexadecimal, what stands before a mark or behind a keyword, words; read, and
//! put at the end of a text.
#![tactic(auto)]

mod appending;
mod cutting;
mod hexadecimal;
mod laws;
mod numerals;

pub use appending::{
    push_counted, push_data, push_hex, push_number, push_upper_byte, upper_nibble,
};
pub use cutting::{cut, first_place, front_word, is_text, next_word, strip};
pub use hexadecimal::{data_bytes, filled_bytes, hex_bytes, one_byte};
pub use laws::{
    cuts_are_exact, data_is_exact, filled_is_exact, hex_is_exact, numbers_are_exact,
    numerals_are_exact, one_byte_is_exact, strips_are_exact, words_are_exact,
};
pub use numerals::{capped_number, number_u8, number_u16, number_u32, number_up_to};
