//! The tokens of a line, the lines of a text, the words of a line, and the numbers that words say.
#![tactic(auto)]

mod bytes;
mod lexer;
mod sign;
mod words;

pub use lexer::{Token, tokens};
pub use sign::Sign;
pub use words::{decimal_at_most, first_line, first_words, hex_word, is_decimal};
