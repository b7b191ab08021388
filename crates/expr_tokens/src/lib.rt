//! The tokens of an expression's text.
//!
//! A word is cut after 32 bytes. A literal's range is settled when it is read, by the decimals' own reader, so a
//! literal of any length is right. A token borrows nothing from the text: a word is kept as a name or as one of the
//! three keywords.
#![tactic(auto)]

mod lexer;
mod number;
mod sign;
mod token;
mod word;

pub use lexer::{each_text_has_one_list_of_tokens, read_tokens};
pub use token::{Keyword, Placed, Sign, Token};
