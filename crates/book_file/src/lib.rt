//! A saved book: one text for each book, and the book of a text.
#![tactic(auto)]

mod plans;
mod read;
mod refusal;
mod write;

pub use read::{read_book, text_laws};
pub use refusal::{BookFault, SaveRefusal};
pub use write::{saving_laws, write_book};

/// The most bytes of a saved book's text.
pub const MOST_BOOK_TEXT: usize = 268_435_456;
