//! The drawing of a method as a flowchart, in numbers: its symbols, lines and words with their places.
//!
//! Symbols stand one below another: at each height there is one symbol, and beside it only vertical lines. The line
//! of a body (its spine) runs at its left. After a test `no` goes straight down the spine, `yes` one step to the right and
//! back. So an ELSE takes no width, and a chain of ELSEs with one IF each goes down the page.
#![tactic(auto)]

mod build;
mod choice;
mod drawing;
mod figure;
mod layout;
mod leads;
mod lines;
mod measures;
mod note;
mod passage;
mod pen;
mod pieces;
mod px;
mod statement;

pub use build::{MethodText, read_method};
pub use choice::Choice;
pub use drawing::{Anchor, Drawing, Head, Part, Row, Stroke, Word};
pub use figure::{Body, Figure};
pub use layout::draw;
pub use leads::{Entry, Exit, Lead, Way};
pub use lines::Line;
pub use measures::{
    BENEATH_INDENT, BOX_SIDE, CALL_HEIGHT, CALL_SIDE, LINE_HEIGHT, NOTE_LINE, STATEMENT_GAP,
    TERMINATOR_HEIGHT, TERMINATOR_SIDE, TEST_SIDE, TEXT_DROP,
};
pub use note::Note;
pub use passage::Passage;
pub use pieces::Piece;
pub use px::Px;
pub use statement::{Call, Statement, Written};
