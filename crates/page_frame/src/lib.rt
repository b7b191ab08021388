//! What each page begins with: its head, and the style sheet, which has the colours and symbols of the drawings and the rows of changes.
#![tactic(auto)]

mod start;
mod style;

pub use start::page_start;
pub use style::style_sheet;
